//! What is outside its limits in a table.

ghost use Rattle.std.specs.Prelude.{◌≡◌, ◌++◌, map, OnOk, option_map};
ghost use Rattle.apex_types.specs.NameText.{is_name};
ghost use Rattle.module_meaning.specs.TableRules.{is_outside};
ghost use Rattle.table_findings.specs.Limits as spec;
ghost use Rattle.table_findings.specs.Views.{findings_of, row_of, subject_of};
ghost use Rattle.window_table.specs.Views.{channel_text, kind_text, partition_text, port_text, table_text, window_text};

use crate::fields::Part;
use crate::finding::{Finding, What};
use crate::part::add;
use crate::subject::{Row, Subject};
use apex_types::Name;
use apex_types::limits::{
    MOST_CHANNELS, MOST_COST, MOST_DEPTH, MOST_DESTINATIONS, MOST_FRAME_TICKS, MOST_PARTITIONS,
    MOST_PORTS, MOST_TICKS, MOST_WINDOWS, MOST_WORDS,
};
use std::alloc::AllocError;
use window_table::{
    WrittenChannel, WrittenKind, WrittenPartition, WrittenPort, WrittenTable, WrittenWindow,
};

/// Adds each number, each count and each name that is outside its limits.
///
/// # Errors
///
/// Only if memory runs out.
pub fn limits<'a>(found: &mut Vec<Finding<'a>>, table: &WrittenTable<'a>) -> Result<(), AllocError>
    ensures { OnOk result
        (findings_of found.new.items
        ≡ findings_of found.old.items ++ spec.limits (table_text table.now)) }
{
    counts(found, table)?;
    costs(found, &table.costs)?;
    rows(found, table)
}

/// Adds what is outside its limits in the rows of a table.
fn rows<'a>(found: &mut Vec<Finding<'a>>, table: &WrittenTable<'a>) -> Result<(), AllocError>
    ensures { OnOk result
        (findings_of found.new.items
        ≡ findings_of found.old.items ++ spec.rows (table_text table.now)) }
{
    partitions(found, most_period(table.frame), table.partitions.as_slice())?;
    windows(found, table.windows.as_slice())?;
    channels(found, table.channels.as_slice())
}

/// The greatest period: the frame, or the greatest frame in place of one outside its limits.
fn most_period(frame: i64) -> i64
    ensures { result ≡ spec.most_period frame }
{
    let most = MOST_FRAME_TICKS as i64;
    if frame < 1 || most < frame {
        most
    } else {
        frame
    }
}

/// Adds what is outside of the frame's limits, and of those of counts.
fn counts<'a>(found: &mut Vec<Finding<'a>>, table: &WrittenTable<'a>) -> Result<(), AllocError>
    ensures { OnOk result
        (findings_of found.new.items
        ≡ findings_of found.old.items ++ spec.counts (table_text table.now)) }
{
    frame_limits(found, table.frame)?;
    sizes(found, table)
}

/// Adds a frame that is outside its limits.
fn frame_limits<'a>(found: &mut Vec<Finding<'a>>, frame: i64) -> Result<(), AllocError>
    ensures { OnOk result
        (findings_of found.new.items ≡ findings_of found.old.items ++ spec.frame_limits frame) }
{
    let most = MOST_FRAME_TICKS as i64;
    outside(found, Subject::Module, "frame", 1, most, frame)
}

/// Adds what is outside of the limits of counts.
fn sizes<'a>(found: &mut Vec<Finding<'a>>, table: &WrittenTable<'a>) -> Result<(), AllocError>
    ensures { OnOk result
        (findings_of found.new.items
        ≡ findings_of found.old.items ++ spec.sizes (table_text table.now)) }
{
    let module = Subject::Module;
    count(
        found,
        module,
        "partition",
        1,
        MOST_PARTITIONS as usize,
        table.partitions.len(),
    )?;
    count(
        found,
        module,
        "window",
        1,
        MOST_WINDOWS as usize,
        table.windows.len(),
    )?;
    count(
        found,
        module,
        "channel",
        0,
        MOST_CHANNELS as usize,
        table.channels.len(),
    )
}

/// Adds a number that is not between two limits.
fn outside<'a>(
    found: &mut Vec<Finding<'a>>,
    subject: Subject<'a>,
    key: &'static str,
    low: u8,
    high: i64,
    number: i64,
) -> Result<(), AllocError>
    ensures { OnOk result
        (findings_of found.new.items
        ≡ findings_of found.old.items ++ spec.outside (subject_of subject.entry) key.now low high number) }
{
    let low = i64::from(low);
    if number < low || high < number {
        add(
            found,
            subject,
            Some(key),
            What::Outside { number, low, high },
        )
    } else {
        Ok(())
    }
}

/// Adds a number that is below its limit.
fn below<'a>(
    found: &mut Vec<Finding<'a>>,
    subject: Subject<'a>,
    key: &'static str,
    low: u8,
    number: i64,
) -> Result<(), AllocError>
    ensures { OnOk result
        (findings_of found.new.items
        ≡ findings_of found.old.items ++ spec.below (subject_of subject.entry) key.now low number) }
{
    let low = i64::from(low);
    if number < low {
        add(found, subject, Some(key), What::Below { number, low })
    } else {
        Ok(())
    }
}

/// Adds a count that is not between two limits.
fn count<'a>(
    found: &mut Vec<Finding<'a>>,
    subject: Subject<'a>,
    key: &'static str,
    low: usize,
    high: usize,
    number: usize,
) -> Result<(), AllocError>
    ensures { OnOk result
        (findings_of found.new.items
        ≡ findings_of found.old.items ++ spec.count (subject_of subject.entry) key.now low high number) }
{
    if number < low || high < number {
        add(found, subject, Some(key), What::Count { number, low, high })
    } else {
        Ok(())
    }
}

/// Adds a text that is no name.
fn name<'a>(
    found: &mut Vec<Finding<'a>>,
    subject: Subject<'a>,
    text: &'a str,
) -> Result<(), AllocError>
    ensures { OnOk result
        (findings_of found.new.items
        ≡ findings_of found.old.items ++ spec.name (subject_of subject.entry) text.now) }
{
    if is_name(text) {
        Ok(())
    } else {
        add(found, subject, Some("name"), What::NoName(text))
    }
}

fn is_name(text: &str) -> bool
    ensures { result ≡ is_name text.now }
{
    Name::new(text.as_bytes()).is_some()
}

/// Adds what is outside its limits in a table that may write costs.
fn costs<'a>(found: &mut Vec<Finding<'a>>, numbers: &Option<Vec<i64>>) -> Result<(), AllocError>
    ensures { OnOk result
        (findings_of found.new.items
        ≡ findings_of found.old.items ++ spec.costs_limits (option_map (λ v. v.items) numbers.now)) }
{
    match numbers {
        None => Ok(()),
        Some(numbers) => costs_at(found, Part::Costs.keys(), numbers.as_slice()),
    }
}

/// Adds the numbers at these keys that are outside the limits of a cost.
fn costs_at<'a>(
    found: &mut Vec<Finding<'a>>,
    keys: &[&'static str],
    numbers: &[i64],
) -> Result<(), AllocError>
    ensures { OnOk result
        (findings_of found.new.items
        ≡ findings_of found.old.items
        ++ spec.costs_at (map (λ key. key.now) keys.now) numbers.now) }
{
    match (keys.split_first(), numbers.split_first()) {
        (Some((key, keys)), Some((number, numbers))) => {
            outside(found, Subject::Costs, *key, 1, MOST_COST as i64, *number)?;
            costs_at(found, keys, numbers)
        }
        _ => Ok(()),
    }
}

#[tactic(auto, using(std::proofs::lemmas::List::drop_more, std::proofs::lemmas::List::append_assoc, crate::proofs::Steps::append_nil))]
fn partitions<'a>(
    found: &mut Vec<Finding<'a>>,
    frame: i64,
    partitions: &[WrittenPartition<'a>],
) -> Result<(), AllocError>
    ensures { OnOk result
        (findings_of found.new.items
        ≡ findings_of found.old.items
        ++ spec.partitions_from frame 0 (map partition_text partitions.now)) }
{
    for (index, row) in partitions.iter().enumerate() {
        partition(found, frame, index, row)?;
    }
    Ok(())
}

/// Adds what is outside its limits in a partition.
fn partition<'a>(
    found: &mut Vec<Finding<'a>>,
    frame: i64,
    index: usize,
    partition: &WrittenPartition<'a>,
) -> Result<(), AllocError>
    ensures { OnOk result
        (findings_of found.new.items
        ≡ findings_of found.old.items
        ++ spec.partition_limits frame index (partition_text partition.now)) }
{
    let row = Row {
        index,
        name: Some(partition.name),
    };
    let subject = Subject::Partition(row);
    name(found, subject, partition.name)?;
    times(found, subject, frame, partition)?;
    count(
        found,
        subject,
        "port",
        0,
        MOST_PORTS as usize,
        partition.ports.len(),
    )?;
    ports(found, row, partition.ports.as_slice())
}

/// Adds a period and a duration that are outside their limits.
fn times<'a>(
    found: &mut Vec<Finding<'a>>,
    subject: Subject<'a>,
    frame: i64,
    partition: &WrittenPartition<'a>,
) -> Result<(), AllocError>
    ensures { OnOk result
        (findings_of found.new.items
        ≡ findings_of found.old.items
        ++ spec.times (subject_of subject.entry) frame (partition_text partition.now)) }
{
    period(found, subject, frame, partition)?;
    duration_within(found, subject, frame, partition)
}

/// Adds a duration that is outside its limits, if the period is within its own.
#[tactic(auto, using(crate::proofs::Steps::append_nil))]
fn duration_within<'a>(
    found: &mut Vec<Finding<'a>>,
    subject: Subject<'a>,
    frame: i64,
    partition: &WrittenPartition<'a>,
) -> Result<(), AllocError>
    ensures { OnOk result
        (findings_of found.new.items
        ≡ findings_of found.old.items
        ++ spec.duration_within (subject_of subject.entry) frame (partition_text partition.now)) }
{
    if is_outside(frame, partition.period) {
        Ok(())
    } else {
        duration(found, subject, partition)
    }
}

/// Returns true if a period is outside its limits.
fn is_outside(frame: i64, period: i64) -> bool
    ensures { result ≡ is_outside 1 frame period }
{
    period < 1 || frame < period
}

/// Adds a period that is outside its limits.
fn period<'a>(
    found: &mut Vec<Finding<'a>>,
    subject: Subject<'a>,
    frame: i64,
    partition: &WrittenPartition<'a>,
) -> Result<(), AllocError>
    ensures { OnOk result
        (findings_of found.new.items
        ≡ findings_of found.old.items
        ++ spec.period (subject_of subject.entry) frame (partition_text partition.now)) }
{
    outside(found, subject, "period", 1, frame, partition.period)
}

/// Adds a duration that is outside its limits.
fn duration<'a>(
    found: &mut Vec<Finding<'a>>,
    subject: Subject<'a>,
    partition: &WrittenPartition<'a>,
) -> Result<(), AllocError>
    ensures { OnOk result
        (findings_of found.new.items
        ≡ findings_of found.old.items
        ++ spec.duration (subject_of subject.entry) (partition_text partition.now)) }
{
    let (high, number) = (partition.period, partition.duration);
    outside(found, subject, "duration", 0, high, number)
}

#[tactic(auto, using(std::proofs::lemmas::List::drop_more, std::proofs::lemmas::List::append_assoc, crate::proofs::Steps::append_nil))]
fn ports<'a>(
    found: &mut Vec<Finding<'a>>,
    partition: Row<'a>,
    ports: &[WrittenPort<'a>],
) -> Result<(), AllocError>
    ensures { OnOk result
        (findings_of found.new.items
        ≡ findings_of found.old.items
        ++ spec.ports_from (row_of partition.entry) 0 (map port_text ports.now)) }
{
    for (index, row) in ports.iter().enumerate() {
        port(found, partition, index, *row)?;
    }
    Ok(())
}

/// Adds what is outside its limits in a port.
fn port<'a>(
    found: &mut Vec<Finding<'a>>,
    partition: Row<'a>,
    index: usize,
    row: WrittenPort<'a>,
) -> Result<(), AllocError>
    ensures { OnOk result
        (findings_of found.new.items
        ≡ findings_of found.old.items
        ++ spec.one_port (row_of partition.entry) index (port_text row.entry)) }
{
    let port = Row {
        index,
        name: Some(row.name),
    };
    let subject = Subject::Port { port, partition };
    name(found, subject, row.name)?;
    outside(found, subject, "words", 1, MOST_WORDS as i64, row.words)?;
    kind(found, subject, row.kind)
}

/// Adds the number of a kind that is outside its limits.
fn kind<'a>(
    found: &mut Vec<Finding<'a>>,
    subject: Subject<'a>,
    kind: WrittenKind,
) -> Result<(), AllocError>
    ensures { OnOk result
        (findings_of found.new.items
        ≡ findings_of found.old.items ++ spec.kind (subject_of subject.entry) (kind_text kind)) }
{
    match kind {
        WrittenKind::Sampling { refresh } => {
            outside(found, subject, "refresh", 0, MOST_TICKS as i64, refresh)
        }
        WrittenKind::Queuing { depth, .. } => {
            outside(found, subject, "depth", 1, MOST_DEPTH as i64, depth)
        }
    }
}

#[tactic(auto, using(std::proofs::lemmas::List::drop_more, std::proofs::lemmas::List::append_assoc, crate::proofs::Steps::append_nil))]
fn windows<'a>(
    found: &mut Vec<Finding<'a>>,
    windows: &[WrittenWindow<'a>],
) -> Result<(), AllocError>
    ensures { OnOk result
        (findings_of found.new.items
        ≡ findings_of found.old.items ++ spec.windows_from 0 (map window_text windows.now)) }
{
    for (index, row) in windows.iter().enumerate() {
        window(found, index, *row)?;
    }
    Ok(())
}

/// Adds what is below its limit in a window.
fn window<'a>(
    found: &mut Vec<Finding<'a>>,
    index: usize,
    window: WrittenWindow<'a>,
) -> Result<(), AllocError>
    ensures { OnOk result
        (findings_of found.new.items
        ≡ findings_of found.old.items ++ spec.window_limits index (window_text window.entry)) }
{
    let subject = Subject::Window(Row {
        index,
        name: Some(window.partition),
    });
    below(found, subject, "offset", 0, window.offset)?;
    below(found, subject, "length", 1, window.length)
}

#[tactic(auto, using(std::proofs::lemmas::List::drop_more, std::proofs::lemmas::List::append_assoc, crate::proofs::Steps::append_nil))]
fn channels<'a>(
    found: &mut Vec<Finding<'a>>,
    channels: &[WrittenChannel<'a>],
) -> Result<(), AllocError>
    ensures { OnOk result
        (findings_of found.new.items
        ≡ findings_of found.old.items ++ spec.channels_from 0 (map channel_text channels.now)) }
{
    for (index, row) in channels.iter().enumerate() {
        channel(found, index, row)?;
    }
    Ok(())
}

/// Adds what is outside its limits in a channel.
fn channel<'a>(
    found: &mut Vec<Finding<'a>>,
    index: usize,
    channel: &WrittenChannel<'a>,
) -> Result<(), AllocError>
    ensures { OnOk result
        (findings_of found.new.items
        ≡ findings_of found.old.items ++ spec.channel_limits index (channel_text channel.now)) }
{
    let subject = Subject::Channel(Row {
        index,
        name: Some(channel.name),
    });
    name(found, subject, channel.name)?;
    let most = MOST_DESTINATIONS as usize;
    count(
        found,
        subject,
        "destinations",
        1,
        most,
        channel.destinations.len(),
    )
}
