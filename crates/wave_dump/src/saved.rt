//! A saved view of a dump, for the viewer GTKWave: which variables it shows, and in which order.

use crate::pulse::{Group, PulseLane};
use crate::wires::Wires;
use apex_types::Name;
use std::alloc::{AllocError, Global};
use std::fmt::Write;
use trace_stays::{PartitionLane, ProcessLane, subject_word};

/// How the viewer shows a wire or an event, a text, and a number with a sign.
const BITS: &str = "@28";

const TEXT: &str = "@820";

const NUMBER: &str = "@420";

/// What the viewer takes as the beginning and the end of a group.
const GROUP: &str = "@800200";

const GROUP_END: &str = "@1000200";

/// The groups of pulses, in the order in which the view shows them.
static GROUPS: [Group; 3] = [Group::Messages, Group::Reports, Group::Errors];

/// The saved view of the dump of a trace with these variables, and with the windows of these
/// partitions of a module table; without a table there are none. Each partition is a group.
///
/// # Errors
///
/// Memory ran out.
pub fn saved_view(alloc: Global, wires: &Wires, names: &[Name]) -> Result<String, AllocError> {
    let mut text = String::new(alloc);
    let from = wires.shown.span().from.0;
    text.push_str("[*] A view of a dump of mbview, for GTKWave: gtkwave DUMP VIEW\n")?;
    write!(text, "[timestart] {from}\n")?;
    let partitions = wires.lanes.partitions();
    for (place, lane) in partitions.iter().enumerate() {
        push_partition(place, lane, wires, names, &mut text)?;
    }
    for name in names {
        if !partitions.iter().any(|lane| is_same(&lane.name, name)) {
            push_window_group(name.as_str(), &mut text)?;
        }
    }
    let pulses = wires.pulses.as_slice();
    if pulses.iter().any(|lane| lane.partition.is_none()) {
        begin_group("MODULE", &mut text)?;
        push_pulses("MODULE", None, pulses, &mut text)?;
        end_group("MODULE", &mut text)?;
    }
    Ok(text)
}

fn is_same(one: &Name, other: &Name) -> bool {
    one.as_bytes() == other.as_bytes()
}

fn begin_group(name: &str, text: &mut String) -> Result<(), AllocError> {
    write!(text, "{GROUP}\n-{name}\n")
}

fn end_group(name: &str, text: &mut String) -> Result<(), AllocError> {
    write!(text, "{GROUP_END}\n-{name}\n")
}

fn push_window(name: &str, text: &mut String) -> Result<(), AllocError> {
    write!(text, "{BITS}\n{name}.WINDOW\n")
}

/// Appends the group of a partition that has windows and no line.
fn push_window_group(name: &str, text: &mut String) -> Result<(), AllocError> {
    begin_group(name, text)?;
    push_window(name, text)?;
    end_group(name, text)
}

/// Appends the group of a partition: its windows, its mode, its processes, its pulses.
fn push_partition(
    place: usize,
    lane: &PartitionLane,
    wires: &Wires,
    names: &[Name],
    text: &mut String,
) -> Result<(), AllocError> {
    let name = lane.name.as_str();
    begin_group(name, text)?;
    if names.iter().any(|known| is_same(known, &lane.name)) {
        push_window(name, text)?;
    }
    write!(text, "{TEXT}\n{name}.MODE.MODE\n")?;
    for process in wires.lanes.processes() {
        if process.partition == place {
            push_process(name, process, text)?;
        }
    }
    push_pulses(name, Some(place), wires.pulses.as_slice(), text)?;
    end_group(name, text)
}

/// Appends the state of a process, and when it is RUNNING.
fn push_process(partition: &str, lane: &ProcessLane, text: &mut String) -> Result<(), AllocError> {
    let who = subject_word(&lane.who);
    write!(text, "{TEXT}\n{partition}.{who}.{who}_STATE\n")?;
    write!(text, "{BITS}\n{partition}.{who}.{who}_RUNNING\n")
}

/// Appends the pulses of a partition or, without one, of the module: each event, and the first word
/// of its message. Errors have none.
fn push_pulses(
    scope: &str,
    owner: Option<usize>,
    pulses: &[PulseLane],
    text: &mut String,
) -> Result<(), AllocError> {
    for group in &GROUPS {
        for lane in pulses {
            if lane.is_in(*group, owner) {
                push_pulse(scope, *group, lane, text)?;
            }
        }
    }
    Ok(())
}

fn push_pulse(
    scope: &str,
    group: Group,
    lane: &PulseLane,
    text: &mut String,
) -> Result<(), AllocError> {
    let (word, pulse) = (group.word(), lane.pulse);
    write!(text, "{BITS}\n{scope}.{word}.{pulse}\n")?;
    if group != Group::Errors {
        write!(text, "{NUMBER}\n{scope}.{word}.{pulse}_WORD[63:0]\n")?;
    }
    Ok(())
}
