//! Two traces are read to their ends, and compared.

ghost use Rattle.std.specs.Prelude.{◌≡◌, ◌⊎◌, ℕ, ◌-◌, ◌^◌, ◌<◌, ◌≤◌, List, [], IfErr, IfOk, None, OnOk, string_bytes};
ghost use Rattle.apex_types.specs.declared.event.Event.{Event};
ghost use Rattle.streams.specs.States.{IsFlushed, seen};
ghost use Rattle.trace_lines.specs.Comparisons.{AreParts};
ghost use Rattle.trace_lines.specs.Parts.{first_with, second_with};
ghost use Rattle.view_command.specs.Answers.{IsRefused, IsTableRefused, IsUnread};
ghost use Rattle.view_command.specs.Compared.{AreCompared, AreToldIn, IsInOrder, asked, first_behind, second_behind, tick_behind};
ghost use Rattle.view_command.specs.Differences.{earlier};
ghost use Rattle.view_command.specs.States.{state};
ghost use Rattle.view_command.specs.Orders.{asked_text};
ghost use Rattle.view_command.specs.Texts.{IsTableAsked, IsTraceIn};

use crate::differences::report;
use crate::naming::Names;
use crate::opening::{Opened, open_text};
use crate::refusal::Refusal;
use crate::showing::of_stream;
use crate::views::Outcome;
use crate::windows::table_asked;
use apex_types::Event;
use std::alloc::Global;
use std::io::Read;
use streams::{Sources, Stream, write_bytes};
use trace_lines::{Comparison, Side, is_of_partition};
use trace_stays::MemoryFull;
use trace_text::TraceStream;
use window_table::ModuleTable;

/// No text has more lines.
const MOST_LINES: u64 = u64::MAX - 1;

/// The traces to compare.
#[derive(Drop)]
pub struct Pair {
    pub first: String,
    pub second: String,
    /// The partition whose lines are compared; without one, each is for itself.
    pub partition: Option<String>,
    /// The name of the module table, whose partitions are names too, if one is asked for.
    pub table: Option<String>,
}

/// Compares two traces, with the names of the module table if one is asked for.
pub fn compare_asked<F: Sources, O: Stream>(
    alloc: Global,
    pair: &Pair,
    sources: &mut F,
    out: &mut O,
) -> Result<Outcome, Refusal>
    requires { O.failures out.old < 2 ^ 64 - 1 }
    ensures told { IfOk result
        (AreToldIn (F.texts sources.old) (string_bytes pair.now.first)
        (string_bytes pair.now.second) pair.now.partition) }
    ensures first { OnOk result
        (IsTraceIn (F.texts sources.old) None (string_bytes pair.now.first)) }
    ensures second { OnOk result
        (IsTraceIn (F.texts sources.old) None (string_bytes pair.now.second)) }
    ensures table { OnOk result (IsTableAsked (F.texts sources.old) (asked_text pair.now.table)) }
    ensures opened { OnOk result (F.unopened sources.new ≡ F.unopened sources.old) }
    ensures flushed { OnOk result
        (IsFlushed (seen O.taken O.failures O.is_flushed out.old)
        (seen O.taken O.failures O.is_flushed out.new)) }
    ensures refused { IfErr result
        (λ r. IsRefused (F.texts sources.old) None (string_bytes pair.now.first)
        (state (F.unopened sources.old) (seen O.taken O.failures O.is_flushed out.old))
        (state (F.unopened sources.new) (seen O.taken O.failures O.is_flushed out.new)) r
        ⊎ IsRefused (F.texts sources.old) None (string_bytes pair.now.second)
        (state (F.unopened sources.old) (seen O.taken O.failures O.is_flushed out.old))
        (state (F.unopened sources.new) (seen O.taken O.failures O.is_flushed out.new)) r
        ⊎ IsTableRefused (F.texts sources.old) (asked_text pair.now.table)
        (state (F.unopened sources.old) (seen O.taken O.failures O.is_flushed out.old))
        (state (F.unopened sources.new) (seen O.taken O.failures O.is_flushed out.new)) r) }
{
    let table = table_asked(alloc, &pair.table, sources)?;
    compare(alloc, pair, &table, sources, out)
}

/// Reads both traces to their ends, and then writes where they differ first.
fn compare<F: Sources, O: Stream>(
    alloc: Global,
    pair: &Pair,
    table: &Option<ModuleTable>,
    sources: &mut F,
    out: &mut O,
) -> Result<Outcome, Refusal>
    requires { O.failures out.old < 2 ^ 64 - 1 }
    ensures told { IfOk result
        (AreToldIn (F.texts sources.old) (string_bytes pair.now.first)
        (string_bytes pair.now.second) pair.now.partition) }
    ensures first { OnOk result
        (IsTraceIn (F.texts sources.old) None (string_bytes pair.now.first)) }
    ensures second { OnOk result
        (IsTraceIn (F.texts sources.old) None (string_bytes pair.now.second)) }
    ensures opened { OnOk result (F.unopened sources.new ≡ F.unopened sources.old) }
    ensures flushed { OnOk result
        (IsFlushed (seen O.taken O.failures O.is_flushed out.old)
        (seen O.taken O.failures O.is_flushed out.new)) }
    ensures refused { IfErr result
        (λ r. IsRefused (F.texts sources.old) None (string_bytes pair.now.first)
        (state (F.unopened sources.old) (seen O.taken O.failures O.is_flushed out.old))
        (state (F.unopened sources.new) (seen O.taken O.failures O.is_flushed out.new)) r
        ⊎ IsRefused (F.texts sources.old) None (string_bytes pair.now.second)
        (state (F.unopened sources.old) (seen O.taken O.failures O.is_flushed out.old))
        (state (F.unopened sources.new) (seen O.taken O.failures O.is_flushed out.new)) r) }
{
    let first = pair.first.as_str();
    let second = pair.second.as_str();
    let one = open_text(alloc, first, sources)?;
    let other = open_text(alloc, second, sources)?;
    let mut comparison = Comparison::new(alloc);
    let mut names = Names::of_partition(alloc, &pair.partition, table)?;
    read_both(
        alloc,
        one,
        other,
        &pair.partition,
        &mut comparison,
        &mut names,
    )?;
    if let Some(line) = names.unknown(alloc)? {
        return Err(Refusal::Unknown(line));
    }
    let differences = comparison.finish()?;
    let text = report(alloc, differences.as_slice())?;
    write_bytes(out, text.as_slice())?;
    Ok(if differences.is_empty() {
        Outcome::Shown
    } else {
        Outcome::Found
    })
}

/// Reads every line of both traces, in the order of their ticks; of one tick those of the first trace
/// come first.
fn read_both<R: Read + Drop, Q: Read + Drop>(
    alloc: Global,
    one: Opened<R>,
    other: Opened<Q>,
    partition: &Option<String>,
    comparison: &mut Comparison,
    names: &mut Names,
) -> Result<(), Refusal>
    ensures compared { OnOk result
        (AreParts comparison.old.parts.items 0 [] []
        → AreCompared (R.remaining one.reader) (Q.remaining other.reader) partition.now
        comparison.new.parts.items) }
    ensures refused { IfErr result
        (λ r. IsUnread (R.remaining one.reader) None (string_bytes one.name) r
        ⊎ IsUnread (Q.remaining other.reader) None (string_bytes other.name) r) }
{
    let Opened { name, reader } = one;
    let Opened {
        name: other_name,
        reader: other_reader,
    } = other;
    let mut stream = match TraceStream::new(alloc, reader) {
        Ok(stream) => stream,
        Err(_) => return Err(Refusal::Memory),
    };
    let mut other_stream = match TraceStream::new(alloc, other_reader) {
        Ok(stream) => stream,
        Err(_) => return Err(Refusal::Memory),
    };
    let mut line = match stream.next_event() {
        Ok(event) => event,
        Err(fault) => return Err(of_stream(name, fault)),
    };
    let mut other_line = match other_stream.next_event() {
        Ok(event) => event,
        Err(fault) => return Err(of_stream(other_name, fault)),
    };
    for _ in 0..MOST_LINES {
        match earlier(&line, &other_line) {
            Some(Side::First) => {
                take(comparison, Side::First, line, partition, names)?;
                line = match stream.next_event() {
                    Ok(event) => event,
                    Err(fault) => return Err(of_stream(name, fault)),
                };
            }
            Some(Side::Second) => {
                take(comparison, Side::Second, other_line, partition, names)?;
                other_line = match other_stream.next_event() {
                    Ok(event) => event,
                    Err(fault) => return Err(of_stream(other_name, fault)),
                };
            }
            None => return Ok(()),
        }
    }
    Err(Refusal::Read(name))
}

/// The trace whose next line is read first; none if both are at their ends.
fn earlier(one: &Option<Event>, other: &Option<Event>) -> Option<Side>
    ensures { result ≡ earlier one.now other.now }
{
    match (one, other) {
        (Some(one), Some(other)) => {
            if other.tick.0 < one.tick.0 {
                Some(Side::Second)
            } else {
                Some(Side::First)
            }
        }
        (Some(_), None) => Some(Side::First),
        (None, Some(_)) => Some(Side::Second),
        (None, None) => None,
    }
}

/// Compares the line of a trace that is read first, if there is one.
fn take(
    comparison: &mut Comparison,
    side: Side,
    event: Option<Event>,
    partition: &Option<String>,
    names: &mut Names,
) -> Result<(), MemoryFull>
    ensures { OnOk result
        ((now : ℕ) (a b : List Event)
        → AreParts comparison.old.parts.items now (asked partition.now a) (asked partition.now b)
        → IsInOrder now event
        → AreParts comparison.new.parts.items (tick_behind now event)
        (asked partition.now (first_behind side event a))
        (asked partition.now (second_behind side event b))) }
{
    match event {
        Some(event) => {
            names.see(&event)?;
            take_line(comparison, side, event, partition)
        }
        None => Ok(()),
    }
}

/// Compares a line, if it is of the partition that is asked for.
#[tactic(auto, using(crate::proofs::Compared::one_asked, crate::proofs::Compared::one_other))]
fn take_line(
    comparison: &mut Comparison,
    side: Side,
    event: Event,
    partition: &Option<String>,
) -> Result<(), MemoryFull>
    ensures { OnOk result
        ((now : ℕ) (a b : List Event)
        → AreParts comparison.old.parts.items now (asked partition.now a) (asked partition.now b)
        → now ≤ event.tick.0
        → AreParts comparison.new.parts.items event.tick.0
        (asked partition.now (first_with side event a))
        (asked partition.now (second_with side event b))) }
{
    if is_of_partition(partition, &event.partition) {
        comparison.add(side, event)
    } else {
        Ok(())
    }
}
