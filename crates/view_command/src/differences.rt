//! Differences as text.

ghost use Rattle.std.specs.Prelude.{◌≡◌, ◌++◌, IfOk, OnOk};
ghost use Rattle.view_command.specs.DifferenceTexts as text;

use apex_types::{Event, Name};
use std::alloc::Global;
use trace_lines::{Difference, Rest, line_of};
use trace_stays::MemoryFull;

/// The text of all differences.
///
/// # Errors
///
/// Memory ran out.
#[tactic(auto, using(std::proofs::lemmas::List::drop_more))]
pub fn report(alloc: Global, differences: &[Difference]) -> Result<Vec<u8>, MemoryFull>
    ensures { IfOk result (λ report. report.items ≡ text.report differences.now) }
{
    let mut report = Vec::new(alloc);
    for difference in differences {
        push_difference(alloc, difference, &mut report)?;
    }
    Ok(report)
}

/// Adds the first difference of a partition: the lines before it, the first line that only one
/// trace has there, or only the other, and how many there are from then on.
fn push_difference(
    alloc: Global,
    difference: &Difference,
    out: &mut Vec<u8>,
) -> Result<(), MemoryFull>
    ensures { OnOk result (out.new.items ≡ out.old.items ++ text.difference difference.now) }
{
    let tick = tick_of(&difference.first, &difference.second);
    push_heading(alloc, &difference.partition, tick, out)?;
    push_before(alloc, difference.before.as_slice(), out)?;
    push_rest(alloc, "- ", &difference.first, out)?;
    push_rest(alloc, "+ ", &difference.second, out)?;
    push_numbers(alloc, difference.first.lines, difference.second.lines, out)
}

fn push_heading(
    alloc: Global,
    partition: &Option<Name>,
    tick: u64,
    out: &mut Vec<u8>,
) -> Result<(), MemoryFull>
    ensures { OnOk result (out.new.items ≡ out.old.items ++ text.heading partition.now tick) }
{
    let heading = match partition {
        Some(name) => format!(in alloc;
            "partition {} differs from tick {tick} on\n",
            name.as_str()
        )?,
        None => format!(in alloc; "the module differs from tick {tick} on\n")?,
    };
    out.extend_from_slice(heading.as_bytes())?;
    Ok(())
}

/// The tick of the difference: that of the earlier of the two lines.
fn tick_of(first: &Rest, second: &Rest) -> u64
    ensures { result ≡ text.tick_of first.now.line second.now.line }
{
    match (&first.line, &second.line) {
        (Some(one), Some(other)) => one.tick.0.min(other.tick.0),
        (Some(line), None) | (None, Some(line)) => line.tick.0,
        (None, None) => 0,
    }
}

/// Adds the lines that both traces have before it, of which the latest is the first here.
fn push_before(alloc: Global, lines: &[Event], out: &mut Vec<u8>) -> Result<(), MemoryFull>
    ensures { OnOk result (out.new.items ≡ out.old.items ++ text.before lines.now) }
{
    match lines.split_first() {
        Some((latest, earlier)) => {
            push_before(alloc, earlier, out)?;
            push_line(alloc, "  ", latest, out)
        }
        None => Ok(()),
    }
}

fn push_rest(alloc: Global, front: &str, rest: &Rest, out: &mut Vec<u8>) -> Result<(), MemoryFull>
    ensures { OnOk result (out.new.items ≡ out.old.items ++ text.rest front.now rest.now.line) }
{
    match &rest.line {
        Some(line) => push_line(alloc, front, line, out),
        None => {
            out.extend_from_slice(front.as_bytes())?;
            out.extend_from_slice(b"no more lines\n")?;
            Ok(())
        }
    }
}

/// Adds how many lines each trace has from then on.
fn push_numbers(alloc: Global, first: u64, second: u64, out: &mut Vec<u8>) -> Result<(), MemoryFull>
    ensures { OnOk result (out.new.items ≡ out.old.items ++ text.numbers first second) }
{
    let numbers = format!(in alloc;
        "  lines from there on: {first} in the first trace, {second} in the second\n"
    )?;
    out.extend_from_slice(numbers.as_bytes())?;
    Ok(())
}

fn push_line(alloc: Global, front: &str, event: &Event, out: &mut Vec<u8>) -> Result<(), MemoryFull>
    ensures { OnOk result (out.new.items ≡ out.old.items ++ text.line front.now event.now) }
{
    let line = line_of(alloc, event)?;
    out.extend_from_slice(front.as_bytes())?;
    out.extend_from_slice(line.as_slice())?;
    Ok(())
}
