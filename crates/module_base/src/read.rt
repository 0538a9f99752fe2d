//! Reading the lines of a text, one after another, whatever they mean.

ghost use Rattle.std.specs.Prelude.{◌≡◌, ◌<◌, ℕ, Some, Ok, IfOk, IfErr};
ghost use Rattle.module_meaning.specs.DeviceText as meant;
ghost use Rattle.module_meaning.specs.DeviceText.{is_room};
ghost use Rattle.module_base.specs.Refusals.{IsRefusal};
ghost use Rattle.module_base.specs.Seen.{seen, seen_line};
ghost use Rattle.module_base.specs.TextLines.{Taking, line_by, taken_by, verdict_by};

use crate::fault::DeviceTextFault;
use crate::line::{Written, WrittenLine, line_of};
use apex_types::limits::MOST_DEVICE_LINES;
use apex_types::{DeviceFault, Ticks};
use std::alloc::Global;
use text_lines::split_at;

/// The most lines of a text.
const MOST_LINES: usize = MOST_DEVICE_LINES as usize;

/// Knows the names in the lines of a text, and takes each line by them.
pub trait TakesLines {
    /// The result of taking a line.
    type Line: Drop;

    ghost is_readable: { Self → Type 0 };

    ghost named: { Self → Taking Self.Line };

    ghost tick_of: { Self.Line → ℕ };

    /// Takes a line of tick `tick` after `count` others, by the names in it.
    fn take(&self, count: usize, tick: Ticks, written: Written) -> Result<Self::Line, DeviceFault>
        requires { is_readable self.now }
        ensures { (w : meant.Written) → written ≡ seen w → result ≡ named self.now count tick.0 w };

    /// The tick of a line.
    fn tick(line: &Self::Line) -> Ticks
        ensures { result.0 ≡ tick_of line.now };
}

/// The lines of a text whose messages have this mark.
///
/// # Errors
///
/// The fault of the first wrong line, or out of memory.
#[tactic(auto, unfolding(crate::specs::TextLines::verdict_by), using(crate::proofs::Reading::wrong_line, crate::proofs::Reading::right_line, crate::proofs::Reading::no_more, crate::proofs::Reading::no_line_feed))]
pub fn read_lines<T: TakesLines>(
    alloc: Global,
    mark: &[u8],
    taker: &T,
    text: &[u8],
) -> Result<Vec<T::Line>, DeviceTextFault>
    requires { T.is_readable taker.now }
    ensures accepted { IfOk result
        (λ lines. verdict_by mark.now (T.named taker.now) T.tick_of text.now ≡ Ok lines.items) }
    ensures refused { IfErr result
        (λ fault. IsRefusal (verdict_by mark.now (T.named taker.now) T.tick_of text.now) fault) }
{
    let mut lines: Vec<T::Line> = Vec::new(alloc);
    let mut before = Ticks(0);
    let mut rest = text;
    while !rest.is_empty() {
        let (text, Some(behind)) = split_at(b'\n', rest) else {
            return Err(DeviceTextFault::Line(DeviceFault::Form));
        };
        let line = line_at(mark, taker, lines.len(), before, text)?;
        before = T::tick(&line);
        lines.push(line)?;
        rest = behind;
    }
    Ok(lines)
}

/// The line with this text, after `count` lines of which the last has the tick `before`.
fn line_at<T: TakesLines>(
    mark: &[u8],
    taker: &T,
    count: usize,
    before: Ticks,
    text: &[u8],
) -> Result<T::Line, DeviceFault>
    requires { T.is_readable taker.now }
    ensures { result ≡ taken_by (T.named taker.now) count before.0 (line_by mark.now text.now) }
{
    match line_of(mark, text) {
        Some(line) => taken(taker, count, before, line),
        None => Err(DeviceFault::Form),
    }
}

/// The line by the names in it, after `count` lines of which the last has the tick `before`.
fn taken<T: TakesLines>(
    taker: &T,
    count: usize,
    before: Ticks,
    line: WrittenLine,
) -> Result<T::Line, DeviceFault>
    requires { T.is_readable taker.now }
    ensures { (l : meant.WrittenLine) → line ≡ seen_line l
        → result ≡ taken_by (T.named taker.now) count before.0 (Some l) }
{
    let WrittenLine { tick, written } = line;
    if tick < before {
        return Err(DeviceFault::Order);
    }
    taker.take(count, tick, written)
}

/// Whether one more line may follow `count` lines.
pub fn is_room(count: usize) -> bool
    ensures { result ≡ is_room count }
{
    count < MOST_LINES
}
