//! A trace, line by line.

ghost use Rattle.std.specs.Prelude.{◌≡◌, ℕ, ◌+◌, ◌^◌, ◌<◌, List, [], length, IfOk, IfErr, IfSome, Ok, Some, None};

use crate::line::event_of;
use apex_types::{Event, Ticks};
use text_lines::split_at;

/// The first line of a text that is no line of a trace there: it has none of the forms, its tick is
/// below that of the line before, or it has no line feed.
#[derive(Clone, Copy, Debug, PartialEq, Eq)]
pub struct TraceFault {
    /// The number of the line, from 1.
    pub line: u64,
}

/// A trace that is read from its front on. It goes over the text once, and keeps only the place,
/// the tick and the number of the last line.
#[derive(Drop)]
pub struct TraceReader<'a> {
    rest: &'a [u8],
    before: Ticks,
    lines: u64,
    ghost counted: { lines + length rest.now < 2 ^ 64 },
}

impl<'a> TraceReader<'a> {
    ghost use Rattle.apex_types.specs.declared.event.Event.{Event};
    ghost use Rattle.trace_text.specs.Trace.{IsNext};

    /// A reader at the front of a text.
    pub fn new(text: &'a [u8]) -> Self
        ensures rest { result.rest.now ≡ text.now }
        ensures before { result.before.0 ≡ 0 }
        ensures lines { result.lines ≡ 0 }
    {
        Self::behind(text, Ticks(0))
    }

    /// A reader of what follows a line of that tick.
    pub(crate) fn behind(text: &'a [u8], before: Ticks) -> Self
        ensures rest { result.rest.now ≡ text.now }
        ensures before { result.before ≡ before }
        ensures lines { result.lines ≡ 0 }
    {
        TraceReader {
            rest: text,
            before,
            lines: 0,
        }
    }

    /// The text that was not read yet.
    pub(crate) fn rest(&self) -> &'a [u8]
        ensures { result.now ≡ self.now.rest.now }
    {
        self.rest
    }

    /// The number of lines that were read.
    pub fn lines(&self) -> u64
        ensures { result ≡ self.now.lines }
    {
        self.lines
    }

    /// The event of the next line; none at the end of the text.
    ///
    /// # Errors
    ///
    /// The next line is no line of a trace here. The reader stays where it is, so the next call
    /// fails in the same way.
    pub fn next_event(&mut self) -> Result<Option<Event>, TraceFault>
        ensures read { IfOk result
            (λ o. IfSome o (λ e. IsNext self.old.before.0 self.old.rest.now e self.new.rest.now)) }
        ensures moved { IfOk result
            (λ o.
            IfSome o (λ e. (self.new.before ≡ e.tick) × (self.new.lines ≡ self.old.lines + 1))) }
        ensures ended { result ≡ Ok None → (self.old.rest.now ≡ []) × (self.new ≡ self.old) }
        ensures refused { IfErr result
            (λ fault. (fault.line ≡ self.old.lines + 1) × (0 < length self.old.rest.now)
            × (self.new ≡ self.old)) }
        ensures read_back { (e : Event) (rest : List ℕ)
            → IsNext self.old.before.0 self.old.rest.now e rest → result ≡ Ok (Some e) }
    {
        if self.rest.is_empty() {
            return Ok(None);
        }
        let fault = TraceFault {
            line: self.lines + 1,
        };
        let (body, behind) = split_at(b'\n', self.rest);
        let Some(rest) = behind else {
            return Err(fault);
        };
        let Some(event) = event_of(body) else {
            return Err(fault);
        };
        if event.tick.0 < self.before.0 {
            return Err(fault);
        }
        self.rest = rest;
        self.before = event.tick;
        self.lines += 1;
        Ok(Some(event))
    }
}
