//! A trace that comes from a reader.

ghost use Rattle.std.specs.Prelude.{◌≡◌, ◌≢◌, ◌⊎◌, ◌<◌, ◌≤◌, [], length, true, false, IfOk, IfErr, IfSome, OnErr, OnOk, Ok, Some, None};
ghost use Rattle.std.specs.Io.KnownBytes.{IsAtEnd, Keeps};
ghost use Rattle.apex_types.specs.declared.limits.TheConstants.{MOST_LINE_BYTES};
ghost use Rattle.module_meaning.specs.DeviceText.{pieces_behind_marks};
ghost use Rattle.trace_text.specs.Trace.{CanBeWritten};
ghost use Rattle.trace_text.specs.Stream.{IsStreamFault, NextIn, SeesLine, ahead_bytes, left, next_number};
ghost use Rattle.trace_text.specs.declared.stream.StreamFault.TheVariants as faults;

use crate::ahead::Ahead;
use crate::reader::{TraceFault, TraceReader};
use apex_types::limits::MOST_LINE_BYTES;
use apex_types::{Event, Ticks};
use std::alloc::{AllocError, Global};
use std::io::{self, Read};
use text_lines::split_at;

/// Why a stream gives no event.
#[derive(Debug, Drop)]
pub enum StreamFault {
    /// The line is no line of a trace there.
    Line(TraceFault),
    /// The reader failed.
    Read(io::Error),
    /// There is no memory for the bytes that are read ahead.
    Memory,
}

impl From<AllocError> for StreamFault {
    ghost from_gives = { λ _ fault. fault ≡ faults.Memory };

    fn from(_: AllocError) -> Self {
        StreamFault::Memory
    }
}

impl From<io::Error> for StreamFault {
    ghost from_gives = { λ error fault. fault ≡ faults.Read error };

    fn from(error: io::Error) -> Self {
        StreamFault::Read(error)
    }
}

/// A trace that is read from a reader, line by line. It goes over the bytes once, and holds no more
/// than a few thousand of them, however long the text or a line is.
#[derive(Drop)]
pub struct TraceStream<R> {
    reader: R,
    ahead: Ahead,
    before: Ticks,
    lines: u64,
}

impl<R: Read> TraceStream<R> {
    ghost use Rattle.apex_types.specs.declared.event.Event.{Event};
    ghost use Rattle.trace_text.specs.Trace.{IsNext};

    /// A stream of the events of the lines in the reader. Nothing is read yet.
    ///
    /// # Errors
    ///
    /// There is no memory for the bytes that are to be read ahead. The reader is dropped.
    pub fn new(alloc: Global, reader: R) -> Result<Self, StreamFault>
    where
        R: Drop,
        ensures reader { IfOk result (λ s. s.reader ≡ reader) }
        ensures ahead { IfOk result (λ s. ahead_bytes s.ahead ≡ []) }
        ensures before { IfOk result (λ s. s.before.0 ≡ 0) }
        ensures lines { IfOk result (λ s. s.lines ≡ 0) }
        ensures refused { IfErr result (λ fault. fault ≡ faults.Memory) }
    {
        let ahead = Ahead::new(alloc)?;
        Ok(TraceStream {
            reader,
            ahead,
            before: Ticks(0),
            lines: 0,
        })
    }

    /// The number of lines that were read. The count stops at `u64::MAX`.
    pub fn lines(&self) -> u64
        ensures { result ≡ self.now.lines }
    {
        self.lines
    }

    /// The event of the next line; none at the end of the text. The next line is refused as soon as
    /// more bytes came than any line has.
    ///
    /// # Errors
    ///
    /// The next line is no line of a trace here; or the reader failed. No byte is lost: a refused
    /// line is refused again, and after an error of the reader the next call reads on.
    pub fn next_event(&mut self) -> Result<Option<Event>, StreamFault>
        ensures read { IfOk result
            (λ o. IfSome o
            (λ e.
            NextIn self.old.before.0 (left R.remaining self.old) e (left R.remaining self.new))) }
        ensures moved { IfOk result
            (λ o. IfSome o
            (λ e. (self.new.before ≡ e.tick) × (self.new.lines ≡ next_number self.old.lines))) }
        ensures line { IfOk result
            (λ o. IfSome o (λ e. CanBeWritten e × (self.old.before.0 ≤ e.tick.0))) }
        ensures ended { result ≡ Ok None → IsAtEnd (left R.remaining self.old) }
        ensures kept { (result ≡ Ok None
            → Keeps (left R.remaining self.old) (left R.remaining self.new))
            × OnErr result (Keeps (left R.remaining self.old) (left R.remaining self.new)) }
        ensures stays { (result ≡ Ok None
            → (self.new.before ≡ self.old.before) × (self.new.lines ≡ self.old.lines))
            × OnErr result
            ((self.new.before ≡ self.old.before) × (self.new.lines ≡ self.old.lines)) }
        ensures refused { IfErr result
            (λ fault.
            IsStreamFault self.old.before.0 self.old.lines (left R.remaining self.old) fault) }
    {
        self.look_ahead()?;
        let mut front = TraceReader::behind(self.ahead.as_slice(), self.before);
        let outcome = front.next_event();
        let rest = front.rest().len();
        match outcome {
            Ok(None) => Ok(None),
            Ok(Some(event)) => {
                self.ahead.keep_last(rest);
                self.before = event.tick;
                self.lines = self.lines.saturating_add(1);
                Ok(Some(event))
            }
            Err(_) => Err(StreamFault::Line(TraceFault {
                line: self.lines.saturating_add(1),
            })),
        }
    }

    /// Reads until a line feed is there, or the bytes of the longest line, or no more come.
    fn look_ahead(&mut self) -> io::Result<()>
        ensures kept { Keeps (left R.remaining self.old) (left R.remaining self.new) }
        ensures before { self.new.before ≡ self.old.before }
        ensures lines { self.new.lines ≡ self.old.lines }
        ensures seen { OnOk result
            (SeesLine (ahead_bytes self.new.ahead) (R.remaining self.new.reader)) }
    {
        while !has_line(self.ahead.as_slice()) {
            if self.ahead.read_more(&mut self.reader)? == 0 {
                return Ok(());
            }
        }
        Ok(())
    }
}

/// Returns true if the first line, if it is a line of a trace, ends within `bytes`.
fn has_line(bytes: &[u8]) -> bool
    ensures found { result ≡ true
        → (pieces_behind_marks 10 bytes.now ≢ []) ⊎ (MOST_LINE_BYTES ≤ length bytes.now) }
    ensures short { result ≡ false → length bytes.now < MOST_LINE_BYTES }
{
    let (_, behind) = split_at(b'\n', bytes);
    behind.is_some() || bytes.len() >= MOST_LINE_BYTES
}
