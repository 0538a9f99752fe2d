//! Traces from readers that give their bytes in pieces, or never end.

use apex_types::{Event, WriterSink, write_event};
use std::alloc::Global;
use std::io::{self, ErrorKind, Read};
use trace_text::{StreamFault, TraceFault, TraceStream};

/// Gives at most `most` bytes a read. Each read is interrupted once before.
#[derive(Drop)]
struct Slow<'a> {
    rest: &'a [u8],
    most: usize,
    interrupted: bool,
}

impl<'a> Read for Slow<'a> {
    fn read(&mut self, buf: &mut [u8]) -> io::Result<usize> {
        self.interrupted = !self.interrupted;
        if self.interrupted {
            return Err(ErrorKind::Interrupted.into());
        }
        let most = self.most.min(buf.len());
        self.rest.read(&mut buf[..most])
    }
}

/// Gives this byte for ever, and counts how many it gave.
#[derive(Drop)]
struct Endless<'a> {
    byte: u8,
    given: &'a mut usize,
}

impl<'a> Read for Endless<'a> {
    fn read(&mut self, buf: &mut [u8]) -> io::Result<usize> {
        buf.fill(self.byte);
        *self.given = self.given.saturating_add(buf.len());
        Ok(buf.len())
    }
}

/// A trace.
const TRACE: &str = "0000000000000 a MODE COLD_START
0000000000000 a STATE INIT READY
0000000000005 a ARRIVE q 1
0000000000005 a OUT c 0 -1 9223372036854775807 -9223372036854775808 4 5 6 7 8 9 10 11 12 13 14 15
0000000000006 a LOST q 4
";

/// Prints whether streams give what the text has, however few bytes a read gives, and what they
/// return for a text that has no lines and never ends.
pub fn tell(rt: &HostRuntime) -> Option<()> {
    for most in [1, 2, 7, 64, 10_000] {
        tell_slow(rt, most)?;
    }
    tell_endless(rt)
}

fn tell_slow(rt: &HostRuntime, most: usize) -> Option<()> {
    let slow = Slow {
        rest: TRACE.as_bytes(),
        most,
        interrupted: false,
    };
    let lines = streamed(rt.alloc(), slow)?;
    let is_whole = lines.as_slice() == TRACE.as_bytes();
    println!(rt; "{most} bytes a read: whole {is_whole}").ok()
}

/// The lines of the events that a stream gives.
fn streamed<R: Read + Drop>(alloc: Global, reader: R) -> Option<Vec<u8>> {
    let mut stream = TraceStream::new(alloc, reader).ok()?;
    let mut lines = Vec::new(alloc);
    for _ in 0..TRACE.len() {
        match stream.next_event().ok()? {
            Some(event) => lines
                .extend_from_slice(line_of(alloc, &event).as_slice())
                .ok()?,
            None => break,
        }
    }
    Some(lines)
}

/// The line of an event; a beginning of it, if memory runs out.
fn line_of(alloc: Global, event: &Event) -> Vec<u8> {
    let mut sink = WriterSink::new(Vec::new(alloc));
    let _ = write_event(event, &mut sink);
    sink.writer
}

/// The text is refused soon, and then again.
fn tell_endless(rt: &HostRuntime) -> Option<()> {
    let mut given = 0;
    let is_refused = is_refused_twice(
        rt.alloc(),
        Endless {
            byte: b'0',
            given: &mut given,
        },
    )?;
    let is_soon = given < 10_000;
    println!(rt; "zeros for ever: refused in line 1 {is_refused}, soon {is_soon}").ok()
}

fn is_refused_twice<R: Read + Drop>(alloc: Global, reader: R) -> Option<bool> {
    let mut stream = TraceStream::new(alloc, reader).ok()?;
    let first = is_first_line(stream.next_event());
    Some(first && is_first_line(stream.next_event()))
}

fn is_first_line(read: Result<Option<Event>, StreamFault>) -> bool {
    matches!(read, Err(StreamFault::Line(TraceFault { line: 1 })))
}
