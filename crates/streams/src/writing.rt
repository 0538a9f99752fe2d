//! Texts that are written to a stream and flushed.

ghost use Rattle.std.specs.Prelude.{◌-◌, ◌^◌, ◌<◌, ◌++◌, ◌∷◌, [], OnOk, OnErr, IfSome};
ghost use Rattle.std.specs.Io.KnownBytes.{Appends};
ghost use Rattle.streams.specs.States.{HasFailed, IsFlushed, IsWritten, TakesLine, TakesText, seen};

use crate::stream::Stream;
use apex_types::{SinkFault, put_all};
use std::fmt::Display;

/// Writes a text, and flushes it. After an error a beginning of it may be out.
pub fn write_text<S: Stream, D: Display + Drop>(stream: &mut S, text: D) -> Result<(), SinkFault>
    requires { S.failures stream.old < 2 ^ 64 - 1 }
    ensures bytes { OnOk result
        (IfSome (D.output text) (Appends (S.taken stream.old) (S.taken stream.new))) }
    ensures flushed { OnOk result
        (IsFlushed (seen S.taken S.failures S.is_flushed stream.old)
        (seen S.taken S.failures S.is_flushed stream.new)) }
    ensures failed { OnErr result
        (HasFailed (seen S.taken S.failures S.is_flushed stream.old)
        (seen S.taken S.failures S.is_flushed stream.new)) }
{
    stream.put_text(text)?;
    stream.flush()
}

/// Writes a line, and flushes it. After an error a beginning of it may be out.
pub fn write_line<S: Stream, D: Display + Drop>(stream: &mut S, line: D) -> Result<(), SinkFault>
    requires { S.failures stream.old < 2 ^ 64 - 1 }
    ensures bytes { OnOk result
        (IfSome (D.output line)
        (λ text. Appends (S.taken stream.old) (S.taken stream.new) (text ++ 10 ∷ []))) }
    ensures flushed { OnOk result
        (IsFlushed (seen S.taken S.failures S.is_flushed stream.old)
        (seen S.taken S.failures S.is_flushed stream.new)) }
    ensures failed { OnErr result
        (HasFailed (seen S.taken S.failures S.is_flushed stream.old)
        (seen S.taken S.failures S.is_flushed stream.new)) }
{
    stream.put_text(line)?;
    put_all(stream, b"\n")?;
    stream.flush()
}

/// Writes bytes, and flushes them. After an error a beginning of them may be out.
pub fn write_bytes<S: Stream>(stream: &mut S, bytes: &[u8]) -> Result<(), SinkFault>
    requires { S.failures stream.old < 2 ^ 64 - 1 }
    ensures bytes { OnOk result (Appends (S.taken stream.old) (S.taken stream.new) bytes.now) }
    ensures flushed { OnOk result
        (IsFlushed (seen S.taken S.failures S.is_flushed stream.old)
        (seen S.taken S.failures S.is_flushed stream.new)) }
    ensures failed { OnErr result
        (HasFailed (seen S.taken S.failures S.is_flushed stream.old)
        (seen S.taken S.failures S.is_flushed stream.new)) }
{
    put_all(stream, bytes)?;
    stream.flush()
}

/// Writes a text as far as the stream takes it.
pub fn tell_text<S: Stream, D: Display + Drop>(stream: &mut S, text: D)
    requires { S.failures stream.old < 2 ^ 64 - 1 }
    ensures text { IfSome (D.output text)
        (TakesText (seen S.taken S.failures S.is_flushed stream.old)
        (seen S.taken S.failures S.is_flushed stream.new)) }
    ensures written { IsWritten (seen S.taken S.failures S.is_flushed stream.old)
        (seen S.taken S.failures S.is_flushed stream.new) }
{
    // Text that the stream does not take is lost without a report.
    let _ = write_text(stream, text);
}

/// Writes a line as far as the stream takes it.
pub fn tell_line<S: Stream, D: Display + Drop>(stream: &mut S, line: D)
    requires { S.failures stream.old < 2 ^ 64 - 1 }
    ensures { IfSome (D.output line)
        (TakesLine (seen S.taken S.failures S.is_flushed stream.old)
        (seen S.taken S.failures S.is_flushed stream.new)) }
{
    // A line that the stream does not take is lost without a report.
    let _ = write_line(stream, line);
}
