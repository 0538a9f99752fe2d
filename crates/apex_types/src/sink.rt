//! The destination of a trace.

ghost use Rattle.std.specs.Prelude.{◌≡◌, ℕ, ◌+◌, ◌-◌, ◌^◌, ◌<◌, List, Option, OnErr, OnOk};
ghost use Rattle.std.specs.Io.{WritesAtMost};
ghost use Rattle.std.specs.Io.KnownBytes.{Appends, WriteAppends};
ghost use Rattle.apex_types.specs.Line.{TakesBeginning};
ghost use Rattle.apex_types.specs.Sink.{failures_of};

use std::io::Write;

/// The sink did not take the bytes.
#[derive(Clone, Copy)]
pub struct SinkFault;

/// A destination for bytes. It takes a prefix of the bytes offered, or fails and takes none; taking
/// none of a nonempty offer counts as a failure too.
pub trait Sink {
    /// The bytes taken so far, if the sink makes them known.
    ghost taken: { Self → Option (List ℕ) };
    /// The number of failures so far.
    ghost failures: { Self → ℕ };
    /// Returns how many of the bytes were taken.
    fn put(&mut self, bytes: &[u8]) -> Result<usize, SinkFault>
        requires { failures self.old < 2 ^ 64 - 1 }
        ensures bound { WritesAtMost result bytes.now }
        ensures bytes { WriteAppends (taken self.old) (taken self.new) result bytes.now }
        ensures count { failures self.new ≡ failures self.old + failures_of result bytes.now };
}

/// A writer as a sink, with a count of its failures.
#[derive(Drop)]
pub struct WriterSink<W: Write> {
    pub writer: W,
    failures: u64,
}

impl<W: Write> WriterSink<W> {
    /// A sink over the writer, without a failure so far.
    pub fn new(writer: W) -> Self
        ensures writer { result.writer ≡ writer }
        ensures failures { result.failures ≡ 0 }
    {
        WriterSink {
            writer,
            failures: 0,
        }
    }

    /// The number of failures so far.
    pub fn failures(&self) -> u64
        ensures { result ≡ self.now.failures }
    {
        self.failures
    }
}

impl<W: Write> Sink for WriterSink<W> {
    ghost taken = { λ s. W.contents s.writer };

    ghost failures = { λ s. s.failures };

    fn put(&mut self, bytes: &[u8]) -> Result<usize, SinkFault> {
        match self.writer.write(bytes) {
            Ok(count) => {
                if count == 0 && !bytes.is_empty() {
                    self.failures += 1;
                }
                Ok(count)
            }
            Err(_) => {
                self.failures += 1;
                Err(SinkFault)
            }
        }
    }
}

/// Writes all of the bytes, in several calls if the sink takes fewer. Fails only if the sink fails;
/// then a prefix of the bytes is out.
pub fn put_all<S: Sink>(sink: &mut S, bytes: &[u8]) -> Result<(), SinkFault>
    requires { S.failures sink.old < 2 ^ 64 - 1 }
    ensures ok { OnOk result (Appends (S.taken sink.old) (S.taken sink.new) bytes.now) }
    ensures quiet { OnOk result (S.failures sink.new ≡ S.failures sink.old) }
    ensures failed { OnErr result (S.failures sink.new ≡ S.failures sink.old + 1) }
    ensures beginning { OnErr result
        (TakesBeginning (S.taken sink.old) (S.taken sink.new) bytes.now) }
{
    let mut done = 0usize;
    while done < bytes.len() {
        let (_, rest) = bytes.split_at(done);
        match sink.put(rest) {
            Ok(0) => return Err(SinkFault),
            Ok(count) => done += count,
            Err(fault) => return Err(fault),
        }
    }
    Ok(())
}
