//! The destination of the lines of a tick.

ghost use Rattle.std.specs.Prelude.{◌≡◌, ◌<◌, ◌-◌, ◌^◌, false};

use apex_types::{Sink, TraceBuffer, put_all};

/// The buffer for the lines of a step, and the sink that takes them. Once the sink has failed, it
/// gets nothing more.
///
/// So no step fails: it completes its work on the partitions. The caller that made the output asks
/// at the end whether the sink has failed. The buffer is large: it stays in its place, and is
/// borrowed.
#[derive(Drop)]
pub struct Output<'a, S: Sink> {
    pub trace: &'a mut TraceBuffer,
    sink: &'a mut S,
    has_failed: bool,
    ghost healthy: { has_failed ≡ false → S.failures sink.now < 2 ^ 64 - 1 },
}

impl<'a, S: Sink> Output<'a, S> {
    ghost use Rattle.lone_partition.specs.Outputs.{sent_of};
    ghost use Rattle.lone_partition.specs.Sent.{HasSent};

    /// Lines recorded in the buffer go to the sink, which has not failed yet.
    pub fn new(trace: &'a mut TraceBuffer, sink: &'a mut S) -> Self
        requires { S.failures sink.old < 2 ^ 64 - 1 }
        ensures { sent_of S.Sink result
            ≡ record {
              trace = trace.entry.ghost_name;
              sink = sink.entry.ghost_name;
              taken = S.taken sink.old;
              failures = S.failures sink.old;
              failed = false;
            } }
    {
        Output {
            trace,
            sink,
            has_failed: false,
        }
    }

    /// Whether the sink has failed, and so has taken only a prefix of the lines.
    pub fn has_failed(&self) -> bool
        ensures { result ≡ (sent_of S.Sink self.now).failed }
    {
        self.has_failed
    }

    /// Sends the lines in the buffer to the sink, unless it has failed before. They stay in the
    /// buffer until the next step clears it.
    pub fn write(&mut self)
        ensures { HasSent (sent_of S.Sink self.old) (sent_of S.Sink self.new)
            self.old.trace.now.text }
    {
        if self.has_failed {
            return;
        }
        self.has_failed = true;
        if put_all(self.sink, self.trace.text.as_slice()).is_ok() {
            self.has_failed = false;
        }
    }
}
