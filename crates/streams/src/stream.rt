//! Sinks that keep bytes back.

ghost use Rattle.std.specs.Prelude.{◌≡◌, ◌+◌, ◌-◌, ◌^◌, ◌<◌, Bool, true, OnOk, OnErr, IfSome};
ghost use Rattle.std.specs.Io.KnownBytes.{Appends, Keeps};

use crate::names::Reason;
use apex_types::{Sink, SinkFault};
use std::fmt::Display;

/// A sink that may keep bytes back until it is flushed.
pub trait Stream: Sink {
    /// True if all that it took was flushed.
    ghost is_flushed: { Self → Bool };

    /// Puts all of a text. After an error a beginning of it may be out.
    fn put_text<D: Display + Drop>(&mut self, text: D) -> Result<(), SinkFault>
        requires { Self.failures self.old < 2 ^ 64 - 1 }
        ensures bytes { OnOk result
            (IfSome (D.output text) (Appends (Self.taken self.old) (Self.taken self.new))) }
        ensures quiet { OnOk result (Self.failures self.new ≡ Self.failures self.old) }
        ensures failed { OnErr result (Self.failures self.new ≡ Self.failures self.old + 1) };

    /// Passes on all bytes that were kept back.
    fn flush(&mut self) -> Result<(), SinkFault>
        requires { Self.failures self.old < 2 ^ 64 - 1 }
        ensures kept { Keeps (Self.taken self.old) (Self.taken self.new) }
        ensures flushed { OnOk result (is_flushed self.new ≡ true) }
        ensures quiet { OnOk result (Self.failures self.new ≡ Self.failures self.old) }
        ensures failed { OnErr result (Self.failures self.new ≡ Self.failures self.old + 1) };

    /// Why it failed last, as far as the host says.
    fn reason(&self) -> Reason;
}
