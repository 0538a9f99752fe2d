//! The sinks of the traces.

ghost use Rattle.std.specs.Prelude.{◌≡◌, None};

use apex_types::{Sink, SinkFault};

/// How a sink takes bytes, and how it fails.
pub struct Way {
    pub name: &'static str,
    /// The most bytes that it takes in a call.
    pub most: usize,
    /// True if it fails by taking nothing, and not by an error.
    pub is_stalling: bool,
    /// True if it fails only once, and takes all bytes after that.
    pub is_recovering: bool,
}

/// Takes all that is offered.
static WIDE: Way = Way {
    name: "all",
    most: usize::MAX,
    is_stalling: false,
    is_recovering: false,
};

/// Compares what it takes with the wanted text. It takes `room` bytes in all, and at most
/// `way.most` bytes a call. Then it fails.
#[derive(Drop)]
pub struct Narrow<'a> {
    wanted: &'a [u8],
    way: &'a Way,
    room: usize,
    pub taken: usize,
    differs: bool,
    pub failures: u64,
}

impl<'a> Narrow<'a> {
    /// A sink that has taken nothing and has not failed.
    pub fn new(wanted: &'a [u8], room: usize, way: &'a Way) -> Self
        ensures { result.failures ≡ 0 }
    {
        Narrow {
            wanted,
            way,
            room,
            taken: 0,
            differs: false,
            failures: 0,
        }
    }

    /// A sink that takes all that is offered.
    pub fn wide(wanted: &'a [u8]) -> Self
        ensures { result.failures ≡ 0 }
    {
        Narrow::new(wanted, usize::MAX, &WIDE)
    }

    /// Returns true if it has taken `length` bytes, and they begin the text.
    pub fn has_beginning(&self, length: usize) -> bool {
        self.taken == length && !self.differs
    }

    /// Returns true if it has taken the text.
    pub fn has_all(&self) -> bool {
        self.has_beginning(self.wanted.len())
    }
}

impl<'a> Sink for Narrow<'a> {
    ghost taken = { λ _. None };

    ghost failures = { λ s. s.failures };

    fn put(&mut self, bytes: &[u8]) -> Result<usize, SinkFault> {
        if bytes.is_empty() {
            return Ok(0);
        }
        let left = self.room.saturating_sub(self.taken);
        let count = bytes.len().min(self.way.most).min(left);
        if count == 0 {
            self.failures += 1;
            if self.way.is_recovering {
                self.room = usize::MAX;
            }
            return if self.way.is_stalling {
                Ok(0)
            } else {
                Err(SinkFault)
            };
        }
        let (front, _) = bytes.split_at(count);
        let is_wanted = match self.wanted.get(self.taken..) {
            Some(rest) => rest.starts_with(front),
            None => false,
        };
        self.differs = self.differs || !is_wanted;
        self.taken = self.taken.saturating_add(count);
        Ok(count)
    }
}
