//! Numbers, each with a meaning.

ghost use Rattle.std.specs.Prelude.{◌≡◌, ◌≤◌};
ghost use Rattle.apex_types.specs.Limits.{MOST_TICKS};
ghost use Rattle.apex_types.specs.Places.{place_of_number};

/// A count of processor ticks, or the tick of that number.
#[derive(Clone, Copy, Debug, PartialEq, Eq, PartialOrd, Ord)]
pub struct Ticks(pub u64);

/// A tick of the run, and the tick of the module's last start.
#[derive(Clone, Copy)]
pub struct At {
    pub now: Ticks,
    pub origin: Ticks,
}

/// A tick that a run can have, and the tick of the module's last start, which is not after it.
#[derive(Clone, Copy)]
pub struct Moment {
    pub at: At,
    pub ghost past: { at.origin.0 ≤ at.now.0 },
    pub ghost within: { at.now.0 ≤ MOST_TICKS },
}

/// A partition by its place in the module table, from 1.
#[derive(Clone, Copy, PartialEq, Eq)]
pub struct PartitionId(pub u8);

impl PartitionId {
    /// Its place among the partitions of its module, from 0. No partition has the number 0.
    pub fn place(self) -> Option<u8>
        ensures { result ≡ place_of_number self.0 }
    {
        let PartitionId(number) = self;
        number.checked_sub(1)
    }
}

/// A port by its place among its partition's ports, from 1.
#[derive(Clone, Copy, PartialEq, Eq)]
pub struct PortId(pub u8);

impl PortId {
    /// Its place among its partition's ports, from 0. No port has the number 0.
    pub fn place(self) -> Option<u8>
        ensures { result ≡ place_of_number self.0 }
    {
        let PortId(number) = self;
        number.checked_sub(1)
    }
}

/// A channel by its place in the module table, from 0.
#[derive(Clone, Copy)]
pub struct ChannelIndex(pub u8);

/// A process by its place in its partition's source text, from 0. The number that programs use is
/// one more.
#[derive(Clone, Copy, Default, PartialEq, Eq)]
pub struct ProcessIndex(pub u8);

/// A runner of a partition: its initialisation, its error handler, or a process.
#[derive(Clone, Copy)]
pub enum Runner {
    Init,
    Handler,
    Process(ProcessIndex),
}

impl Runner {
    ghost use Rattle.apex_types.specs.Runners.{place_of};

    /// The index of this runner in the lists of a partition: INIT 0, the handler 1, then the
    /// processes.
    pub fn place(self) -> usize
        ensures { result ≡ place_of self }
    {
        match self {
            Runner::Init => 0,
            Runner::Handler => 1,
            Runner::Process(process) => usize::from(process.0) + 2,
        }
    }
}

/// A waiting list of a partition: that of an object or a port, by its kind and its place from 0.
#[derive(Clone, Copy)]
pub enum ListKey {
    Semaphore(u8),
    Event(u8),
    Buffer(u8),
    Blackboard(u8),
    Port(u8),
}

/// A process priority, 1 to 239; a higher number goes first.
#[derive(Clone, Copy, Default, PartialEq, Eq, PartialOrd, Ord)]
pub struct Priority(pub u8);
