//! The names that a text of inputs may use.

ghost use Rattle.std.specs.Prelude.{◌≡◌};
ghost use Rattle.image_findings.specs.Names.{mark_of};

/// Which text it is.
#[derive(Clone, Copy, PartialEq, Eq)]
pub enum TextKind {
    /// A device text: messages come by channels.
    Devices,
    /// A replay text: messages arrive at the ports of one partition.
    Inputs,
}

/// A channel or a port by its name.
#[derive(Clone, Copy)]
pub struct Receiver<'a> {
    pub name: &'a str,
    /// Whether a text may send it a message: the source of the channel is the device, or the port is
    /// a destination.
    pub is_open: bool,
    /// How many words a message to it may have.
    pub most: u8,
}

/// The names that a text may use: the channels or ports, and the partitions.
#[derive(Drop)]
pub struct Names<'a> {
    pub kind: TextKind,
    pub receivers: Vec<Receiver<'a>>,
    pub partitions: Vec<&'a str>,
}

impl TextKind {
    /// The word before a message.
    pub fn mark(self) -> &'static str
        ensures { result.now ≡ mark_of self }
    {
        match self {
            TextKind::Devices => "MSG",
            TextKind::Inputs => "ARRIVE",
        }
    }
}
