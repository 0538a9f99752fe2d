//! What is wrong with a line of a text.

/// What was found. Texts are parts of the line.
#[derive(Clone, Copy)]
pub enum What<'a> {
    /// The last line has no line feed.
    Unended,
    /// The line ends with a carriage return.
    Carriage,
    /// The line begins with `#`.
    Comment,
    /// The line has no bytes.
    Empty,
    /// A tab is in the line.
    Tab,
    /// A NUL is in the line.
    Nul,
    /// A part of the line has no bytes: two spaces, or one at an end.
    NoPart,
    /// The text is no tick.
    NoTick(&'a [u8]),
    /// Nothing follows the tick.
    NoEvent,
    /// The text is none of the two words that may follow a tick.
    NoKind(&'a [u8]),
    /// No channel or port is named.
    NoReceiver,
    /// The text is no name.
    NoName(&'a [u8]),
    /// The message has no word.
    NoWords,
    /// The text is no word.
    NoWord(&'a [u8]),
    /// The text follows the partition of a fault.
    More(&'a [u8]),
    /// The tick is below that of the line before.
    Early { tick: u64, before: u64 },
    /// The text names no channel or port.
    UnknownReceiver(&'a [u8]),
    /// The channel does not come from the device, or the port is no destination.
    Closed(&'a [u8]),
    /// The text names no partition.
    UnknownPartition(&'a [u8]),
    /// The lines before this line are the most that are allowed.
    TooManyLines,
    /// The message has more words than it may have.
    TooManyWords { words: usize, most: u8 },
}

/// What is wrong, and how many bytes are left at the place where it is.
#[derive(Clone, Copy)]
pub struct Wrong<'a> {
    pub left: usize,
    pub what: What<'a>,
}
