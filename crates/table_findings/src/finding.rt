//! A finding: where a rule is broken, and what was found there.

use crate::fields::Part;
use crate::subject::Subject;
use crate::words::Words;

/// A place where a rule is broken: what it is about, the key there if the place is one of a key, and
/// what was found.
#[derive(Clone, Copy)]
pub struct Finding<'a> {
    pub subject: Subject<'a>,
    pub key: Option<&'a str>,
    pub what: What<'a>,
}

/// What was found.
#[derive(Clone, Copy)]
pub enum What<'a> {
    /// The subject lacks this key of this part.
    Missing(&'static str, Part),
    /// The key is none of this part.
    Unknown(Part),
    /// The value is of another type than the wanted one.
    OtherType {
        wanted: &'static str,
        found: &'static str,
    },
    /// The text is none of these words.
    NoWord {
        text: &'a str,
        words: Words,
    },
    /// A number is not between two limits.
    Outside {
        number: i64,
        low: i64,
        high: i64,
    },
    /// There are too few or too many.
    Count {
        number: usize,
        low: usize,
        high: usize,
    },
    /// The text is no name.
    NoName(&'a str),
    /// A number is below its limit.
    Below {
        number: i64,
        low: i64,
    },
    /// The name of the row at this place of the list, too.
    SameName {
        name: &'a str,
        earlier: usize,
    },
    /// The text is no partition of the table. The nearest name of one may be known.
    NoPartition {
        text: &'a str,
        near: Option<&'a str>,
    },
    /// The text is neither a port of the table nor `DEVICE`.
    NoEnd(&'a str),
    /// The port that the text names is no source, or it is one where a destination is wanted.
    WrongDirection {
        text: &'a str,
        as_source: bool,
    },
    /// Its port is of another kind than that of this text.
    OtherKind(&'a str),
    /// Its port takes another number of words than that of this text.
    OtherWords {
        words: i64,
        other: &'a str,
        other_words: i64,
    },
    /// A destination is in the partition of the source.
    SamePartition,
    /// The channel has `DEVICE` before.
    DeviceTwice,
    /// A channel of queuing ports has this number of destinations.
    SplitQueue(usize),
    /// The text is at an earlier end, too.
    PortTwice(&'a str),
    /// A window begins before the end of the one before it, which is this many ticks from the
    /// beginning of the frame.
    Overlaps {
        begin: i64,
        before: i128,
    },
    /// A window ends past the frame.
    PastFrame {
        end: i128,
        frame: i64,
    },
    /// The frame is no multiple of the partition's period.
    OddPeriod {
        period: u64,
        frame: u64,
    },
    /// In the period of a partition that begins `from` ticks after the beginning of the frame its
    /// windows offer less ticks than are wanted.
    Short {
        from: u128,
        offered: u128,
        wanted: u64,
    },
    /// The partition has no release window.
    NoRelease,
}
