//! What a finding says, and what it advises. `tests/explanations` holds these texts.

use crate::finding::{Finding, What};
use crate::subject::{Row, Subject};
use finding_lines::{DidYouMean, Shown, nearest};
use std::fmt;

/// What was found, and where.
impl fmt::Display for Finding<'_> {
    fn fmt<W: fmt::Write>(&self, f: &mut fmt::Formatter<W>) -> fmt::Result {
        let about = self.subject;
        let place = Place {
            subject: self.subject,
            key: self.key,
        };
        match self.what {
            What::Missing(lacked, _) => write!(f, "{about} lacks the key `{lacked}`"),
            What::Unknown(_) => {
                let key = Shown(self.key.unwrap_or("").as_bytes());
                write!(f, "{about} has no key `{key}`")
            }
            What::OtherType { wanted, found } => {
                write!(f, "{place} is of the type {found}, not {wanted}")
            }
            What::NoWord { text, .. } => wrong(f, place, text, "none of its words"),
            What::Outside { number, low, high } => {
                write!(f, "{place} is {number}, and has to be {low} to {high}")
            }
            What::Below { number, low } => write!(f, "{place} is {number}, below {low}"),
            What::Count { number, low, high } => write!(
                f,
                "{place} stands for {number} of them, and {low} to {high} are allowed"
            ),
            What::NoName(text) => wrong(f, place, text, "no name"),
            What::SameName { earlier, .. } => {
                let (kind, number) = (kind_of(self.subject), earlier.saturating_add(1));
                write!(f, "{place} is also the name of {kind} {number}")
            }
            What::NoPartition { text, .. } => wrong(f, place, text, "no partition of the table"),
            What::NoEnd(text) => wrong(f, place, text, "neither `DEVICE` nor a port of the table"),
            What::WrongDirection { text, as_source } => {
                let (text, direction) = (Shown(text.as_bytes()), direction_of(as_source));
                write!(
                    f,
                    "{place} is `{text}`, which is no port of the direction {direction}"
                )
            }
            What::OtherKind(other) => {
                let other = Shown(other.as_bytes());
                write!(f, "{place} is of another kind than `{other}`")
            }
            What::OtherWords {
                words,
                other,
                other_words,
            } => {
                let other = Shown(other.as_bytes());
                write!(
                    f,
                    "{place} takes {words} words, and `{other}` takes {other_words}"
                )
            }
            What::SamePartition => write!(f, "{place} is in the partition of the source"),
            What::DeviceTwice => {
                write!(
                    f,
                    "{place} is `DEVICE`, which is an end of the channel before"
                )
            }
            What::SplitQueue(number) => write!(
                f,
                "{place} stands for {number} of them, and a channel of queuing ports has one"
            ),
            What::PortTwice(text) => wrong(f, place, text, "an end before"),
            What::Overlaps { begin, before } => write!(
                f,
                "{about} begins at {begin}, and the window before it ends at {before}"
            ),
            What::PastFrame { end, frame } => {
                write!(f, "{about} ends at {end}, past the frame of {frame}")
            }
            What::OddPeriod { period, frame } => write!(
                f,
                "the frame of {frame} ticks is no multiple of {period}, the period of {about}"
            ),
            What::Short {
                from,
                offered,
                wanted,
            } => write!(
                f,
                "{about} is offered {offered} ticks in its period from {from}, and its duration is {wanted}"
            ),
            What::NoRelease => write!(f, "{about} has no window with `release = true`"),
        }
    }
}

/// That the text at a place is not what it should be.
fn wrong<W: fmt::Write>(
    f: &mut fmt::Formatter<W>,
    place: Place<'_>,
    text: &str,
    why: &str,
) -> fmt::Result {
    let text = Shown(text.as_bytes());
    write!(f, "{place} is `{text}`, which is {why}")
}

/// The word for a direction.
fn direction_of(as_source: bool) -> &'static str {
    if as_source { "SOURCE" } else { "DESTINATION" }
}

/// The kind of a row that shares its name.
fn kind_of(subject: Subject<'_>) -> &'static str {
    match subject {
        Subject::Partition(_) => "partition",
        Subject::Channel(_) => "channel",
        _ => "port",
    }
}

/// A key of a subject, or the subject itself.
#[derive(Clone, Copy)]
struct Place<'a> {
    subject: Subject<'a>,
    key: Option<&'a str>,
}

impl fmt::Display for Place<'_> {
    fn fmt<W: fmt::Write>(&self, f: &mut fmt::Formatter<W>) -> fmt::Result {
        let subject = self.subject;
        match self.key {
            Some(key) => {
                let key = Shown(key.as_bytes());
                write!(f, "`{key}` of {subject}")
            }
            None => write!(f, "{subject}"),
        }
    }
}

/// A finding is about this.
impl fmt::Display for Subject<'_> {
    fn fmt<W: fmt::Write>(&self, f: &mut fmt::Formatter<W>) -> fmt::Result {
        match *self {
            Subject::Module => f.write_str("the table"),
            Subject::Costs => f.write_str("`cost`"),
            Subject::Partition(row) => write!(f, "partition {row}"),
            Subject::Health(row) => write!(f, "`hm` of partition {row}"),
            Subject::Port { port, partition } => write!(f, "port {port} of partition {partition}"),
            Subject::Window(row) => write!(f, "window {row}"),
            Subject::Channel(row) => write!(f, "channel {row}"),
            Subject::Destination(index, row) => {
                let number = index.saturating_add(1);
                write!(f, "destination {number} of channel {row}")
            }
        }
    }
}

/// Its number, counted from 1, and its name, if it has one.
impl fmt::Display for Row<'_> {
    fn fmt<W: fmt::Write>(&self, f: &mut fmt::Formatter<W>) -> fmt::Result {
        let number = self.index.saturating_add(1);
        match self.name {
            None => write!(f, "{number}"),
            Some(name) => {
                let name = Shown(name.as_bytes());
                write!(f, "{number} ({name})")
            }
        }
    }
}

/// What to do about a finding.
#[derive(Clone, Copy)]
pub struct Advice<'a>(pub Finding<'a>);

impl fmt::Display for Advice<'_> {
    fn fmt<W: fmt::Write>(&self, f: &mut fmt::Formatter<W>) -> fmt::Result {
        match self.0.what {
            What::Missing(lacked, part) => {
                let wanted = part.wanted(lacked).unwrap_or("");
                write!(f, "Add it, with a value of the type {wanted}.")
            }
            What::Unknown(part) => choice(f, self.0.key.unwrap_or(""), part.keys()),
            What::OtherType { wanted, .. } => write!(f, "Write a value of the type {wanted}."),
            What::NoWord { text, words } => choice(f, text, words.list()),
            What::Outside { low, high, .. } => write!(f, "Write a number from {low} to {high}."),
            What::Below { low, .. } => write!(f, "Write {low} or more."),
            What::Count { low, high, .. } => write!(f, "Write {low} to {high} of them."),
            What::NoName(_) => f.write_str(
                "A name is a lower-case letter, then lower-case letters, digits or `_`, 1 to 30 characters in all.",
            ),
            What::SameName { .. } => f.write_str("Give it a name of its own."),
            What::NoPartition {
                near: Some(near),
                ..
            } => write!(f, "{}", DidYouMean(near)),
            What::NoPartition { near: None, .. } => {
                f.write_str("Write the name of a partition of the table.")
            }
            What::NoEnd(_) => f.write_str(
                "Write `DEVICE`, or the names of a partition and of one of its ports, as `partition.port`.",
            ),
            What::WrongDirection { as_source, .. } => {
                let direction = direction_of(as_source);
                write!(
                    f,
                    "Name a port of the direction {direction}, or turn the channel around."
                )
            }
            What::OtherKind(_) => f.write_str("All ports of a channel have the same kind."),
            What::OtherWords { .. } => f.write_str("All ports of a channel have the same `words`."),
            What::SamePartition => f.write_str("A channel leads to other partitions."),
            What::DeviceTwice => f.write_str("Name `DEVICE` once."),
            What::SplitQueue(_) => f.write_str("Name one destination."),
            What::PortTwice(_) => f.write_str("Name a port at one end only."),
            What::Overlaps { before, .. } => write!(
                f,
                "Windows stand in the order of the frame: let it begin at {before} or later."
            ),
            What::PastFrame { .. } => f.write_str("Make it shorter, or let it begin earlier."),
            What::OddPeriod { .. } => f.write_str(
                "Choose a period that divides the frame, or a multiple of it as the frame.",
            ),
            What::Short { .. } => {
                f.write_str("Give it longer windows in this period, or a shorter duration.")
            }
            What::NoRelease => f.write_str("Write `release = true` in one of its windows."),
        }
    }
}

/// The nearest of the words that are allowed in place of a word, or all of them.
fn choice<W: fmt::Write>(
    f: &mut fmt::Formatter<W>,
    word: &str,
    words: &[&'static str],
) -> fmt::Result {
    match nearest(word.as_bytes(), words) {
        Some(near) => write!(f, "{}", DidYouMean(near)),
        None => {
            f.write_str("Choose one of ")?;
            for (index, word) in words.iter().enumerate() {
                let comma = if index == 0 { "" } else { ", " };
                write!(f, "{comma}`{word}`")?;
            }
            f.write_str(".")
        }
    }
}
