//! What is said of a wrong line, and what is advised. `tests/explanations` holds these texts.

use crate::finding::What;
use crate::names::{Names, TextKind};
use finding_lines::{DidYouMean, Shown, nearest};
use std::alloc::{AllocError, Global};
use std::fmt;

impl TextKind {
    /// The one of two texts that is of this kind.
    fn choose(self, of_devices: &'static str, of_inputs: &'static str) -> &'static str {
        match self {
            TextKind::Devices => of_devices,
            TextKind::Inputs => of_inputs,
        }
    }

    fn write_event(self) -> &'static str {
        self.choose(
            "Write `MSG` with a channel and words, or `FAULT`.",
            "Write `ARRIVE` with a port and words, or `FAULT`.",
        )
    }

    fn write_receiver(self) -> &'static str {
        self.choose(
            "Write the name of a channel whose source is `DEVICE`.",
            "Write the name of a destination port of the partition.",
        )
    }
}

/// What is wrong with a line of a text of this kind.
#[derive(Clone, Copy)]
pub struct Said<'a> {
    pub kind: TextKind,
    pub what: What<'a>,
}

impl fmt::Display for Said<'_> {
    fn fmt<W: fmt::Write>(&self, f: &mut fmt::Formatter<W>) -> fmt::Result {
        let kind = self.kind;
        match self.what {
            What::Unended => f.write_str("the last line has no line feed"),
            What::Carriage => f.write_str("the line ends with a carriage return"),
            What::Comment => f.write_str("the line begins with `#`, and there are no comments"),
            What::Empty => f.write_str("the line is empty"),
            What::Tab => f.write_str("a tab is in the line"),
            What::Nul => f.write_str("a NUL is in the line"),
            What::NoPart => f.write_str("a part of the line is empty"),
            What::NoTick(text) => said_of(f, text, "is no tick"),
            What::NoEvent => f.write_str("nothing stands behind the tick"),
            What::NoKind(text) => {
                let said = kind.choose(
                    "is neither `MSG` nor `FAULT`",
                    "is neither `ARRIVE` nor `FAULT`",
                );
                said_of(f, text, said)
            }
            What::NoReceiver => f.write_str(kind.choose(
                "no channel stands behind `MSG`",
                "no port stands behind `ARRIVE`",
            )),
            What::NoName(text) => said_of(f, text, "is no name"),
            What::NoWords => f.write_str("the message has no word"),
            What::NoWord(text) => said_of(f, text, "is no word"),
            What::More(text) => said_of(f, text, "stands behind the partition"),
            What::Early { tick, before } => {
                write!(
                    f,
                    "the tick {tick} is below {before}, the tick of the line before"
                )
            }
            What::UnknownReceiver(text) => {
                let said = kind.choose("is no channel", "is no port of the partition");
                said_of(f, text, said)
            }
            What::Closed(text) => {
                let said = kind.choose("is a channel whose source is a port", "is a source port");
                said_of(f, text, said)
            }
            What::UnknownPartition(text) => {
                let said = kind.choose("is no partition", "is not the partition of this replay");
                said_of(f, text, said)
            }
            What::TooManyLines => f.write_str("65536 lines stand before this one"),
            What::TooManyWords { words, most } => {
                write!(f, "the message has {words} words, and may have {most}")
            }
        }
    }
}

/// A text in quotation marks, cut where it is long, and what is said of it.
fn said_of<W: fmt::Write>(f: &mut fmt::Formatter<W>, text: &[u8], said: &str) -> fmt::Result {
    let text = Shown(text);
    write!(f, "`{text}` {said}")
}

/// What is advised for bytes that nobody sees: a byte order mark before the line at an offset of a
/// text, or NULs after its last line.
pub fn odd_byte_advice(text: &[u8], offset: usize) -> Option<&'static str> {
    let (before, ahead) = text.split_at(offset.min(text.len()));
    if text.starts_with(b"\xEF\xBB\xBF") && !before.contains(&b'\n') {
        Some("Save the text without a byte order mark.")
    } else if ahead.is_empty() && before.ends_with(b"\0") {
        Some("Leave the NUL out.")
    } else {
        None
    }
}

/// What is advised for a wrong line of a text with these names.
///
/// # Errors
///
/// Only if memory runs out.
pub fn advice(alloc: Global, names: &Names<'_>, what: What<'_>) -> Result<String, AllocError> {
    let kind = names.kind;
    match what {
        What::Unended => String::from_str(alloc, "End it with a line feed."),
        What::Carriage => String::from_str(alloc, "End each line with a line feed alone."),
        What::Tab => String::from_str(alloc, "Write one space in place of each tab."),
        What::Comment | What::Empty | What::Nul | What::More(_) => String::from_str(
            alloc,
            "Leave it out.",
        ),
        What::NoPart => String::from_str(
            alloc,
            "Parts of a line stand one space apart, and none is before or behind them.",
        ),
        What::NoTick(_) => String::from_str(
            alloc,
            "Write a plain decimal up to 1099511627776, without sign and leading zeros.",
        ),
        What::NoEvent => String::from_str(alloc, kind.write_event()),
        What::NoKind(text) => {
            near_or(
                alloc,
                nearest(text, &[kind.mark(), "FAULT"]),
                kind.write_event(),
            )
        }
        What::NoReceiver | What::Closed(_) => String::from_str(alloc, kind.write_receiver()),
        What::NoName(_) => String::from_str(
            alloc,
            "A name is a lower-case letter, then lower-case letters, digits or `_`, 1 to 30 characters in all.",
        ),
        What::NoWords => String::from_str(alloc, "Write 1 word or more."),
        What::NoWord(_) => String::from_str(
            alloc,
            "Write a plain decimal from -9223372036854775808 to 9223372036854775807, without leading zeros.",
        ),
        What::Early { .. } => String::from_str(
            alloc,
            "Write the lines in the order of their ticks.",
        ),
        What::UnknownReceiver(text) => {
            let mut open = Vec::new(alloc);
            for receiver in names.receivers.as_slice() {
                if receiver.is_open {
                    open.push(receiver.name)?;
                }
            }
            near_or(alloc, nearest(text, open.as_slice()), kind.write_receiver())
        }
        What::UnknownPartition(text) => {
            let other = kind.choose(
                "Write the name of a partition of the module.",
                "Write the name of the partition of this replay, or `FAULT` alone.",
            );
            near_or(alloc, nearest(text, names.partitions.as_slice()), other)
        }
        What::TooManyLines => String::from_str(alloc, "Write a text of at most 65536 lines."),
        What::TooManyWords { most, .. } => format!(in alloc; "Write at most {most} of them."),
    }
}

/// The nearest name, or else this advice.
fn near_or(alloc: Global, near: Option<&str>, other: &str) -> Result<String, AllocError> {
    match near {
        Some(near) => format!(in alloc; "{}", DidYouMean(near)),
        None => String::from_str(alloc, other),
    }
}
