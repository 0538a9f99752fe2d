//! What a browser shows where the pointer rests.

use crate::shape::{Flag, Message, Report, Stop};
use apex_types::Words;
use std::alloc::{AllocError, Global};
use std::fmt::Write;
use trace_stays::{Lanes, Span, subject_word};

/// The name of the partition at this place; empty if there is none.
pub fn partition_name(lanes: &Lanes, place: usize) -> &str {
    match lanes.partitions().get(place) {
        Some(lane) => lane.name.as_str(),
        None => "",
    }
}

/// The name of the process at this place; empty if there is none.
pub fn process_name(lanes: &Lanes, place: usize) -> &str {
    match lanes.processes().get(place) {
        Some(lane) => subject_word(&lane.who),
        None => "",
    }
}

/// The title of a picture of the trace of this name.
pub fn heading(
    alloc: Global,
    name: &str,
    span: Span,
    has_windows: bool,
) -> Result<String, AllocError> {
    let (from, until) = (span.from.0, span.until.0);
    let known = if has_windows {
        ", with the windows of its module table"
    } else {
        "; windows are not known"
    };
    format!(in alloc; "{name}, from tick {from} to tick {until}{known}")
}

/// The title of a bar.
pub fn bar_title(alloc: Global, name: &str, word: &str, span: Span) -> Result<String, AllocError> {
    let (from, last) = (span.from.0, span.until.0.saturating_sub(1));
    let count = span.ticks();
    format!(in alloc; "{name} {word}, ticks {from} to {last} ({count})")
}

/// Appends the place where a message begins or ends its way.
fn push_stop(text: &mut String, lanes: &Lanes, stop: Stop) -> Result<(), AllocError> {
    match stop {
        Stop::Device => text.push_str("outside"),
        Stop::Channel(name) => write!(text, "outside by {}", name.as_str()),
        Stop::Port(partition, port) => {
            write!(
                text,
                "{}.{}",
                partition_name(lanes, partition),
                port.as_str()
            )
        }
    }
}

/// Appends the words of a message, a space before each.
fn push_words(text: &mut String, words: &[i64]) -> Result<(), AllocError> {
    for word in words {
        write!(text, " {}", *word)?;
    }
    Ok(())
}

/// The words of a message, with a space between two of them.
pub fn numbers_text(alloc: Global, words: &Words) -> Result<String, AllocError> {
    let mut text = String::new(alloc);
    if let Some((first, rest)) = words.as_slice().split_first() {
        write!(text, "{}", *first)?;
        push_words(&mut text, rest)?;
    }
    Ok(text)
}

/// The port or the channel where a message ends its way.
pub fn end_name(message: &Message) -> &str {
    match &message.to {
        Stop::Port(_, name) | Stop::Channel(name) => name.as_str(),
        Stop::Device => "outside",
    }
}

/// The title of the arrow of a message.
pub fn message_title(
    alloc: Global,
    lanes: &Lanes,
    message: &Message,
) -> Result<String, AllocError> {
    let mut text = String::new(alloc);
    push_stop(&mut text, lanes, message.from)?;
    text.push_str(" to ")?;
    push_stop(&mut text, lanes, message.to)?;
    text.push_str(if message.lost { ", lost:" } else { ":" })?;
    push_words(&mut text, message.words.as_slice())?;
    write!(text, ", tick {}", message.tick.0)?;
    Ok(text)
}

/// The title of a flag.
pub fn flag_title(alloc: Global, flag: &Flag) -> Result<String, AllocError> {
    let error = flag.error.word();
    let who = match &flag.who {
        Some(who) => subject_word(who),
        None => "-",
    };
    let level = flag.response.level().word();
    let action = flag.response.action_word();
    let tick = flag.tick.0;
    format!(in alloc; "HM {error} {who} {level} {action}, tick {tick}")
}

/// The title of the mark of an application message.
pub fn report_title(alloc: Global, lanes: &Lanes, report: &Report) -> Result<String, AllocError> {
    let mut text = String::new(alloc);
    write!(text, "REPORT {}", process_name(lanes, report.process))?;
    push_words(&mut text, report.words.as_slice())?;
    write!(text, ", tick {}", report.tick.0)?;
    Ok(text)
}
