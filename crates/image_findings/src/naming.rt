//! Lines that have one of the forms, and break a rule by their tick, their names or their length.

ghost use Rattle.std.specs.Prelude.{◌≡◌, map, option_map};
ghost use Rattle.image_findings.specs.Naming as spec;
ghost use Rattle.image_findings.specs.Views.{names_of, part_of, parts_of, receiver_of, what_of, wrong_of};

use crate::finding::{What, Wrong};
use crate::names::{Names, Receiver};
use crate::parts::Part;
use apex_types::limits::{MOST_DEVICE_LINES, MOST_TICKS};
use text_lines::plain_number;

/// The last tick that a line may have.
const LAST_TICK: u64 = MOST_TICKS;

/// The most lines of a text.
const MOST_LINES: usize = MOST_DEVICE_LINES as usize;

/// The tick of a text that is one; else 0.
pub fn tick_of(text: &[u8]) -> u64
    ensures { result ≡ spec.tick_of text.now }
{
    plain_number(LAST_TICK, text).unwrap_or(0)
}

/// What is wrong with a line of one of the forms, after `count` others of which the last has the
/// tick `before`.
pub fn meaning_wrong<'a>(
    names: &Names<'_>,
    count: usize,
    before: u64,
    parts: &[Part<'a>],
) -> Option<Wrong<'a>>
    ensures { option_map wrong_of result
        ≡ spec.meaning_wrong (names_of names.now) count before (parts_of parts.now) }
{
    let (first, rest) = parts.split_first()?;
    let tick = tick_of(first.text);
    if tick < before {
        return Some(Wrong {
            left: first.left,
            what: What::Early { tick, before },
        });
    }
    event_wrong(names, count, *first, rest)
}

/// What is wrong with the names of a line and its length.
fn event_wrong<'a>(
    names: &Names<'_>,
    count: usize,
    tick: Part<'a>,
    parts: &[Part<'a>],
) -> Option<Wrong<'a>>
    ensures { option_map wrong_of result
        ≡ spec.event_wrong (names_of names.now) count (part_of tick.entry) (parts_of parts.now) }
{
    let (event, rest) = parts.split_first()?;
    if event.text == names.kind.mark().as_bytes() {
        message_wrong(names, count, tick, rest)
    } else {
        fault_wrong(names, count, tick, rest)
    }
}

/// What is wrong with the name and the length of a message.
fn message_wrong<'a>(
    names: &Names<'_>,
    count: usize,
    tick: Part<'a>,
    parts: &[Part<'a>],
) -> Option<Wrong<'a>>
    ensures { option_map wrong_of result
        ≡ spec.message_wrong (names_of names.now) count (part_of tick.entry) (parts_of parts.now) }
{
    let (name, words) = parts.split_first()?;
    match receiver_named(name.text, names.receivers.as_slice()) {
        None => Some(at(*name, What::UnknownReceiver(name.text))),
        Some(receiver) => {
            if receiver.is_open {
                size_wrong(count, tick, receiver.most, words)
            } else {
                Some(at(*name, What::Closed(name.text)))
            }
        }
    }
}

fn at<'a>(part: Part<'a>, what: What<'a>) -> Wrong<'a>
    ensures { wrong_of result ≡ spec.at (part_of part.entry) (what_of what.entry) }
{
    Wrong {
        left: part.left,
        what,
    }
}

/// The channel or the port of that name.
fn receiver_named<'a>(name: &[u8], receivers: &[Receiver<'a>]) -> Option<Receiver<'a>>
    ensures { option_map receiver_of result
        ≡ spec.receiver_named name.now (map receiver_of receivers.now) }
{
    let (receiver, others) = receivers.split_first()?;
    if receiver.name.as_bytes() == name {
        Some(*receiver)
    } else {
        receiver_named(name, others)
    }
}

/// Too many lines, or the first word that is too many.
fn size_wrong<'a>(count: usize, tick: Part<'a>, most: u8, words: &[Part<'a>]) -> Option<Wrong<'a>>
    ensures { option_map wrong_of result
        ≡ spec.size_wrong count (part_of tick.entry) most (parts_of words.now) }
{
    if let Some(wrong) = room_wrong(count, tick) {
        return Some(wrong);
    }
    let first = words.get(usize::from(most))?;
    let what = What::TooManyWords {
        words: words.len(),
        most,
    };
    Some(at(*first, what))
}

/// That no more lines may follow.
fn room_wrong<'a>(count: usize, tick: Part<'a>) -> Option<Wrong<'a>>
    ensures { option_map wrong_of result ≡ spec.room_wrong count (part_of tick.entry) }
{
    if count < MOST_LINES {
        None
    } else {
        Some(at(tick, What::TooManyLines))
    }
}

/// What is wrong with the partition of a fault.
fn fault_wrong<'a>(
    names: &Names<'_>,
    count: usize,
    tick: Part<'a>,
    parts: &[Part<'a>],
) -> Option<Wrong<'a>>
    ensures { option_map wrong_of result
        ≡ spec.fault_wrong (names_of names.now) count (part_of tick.entry) (parts_of parts.now) }
{
    let Some((name, _)) = parts.split_first() else {
        return room_wrong(count, tick);
    };
    if is_among(name.text, names.partitions.as_slice()) {
        room_wrong(count, tick)
    } else {
        Some(at(*name, What::UnknownPartition(name.text)))
    }
}

/// Returns true if a text is one of these names.
fn is_among(text: &[u8], names: &[&str]) -> bool
    ensures { result ≡ spec.is_among text.now (map (λ name. name.now) names.now) }
{
    match names.split_first() {
        None => false,
        Some((name, others)) => name.as_bytes() == text || is_among(text, others),
    }
}
