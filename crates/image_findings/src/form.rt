//! Lines that have none of the forms.

ghost use Rattle.std.specs.Prelude.{◌≡◌, option_copied, option_map};
ghost use Rattle.image_findings.specs.Form as spec;
ghost use Rattle.image_findings.specs.Views.{part_of, parts_of, what_of, wrong_of};

use crate::finding::{What, Wrong};
use crate::names::TextKind;
use crate::parts::Part;
use apex_types::Name;
use apex_types::limits::MOST_TICKS;
use text_lines::{plain_number, word};

/// The last tick that a line may have.
const LAST_TICK: u64 = MOST_TICKS;

/// What is wrong with the form of a line of these parts.
pub fn form_wrong<'a>(kind: TextKind, line: &'a [u8], parts: &[Part<'a>]) -> Option<Wrong<'a>>
    ensures { option_map wrong_of result ≡ spec.form_wrong kind line.now (parts_of parts.now) }
{
    match parts_wrong(kind, parts) {
        Some(wrong) => Some(blemish(line, wrong)),
        None => None,
    }
}

/// What is said of a wrong line: that it is empty, a comment or ended by a carriage return, that a
/// tab or a NUL is in it, or else which part is wrong.
fn blemish<'a>(line: &[u8], part: Wrong<'a>) -> Wrong<'a>
    ensures { wrong_of result ≡ spec.blemish line.now (wrong_of part.entry) }
{
    match line.split_first() {
        None => wrong(0, What::Empty),
        Some((first, _)) => {
            if *first == b'#' {
                wrong(line.len(), What::Comment)
            } else if is_carriage(line.last()) {
                wrong(1, What::Carriage)
            } else {
                let part = odd_byte(0, What::Nul, line, part);
                odd_byte(b'\t', What::Tab, line, part)
            }
        }
    }
}

/// That this byte is in a line, or else which part is wrong.
fn odd_byte<'a>(byte: u8, what: What<'a>, line: &[u8], part: Wrong<'a>) -> Wrong<'a>
    ensures { wrong_of result
        ≡ spec.odd_byte byte (what_of what.entry) line.now (wrong_of part.entry) }
{
    match left_at(byte, line) {
        Some(left) => wrong(left, what),
        None => part,
    }
}

/// How much of a line is left at the first byte of this number.
fn left_at(wanted: u8, line: &[u8]) -> Option<usize>
    ensures { result ≡ spec.left_at wanted line.now }
{
    let mut rest = line;
    while let Some((byte, others)) = rest.split_first() {
        if *byte == wanted {
            return Some(rest.len());
        }
        rest = others;
    }
    None
}

fn is_carriage(byte: Option<&u8>) -> bool
    ensures { result ≡ spec.is_byte 13 (option_copied byte.entry) }
{
    match byte {
        Some(byte) => *byte == b'\r',
        None => false,
    }
}

fn wrong<'a>(left: usize, what: What<'a>) -> Wrong<'a>
    ensures { wrong_of result ≡ spec.wrong left (what_of what.entry) }
{
    Wrong { left, what }
}

/// What is found at a part, if it has bytes at all.
fn wrong_part<'a>(part: Part<'a>, what: What<'a>) -> Wrong<'a>
    ensures { wrong_of result ≡ spec.wrong_part (part_of part.entry) (what_of what.entry) }
{
    if part.text.is_empty() {
        wrong(part.left, What::NoPart)
    } else {
        wrong(part.left, what)
    }
}

fn parts_wrong<'a>(kind: TextKind, parts: &[Part<'a>]) -> Option<Wrong<'a>>
    ensures { option_map wrong_of result ≡ spec.parts_wrong kind (parts_of parts.now) }
{
    let (tick, rest) = parts.split_first()?;
    match plain_number(LAST_TICK, tick.text) {
        Some(_) => event_wrong(kind, rest),
        None => Some(wrong_part(*tick, What::NoTick(tick.text))),
    }
}

/// What is wrong with the parts after the tick.
fn event_wrong<'a>(kind: TextKind, parts: &[Part<'a>]) -> Option<Wrong<'a>>
    ensures { option_map wrong_of result ≡ spec.event_wrong kind (parts_of parts.now) }
{
    let Some((event, rest)) = parts.split_first() else {
        return Some(wrong(0, What::NoEvent));
    };
    if event.text == kind.mark().as_bytes() {
        message_wrong(rest)
    } else if event.text == "FAULT".as_bytes() {
        fault_wrong(rest)
    } else {
        Some(wrong_part(*event, What::NoKind(event.text)))
    }
}

/// What is wrong with the name and the words of a message.
fn message_wrong<'a>(parts: &[Part<'a>]) -> Option<Wrong<'a>>
    ensures { option_map wrong_of result ≡ spec.message_wrong (parts_of parts.now) }
{
    let Some((name, words)) = parts.split_first() else {
        return Some(wrong(0, What::NoReceiver));
    };
    if !is_name(name.text) {
        return Some(wrong_part(*name, What::NoName(name.text)));
    }
    if words.is_empty() {
        return Some(wrong(0, What::NoWords));
    }
    words_wrong(words)
}

fn is_name(text: &[u8]) -> bool
    ensures { result ≡ spec.is_name text.now }
{
    Name::new(text).is_some()
}

/// The first part that is no word.
fn words_wrong<'a>(words: &[Part<'a>]) -> Option<Wrong<'a>>
    ensures { option_map wrong_of result ≡ spec.words_wrong (parts_of words.now) }
{
    let (first, rest) = words.split_first()?;
    match word(first.text) {
        Some(_) => words_wrong(rest),
        None => Some(wrong_part(*first, What::NoWord(first.text))),
    }
}

/// What is wrong with the parts after `FAULT`.
fn fault_wrong<'a>(parts: &[Part<'a>]) -> Option<Wrong<'a>>
    ensures { option_map wrong_of result ≡ spec.fault_wrong (parts_of parts.now) }
{
    let (name, rest) = parts.split_first()?;
    if !is_name(name.text) {
        return Some(wrong_part(*name, What::NoName(name.text)));
    }
    let (more, _) = rest.split_first()?;
    Some(wrong_part(*more, What::More(more.text)))
}
