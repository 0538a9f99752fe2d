//! The lines of a text before their names are known.

ghost use Rattle.std.specs.Prelude.{◌≡◌, option_map, option_copied};
ghost use Rattle.apex_types.specs.Line.{space};
ghost use Rattle.module_meaning.specs.DeviceText as meant;
ghost use Rattle.module_meaning.specs.DeviceText.{pieces};
ghost use Rattle.text_lines.specs.Pieces.{pieces_of};
ghost use Rattle.module_base.specs.Seen.{fitting, seen, seen_line};
ghost use Rattle.module_base.specs.TextLines.{line_by, written_by};

use apex_types::limits::MOST_TICKS;
use apex_types::{Name, Ticks, Words};
use text_lines::{plain_number, split_at, word};

/// The last tick that a line may have.
const LAST_TICK: u64 = MOST_TICKS;

/// The words of a message, unless they are more than a message may have.
#[derive(Drop)]
pub enum MessageWords {
    Few(Words),
    TooMany,
}

/// The content of a line, by the names of the text.
#[derive(Drop)]
pub enum Written {
    Message(Name, MessageWords),
    ModuleFault,
    PartitionFault(Name),
}

/// A line that has one of the forms.
#[derive(Drop)]
pub struct WrittenLine {
    pub tick: Ticks,
    pub written: Written,
}

/// The line with this text, if it has one of the forms. Messages follow this mark.
pub fn line_of(mark: &[u8], text: &[u8]) -> Option<WrittenLine>
    ensures { result ≡ option_map seen_line (line_by mark.now text.now) }
{
    let (first, rest) = split_at(b' ', text);
    let tick = plain_number(LAST_TICK, first)?;
    let written = written_of(mark, rest)?;
    Some(WrittenLine {
        tick: Ticks(tick),
        written,
    })
}

/// The content of the line after its tick.
fn written_of(mark: &[u8], text: Option<&[u8]>) -> Option<Written>
    ensures { result
        ≡ option_map seen (written_by mark.now (pieces_of space (option_copied text.entry))) }
{
    let (kind, rest) = split_at(b' ', text?);
    if kind == mark {
        message_of(rest)
    } else if kind == b"FAULT".as_slice() {
        fault_of(rest)
    } else {
        None
    }
}

/// The name of a channel or a port, and the words of a message.
fn message_of(text: Option<&[u8]>) -> Option<Written>
    ensures { result
        ≡ option_map seen (meant.message_of (pieces_of space (option_copied text.entry))) }
{
    let (name, rest) = split_at(b' ', text?);
    let name = Name::new(name)?;
    let words = words(rest?)?;
    Some(Written::Message(name, words))
}

/// Nothing, or the name of a partition.
fn fault_of(text: Option<&[u8]>) -> Option<Written>
    ensures { result ≡ option_map seen (meant.fault_of (pieces_of space (option_copied text.entry))) }
{
    let Some(text) = text else {
        return Some(Written::ModuleFault);
    };
    match split_at(b' ', text) {
        (partition, None) => Some(Written::PartitionFault(Name::new(partition)?)),
        _ => None,
    }
}

/// The words of a text, if all its pieces are words.
#[tactic(auto, unfolding(module_meaning::specs::DeviceText::words))]
fn words(text: &[u8]) -> Option<MessageWords>
    ensures { result ≡ option_map fitting (meant.words (pieces space text.now)) }
{
    let mut words = Words::new();
    let mut is_long = false;
    let mut rest = Some(text);
    while let Some(text) = rest {
        let (piece, behind) = split_at(b' ', text);
        let word = word(piece)?;
        if words.is_full() {
            is_long = true;
        } else {
            words.push(word);
        }
        rest = behind;
    }
    if is_long {
        Some(MessageWords::TooMany)
    } else {
        Some(MessageWords::Few(words))
    }
}
