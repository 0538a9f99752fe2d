//! The kind of an event, by its word and its fields.

ghost use Rattle.std.specs.Prelude.{◌≡◌, option_copied};
ghost use Rattle.apex_types.specs.Line.{space};
ghost use Rattle.text_lines.specs.Pieces.{pieces_of};
ghost use Rattle.trace_text.specs.Reading as meant;

use crate::field::{
    code_of, culprit_of, error_of, mode_of, name_of, response_of, service_of, state_of, subject_of,
};
use crate::keyword::{Keyword, keyword_of};
use apex_types::{EventKind, Name, Words};
use text_lines::{split_at, word};

/// The kind of an event, from the text after the partition.
pub fn kind_of(text: Option<&[u8]>) -> Option<EventKind>
    ensures { result ≡ meant.kind_of (pieces_of space (option_copied text.entry)) }
{
    let (word, fields) = split_at(b' ', text?);
    match keyword_of(word)? {
        Keyword::State => state_line(fields),
        Keyword::Return => return_line(fields),
        Keyword::Mode => mode_line(fields),
        Keyword::Error => error_line(fields),
        Keyword::Report => report_line(fields),
        Keyword::Move => {
            let (port, words) = message_of(fields)?;
            Some(EventKind::Move(port, words))
        }
        Keyword::Arrive => {
            let (port, words) = message_of(fields)?;
            Some(EventKind::Arrive(port, words))
        }
        Keyword::Lost => {
            let (port, words) = message_of(fields)?;
            Some(EventKind::Lost(port, words))
        }
        Keyword::Out => {
            let (channel, words) = message_of(fields)?;
            Some(EventKind::Out(channel, words))
        }
    }
}

fn state_line(text: Option<&[u8]>) -> Option<EventKind>
    ensures { result ≡ meant.state_line (pieces_of space (option_copied text.entry)) }
{
    let (who, rest) = split_at(b' ', text?);
    match split_at(b' ', rest?) {
        (state, None) => {
            let who = subject_of(who)?;
            let state = state_of(state)?;
            Some(EventKind::State(who, state))
        }
        _ => None,
    }
}

fn return_line(text: Option<&[u8]>) -> Option<EventKind>
    ensures { result ≡ meant.return_line (pieces_of space (option_copied text.entry)) }
{
    let (who, rest) = split_at(b' ', text?);
    let (service, rest) = split_at(b' ', rest?);
    match split_at(b' ', rest?) {
        (code, None) => {
            let who = subject_of(who)?;
            let service = service_of(service)?;
            let code = code_of(code)?;
            Some(EventKind::Return(who, service, code))
        }
        _ => None,
    }
}

fn mode_line(text: Option<&[u8]>) -> Option<EventKind>
    ensures { result ≡ meant.mode_line (pieces_of space (option_copied text.entry)) }
{
    match split_at(b' ', text?) {
        (mode, None) => Some(EventKind::Mode(mode_of(mode)?)),
        _ => None,
    }
}

fn error_line(text: Option<&[u8]>) -> Option<EventKind>
    ensures { result ≡ meant.error_line (pieces_of space (option_copied text.entry)) }
{
    let (error, rest) = split_at(b' ', text?);
    let (who, rest) = split_at(b' ', rest?);
    let (level, rest) = split_at(b' ', rest?);
    match split_at(b' ', rest?) {
        (action, None) => {
            let error = error_of(error)?;
            let who = culprit_of(who)?;
            let response = response_of(level, action)?;
            Some(EventKind::Error(error, who, response))
        }
        _ => None,
    }
}

fn report_line(text: Option<&[u8]>) -> Option<EventKind>
    ensures { result ≡ meant.report_line (pieces_of space (option_copied text.entry)) }
{
    let (who, rest) = split_at(b' ', text?);
    let who = subject_of(who)?;
    let words = words_of(rest)?;
    Some(EventKind::Report(who, words))
}

/// The name of a port or channel, and the words of its message.
fn message_of(text: Option<&[u8]>) -> Option<(Name, Words)>
    ensures { result ≡ meant.message_of (pieces_of space (option_copied text.entry)) }
{
    let (name, rest) = split_at(b' ', text?);
    let name = name_of(name)?;
    let words = words_of(rest)?;
    Some((name, words))
}

/// The words of a message, 1 to 16.
#[tactic(auto, unfolding(module_meaning::specs::DeviceText::words))]
fn words_of(text: Option<&[u8]>) -> Option<Words>
    ensures { result ≡ meant.words_of (pieces_of space (option_copied text.entry)) }
{
    let mut words = Words::new();
    let mut rest = Some(text?);
    while let Some(text) = rest {
        let (piece, behind) = split_at(b' ', text);
        let word = word(piece)?;
        if words.is_full() {
            return None;
        }
        words.push(word);
        rest = behind;
    }
    Some(words)
}
