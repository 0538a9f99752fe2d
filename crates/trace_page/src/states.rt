//! States of the module, as the script of the page reads them.

ghost use Rattle.std.specs.Prelude.{◌≡◌, ◌<◌, ◌-◌, ◌^◌, IfErr, IfOk, None, OnOk, Some};
ghost use Rattle.trace_page.specs.States.{IsStatesFault, goes_behind, goes_on, goes_quoted, is_bare, is_plain, line_behind, only, states_text, wrong_at_end, wrong_from, wrong_line};
ghost use Rattle.trace_page.specs.declared.states.Place.TheVariants as place;
ghost use Rattle.trace_page.specs.declared.states.StatesFault.TheVariants as fault;

use crate::escaping::push_escaped;
use std::alloc::{AllocError, Global};

/// How a state begins.
const TICK_ROW: &[u8] = b"{\"partition\":null,\"tick\":";

/// Why a text is not taken as one of states.
#[derive(Clone, Copy)]
pub enum StatesFault {
    /// The line of this number is the first that is no row of a state.
    Line(u64),
    Memory,
}

/// Where a reader is in a row.
#[derive(Clone, Copy)]
pub enum Place {
    /// Where a row begins.
    Row,
    /// Where a key begins.
    Key,
    /// In a key.
    InKey,
    /// After a key.
    Colon,
    /// Where a value begins.
    Value,
    /// In a word in quotation marks.
    Word,
    /// In a number, or in `null`.
    Bare,
    /// In a list.
    List,
    /// In a list, in a word in quotation marks.
    ListWord,
    /// After a value.
    After,
    /// After the row, in its line.
    End,
}

/// The text of states in the script, if it is one.
///
/// # Errors
///
/// The first line that is no row of a state, or memory ran out.
pub fn states_text(alloc: Global, text: &[u8]) -> Result<Vec<u8>, StatesFault>
    ensures taken { OnOk result (wrong_line text.now ≡ None) }
    ensures text { IfOk result (λ shown. shown.items ≡ states_text text.now) }
    ensures refused { IfErr result (λ fault. IsStatesFault text.now fault) }
{
    match wrong_line(text) {
        Some(line) => Err(StatesFault::Line(line)),
        None => Ok(quoted(alloc, text)?),
    }
}

/// The string that holds a text.
fn quoted(alloc: Global, text: &[u8]) -> Result<Vec<u8>, AllocError>
    ensures { IfOk result (λ shown. shown.items ≡ states_text text.now) }
{
    let mut shown = Vec::from_slice(alloc, b"\"")?;
    push_escaped(&mut shown, text)?;
    shown.extend_from_slice(b"\"")?;
    Ok(shown)
}

/// The number of the first line that is wrong in a text of states.
fn wrong_line(text: &[u8]) -> Option<u64>
    ensures { result ≡ wrong_line text.now }
{
    if text.starts_with(TICK_ROW) {
        wrong_row(text)
    } else {
        Some(1)
    }
}

/// The number of the first line that is no row.
#[tactic(auto, using(std::proofs::lemmas::List::drop_more))]
fn wrong_row(text: &[u8]) -> Option<u64>
    ensures { result ≡ wrong_from place.Row 1 text.now }
{
    let mut place = Place::Row;
    let mut line = 1;
    for byte in text {
        match goes_on(place, *byte) {
            Some(next) => place = next,
            None => return Some(line),
        }
        line = line_behind(line, *byte);
    }
    wrong_at_end(place, line)
}

/// The number of the line after a byte of a line.
fn line_behind(line: u64, byte: u8) -> u64
    requires { line < 2 ^ 64 - 1 }
    ensures { result ≡ line_behind line byte }
{
    if byte == b'\n' { line + 1 } else { line }
}

/// The line that is wrong where the text ends in it.
fn wrong_at_end(place: Place, line: u64) -> Option<u64>
    ensures { result ≡ wrong_at_end place line }
{
    match place {
        Place::Row => None,
        _ => Some(line),
    }
}

/// Where the next byte leads, if it may come here.
fn goes_on(place: Place, byte: u8) -> Option<Place>
    ensures { result ≡ goes_on place byte }
{
    match place {
        Place::Row => only(b'{', byte, Place::Key),
        Place::Key => only(b'"', byte, Place::InKey),
        Place::InKey => goes_quoted(Place::InKey, Place::Colon, byte),
        Place::Colon => only(b':', byte, Place::Value),
        Place::Value => value_at(byte),
        Place::Word => goes_quoted(Place::Word, Place::After, byte),
        Place::Bare if is_bare(byte) => Some(Place::Bare),
        Place::Bare | Place::After => goes_behind(byte),
        Place::List => goes_in_list(byte),
        Place::ListWord => goes_quoted(Place::ListWord, Place::List, byte),
        Place::End => only(b'\n', byte, Place::Row),
    }
}

/// Where the first byte of a value leads.
fn value_at(byte: u8) -> Option<Place>
    ensures { result ≡ goes_on place.Value byte }
{
    match byte {
        b'"' => Some(Place::Word),
        b'[' => Some(Place::List),
        _ if is_bare(byte) => Some(Place::Bare),
        _ => None,
    }
}

/// Where a byte in a list leads.
fn goes_in_list(byte: u8) -> Option<Place>
    ensures { result ≡ goes_on place.List byte }
{
    match byte {
        b'"' => Some(Place::ListWord),
        b']' => Some(Place::After),
        b',' => Some(Place::List),
        _ if is_bare(byte) => Some(Place::List),
        _ => None,
    }
}

/// Where the byte after a value leads: to the next key, or to the end of the row.
fn goes_behind(byte: u8) -> Option<Place>
    ensures { result ≡ goes_behind byte }
{
    match byte {
        b',' => Some(Place::Key),
        _ => only(b'}', byte, Place::End),
    }
}

/// Where a byte in quotation marks leads: further here, or after the second of them.
fn goes_quoted(here: Place, next: Place, byte: u8) -> Option<Place>
    ensures { result ≡ goes_quoted here next byte }
{
    match byte {
        b'"' => Some(next),
        _ if is_plain(byte) => Some(here),
        _ => None,
    }
}

/// The next place, if the byte is the wanted one.
fn only(wanted: u8, byte: u8, next: Place) -> Option<Place>
    ensures { result ≡ only wanted byte next }
{
    if byte == wanted { Some(next) } else { None }
}

/// Returns true for what a number or `null` has.
fn is_bare(byte: u8) -> bool
    ensures { result ≡ is_bare byte }
{
    (b'0' <= byte && byte <= b'9') || byte == b'-' || (b'a' <= byte && byte <= b'z')
}

/// Returns true for what may be in quotation marks.
fn is_plain(byte: u8) -> bool
    ensures { result ≡ is_plain byte }
{
    b' ' <= byte && byte != b'\\'
}

impl From<AllocError> for StatesFault {
    ghost from_gives = { λ _ f. f ≡ fault.Memory };

    fn from(_: AllocError) -> Self {
        StatesFault::Memory
    }
}
