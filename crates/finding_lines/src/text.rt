//! The line and the column of a place.

ghost use Rattle.std.specs.Prelude.{◌≡◌, take, count_by};
ghost use Rattle.finding_lines.specs.Texts.{behind_feed, column_of, is_feed, is_start, last_line, line_of};

/// The line and the column of a place, both from 1. A column is a character.
#[derive(Clone, Copy)]
pub struct Place {
    pub line: usize,
    pub column: usize,
}

/// The place at an offset of a text. An offset after the end is the end.
pub fn place_of(text: &[u8], offset: usize) -> Place
    ensures line { result.line ≡ line_of (take offset text.now) }
    ensures column { result.column ≡ column_of (take offset text.now) }
{
    let (before, _) = halves(text, offset);
    Place {
        line: feeds(before).saturating_add(1),
        column: characters(last_line(before)).saturating_add(1),
    }
}

/// What is before an offset, and what is from it on.
#[tactic(auto, using(std::proofs::lemmas::List::take_min))]
pub fn halves(text: &[u8], offset: usize) -> (&[u8], &[u8])
    ensures { result.0.now ≡ take offset text.now }
{
    text.split_at(offset.min(text.len()))
}

/// How many line feeds a text has.
fn feeds(text: &[u8]) -> usize
    ensures { result ≡ count_by is_feed text.now }
{
    text.iter().filter(|byte| **byte == b'\n').count()
}

/// How many characters a text has.
fn characters(text: &[u8]) -> usize
    ensures { result ≡ count_by is_start text.now }
{
    text.iter()
        .filter(|byte| **byte < 128 || 191 < **byte)
        .count()
}

/// The text after the last line feed.
pub fn last_line(text: &[u8]) -> &[u8]
    ensures { result.now ≡ last_line text.now }
{
    let (_, line) = text.split_at(text.len().saturating_sub(behind_feed(text)));
    line
}

/// How many bytes are after the last line feed.
fn behind_feed(text: &[u8]) -> usize
    ensures { result ≡ behind_feed text.now }
{
    text.iter().rev().take_while(|byte| **byte != b'\n').count()
}

/// The text before the first line feed.
pub fn first_line(text: &[u8]) -> &[u8] {
    match text.iter().position(|byte| *byte == b'\n') {
        Some(end) => {
            let (line, _) = text.split_at(end);
            line
        }
        None => text,
    }
}
