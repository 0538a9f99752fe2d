//! The line of a place as it is shown, with a mark below the place.

use crate::text::{first_line, halves, last_line};
use std::alloc::{AllocError, Global};
use std::fmt;

/// The most bytes of a line that are shown on each side of the place.
const MOST_SHOWN: usize = 40;

/// A word, or the rest of a line: its first 40 bytes are shown, and dots if it is longer.
#[derive(Clone, Copy)]
pub struct Shown<'a>(pub &'a [u8]);

impl fmt::Display for Shown<'_> {
    fn fmt<W: fmt::Write>(&self, f: &mut fmt::Formatter<W>) -> fmt::Result {
        let (first, rest) = self.0.split_at(MOST_SHOWN.min(self.0.len()));
        write_shown(f, first)?;
        f.write_str(if rest.is_empty() { "" } else { "..." })
    }
}

/// The end of a line before a place: its last 40 bytes are shown, after dots if it is longer.
#[derive(Clone, Copy)]
struct ShownEnd<'a>(&'a [u8]);

impl fmt::Display for ShownEnd<'_> {
    fn fmt<W: fmt::Write>(&self, f: &mut fmt::Formatter<W>) -> fmt::Result {
        let (rest, last) = self.0.split_at(self.0.len().saturating_sub(MOST_SHOWN));
        f.write_str(if rest.is_empty() { "" } else { "..." })?;
        write_shown(f, last)
    }
}

/// The suggestion of a name that is near to a word.
#[derive(Clone, Copy)]
pub struct DidYouMean<'a>(pub &'a str);

impl fmt::Display for DidYouMean<'_> {
    fn fmt<W: fmt::Write>(&self, f: &mut fmt::Formatter<W>) -> fmt::Result {
        let name = Shown(self.0.as_bytes());
        write!(f, "Did you mean `{name}`?")
    }
}

/// Bytes as they are shown: a carriage return as `\r`, another control character as a space, and a
/// character above 127 as one `?`.
fn write_shown<W: fmt::Write>(f: &mut fmt::Formatter<W>, bytes: &[u8]) -> fmt::Result {
    for byte in bytes {
        match *byte {
            b'\r' => f.write_str("\\r")?,
            0..=31 | 127 => f.write_char(' ')?,
            32..=126 => f.write_char(char::from(*byte))?,
            128..=191 => {}
            _ => f.write_char('?')?,
        }
    }
    Ok(())
}

/// The line around an offset of a text, cut to 40 bytes on each side, and a line with `^` below the
/// place; both end with a line feed.
///
/// # Errors
///
/// Only if memory runs out.
pub fn marked_line(alloc: Global, text: &[u8], offset: usize) -> Result<String, AllocError> {
    let (before, here) = halves(text, offset);
    let end = ShownEnd(last_line(before));
    let mut lines = format!(in alloc; "{end}")?;
    let column = lines.len();
    let start = Shown(first_line(here));
    lines.push_str(&format!(in alloc; "{start}\n")?)?;
    for _ in 0..column {
        lines.push(' ')?;
    }
    lines.push_str("^\n")?;
    Ok(lines)
}
