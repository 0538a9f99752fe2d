//! What is said and advised where the reading of a TOML text ended.

use crate::scan::open_bracket;
use finding_lines::{Entry, OwnedStep, Shown, Step, TomlPlaces, place_of};
use std::alloc::{AllocError, Global};

/// What is said of a place, and what is advised.
#[derive(Drop)]
pub struct Remark {
    pub said: String,
    pub advice: String,
}

/// What is said and advised where the reading of a text ended for that reason, if there is memory for
/// it.
pub fn told(alloc: Global, text: &[u8], offset: usize, message: &str) -> Option<Remark> {
    told_at(alloc, text, offset, message).ok()
}

fn told_at(alloc: Global, text: &[u8], offset: usize, message: &str) -> Result<Remark, AllocError> {
    if message == "duplicate key" {
        if let Some(told) = twice(alloc, text, offset)? {
            return Ok(told);
        }
    }
    Ok(Remark {
        said: String::from_str(alloc, message)?,
        advice: advice(alloc, text, offset, message)?,
    })
}

/// What is advised, but for a key that is there twice.
fn advice(alloc: Global, text: &[u8], offset: usize, message: &str) -> Result<String, AllocError> {
    let (before, ahead) = text.split_at(offset.min(text.len()));
    if message == "invalid UTF-8" {
        return String::from_str(alloc, "Save the text as UTF-8.");
    }
    match open_bracket(alloc, before, ahead)? {
        Some((b'[', line)) => return format!(in alloc; "Write `]` for the `[` in line {line}."),
        Some((_, line)) => return format!(in alloc; "Write `}}` for the `{{` in line {line}."),
        None => {}
    }
    if is_value(before) {
        if let Some(advice) = value_advice(alloc, ahead)? {
            return Ok(advice);
        }
    }
    if ahead.starts_with(b";") || ahead.starts_with(b"//") {
        return String::from_str(alloc, "A comment begins with `#`.");
    }
    String::from_str(alloc, "The text is TOML up to this place.")
}

/// Returns true if a value is wanted after this text.
fn is_value(before: &[u8]) -> bool {
    let blanks = before
        .iter()
        .rev()
        .take_while(|byte| **byte == b' ')
        .count();
    let (front, _) = before.split_at(before.len().saturating_sub(blanks));
    matches!(front.last(), Some(b'=' | b'[' | b','))
}

/// What is advised for what is in place of a value.
fn value_advice(alloc: Global, ahead: &[u8]) -> Result<Option<String>, AllocError> {
    let word = letters(ahead);
    let shown = Shown(word);
    Ok(match word.first() {
        Some(b'0') if 1 < word.len() => Some(String::from_str(
            alloc,
            "Write the number without leading zeros.",
        )?),
        Some(b'a'..=b'z' | b'A'..=b'Z' | b'_') => Some(if is_like(word, b"true") {
            String::from_str(alloc, "Write `true`, in small letters.")?
        } else if is_like(word, b"false") {
            String::from_str(alloc, "Write `false`, in small letters.")?
        } else {
            format!(in alloc; "Write it in quotation marks: `\"{shown}\"`.")?
        }),
        _ => None,
    })
}

/// The letters, digits and `_` at the front of a text.
fn letters(text: &[u8]) -> &[u8] {
    let length = text
        .iter()
        .take_while(|byte| matches!(**byte, b'a'..=b'z' | b'A'..=b'Z' | b'0'..=b'9' | b'_'))
        .count();
    let (word, _) = text.split_at(length.min(text.len()));
    word
}

/// Returns true if a word in any letters is this one in small letters.
fn is_like(word: &[u8], small: &[u8]) -> bool {
    word.len() == small.len()
        && word.iter().zip(small.iter()).all(|(byte, letter)| *byte == *letter
            || byte.saturating_add(32) == *letter)
}

/// What is said and advised of a key that is there twice, if there is memory for its places.
fn twice(alloc: Global, text: &[u8], offset: usize) -> Result<Option<Remark>, AllocError> {
    let Ok(read) = str::from_utf8(text) else {
        return Ok(None);
    };
    let Some(places) = TomlPlaces::read(alloc, read) else {
        return Ok(None);
    };
    let left = text.len().saturating_sub(offset);
    for entry in places.entries() {
        if entry.key_left == left {
            return twice_at(alloc, text, &places, entry);
        }
    }
    Ok(None)
}

/// The same for the key of an entry.
fn twice_at(
    alloc: Global,
    text: &[u8],
    places: &TomlPlaces,
    entry: &Entry,
) -> Result<Option<Remark>, AllocError> {
    let mut path = Vec::new(alloc);
    let mut key = "";
    for step in &entry.path {
        match step {
            OwnedStep::Key(name) => {
                key = name.as_str();
                path.push(Step::Key(key))?;
            }
            OwnedStep::Element(index) => path.push(Step::Element(*index))?,
        }
    }
    if let Some(Step::Element(_)) = path.last() {
        let _element = path.pop();
    }
    let Some(first) = places.first_at(path.as_slice()) else {
        return Ok(None);
    };
    let line = place_of(text, text.len().saturating_sub(first.key_left)).line;
    let name = Shown(key.as_bytes());
    let (_, ahead) = text.split_at(text.len().saturating_sub(entry.key_left));
    let advice = match key {
        "partition" | "window" | "channel" if ahead.starts_with(b"[") => format!(in alloc;
            "Write `[[{name}]]`, in double brackets, here and in line {line}."
        )?,
        _ => format!(in alloc; "It is in line {line} too: leave one of the two out.")?,
    };
    Ok(Some(Remark {
        said: format!(in alloc; "the key `{name}` stands twice")?,
        advice,
    }))
}
