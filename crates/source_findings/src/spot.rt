//! The words around the place where a text leaves the grammar, and what they advise.

use crate::habits::{foreign_advice, misplaced_advice, sign_advice, standard_value};
use apex_types::SERVICES;
use finding_lines::{Place, Shown, place_of};
use pal_base::looking::{LookedFor, WordKind};
use pal_base::mark::{GRAMMAR_WORDS, Mark};
use source_places::{first_word, from_word, next_word};
use std::alloc::{AllocError, Global};

/// A place in a text, and the words around it.
#[derive(Clone, Copy)]
pub struct Spot<'a> {
    pub text: &'a [u8],
    /// How many words are before it.
    place: usize,
    before: &'a [u8],
    pub ahead: &'a [u8],
    /// The word at the place, and the one before it.
    pub word: &'a [u8],
    last: &'a [u8],
    /// Where the word before it ends.
    last_end: usize,
}

impl<'a> Spot<'a> {
    /// The place that has so many words before it, by the text from it on.
    pub fn new(text: &'a [u8], ahead: &'a [u8], place: usize) -> Spot<'a> {
        let offset = text.len().saturating_sub(ahead.len());
        let (before, _) = text.split_at(offset);
        let from_last = from_word(text, place.saturating_sub(1));
        let last = if place == 0 {
            &[]
        } else {
            first_word(from_last)
        };
        Spot {
            text,
            place,
            before,
            ahead,
            word: first_word(ahead),
            last,
            last_end: (text.len().saturating_sub(from_last.len())).saturating_add(last.len()),
        }
    }

    /// The word at the place as it is shown: a name with capitals is shown whole.
    pub fn shown_word(self) -> &'a [u8] {
        match self.ahead.first() {
            Some(b'A'..=b'Z') => letters(self.ahead),
            _ => self.word,
        }
    }

    /// What the words around the place advise.
    ///
    /// # Errors
    ///
    /// Only if memory runs out.
    pub fn advice(self, alloc: Global, place: &LookedFor) -> Result<Option<String>, AllocError> {
        if let Some(advice) = self.missing(alloc, place)? {
            return Ok(Some(advice));
        }
        if let Some(advice) = self.named(alloc, place)? {
            return Ok(Some(advice));
        }
        match self.fixed(place) {
            Some(advice) => Ok(Some(String::from_str(alloc, advice)?)),
            None => Ok(None),
        }
    }

    /// That a brace or a semicolon is missing before the place.
    fn missing(self, alloc: Global, place: &LookedFor) -> Result<Option<String>, AllocError> {
        if self.is_at_end_of_body(place) {
            if let Some(left) = self.open_brace(alloc)? {
                let line = self.place_at(self.text.len().saturating_sub(left)).line;
                return Ok(Some(format!(in alloc; "Write `}}` for the `{{` in line {line}.")?));
            }
        }
        let here = self.place_at(self.before.len());
        let Place { line, column } = self.place_at(self.last_end);
        if fits(place, Mark::Semicolon) && line < here.line {
            return Ok(Some(format!(in alloc; "Write `;` in line {line}, column {column}.")?));
        }
        Ok(None)
    }

    fn place_at(self, offset: usize) -> Place {
        place_of(self.text, offset)
    }

    /// Returns true if the text ends where a statement fits, or if what is there is after a body.
    fn is_at_end_of_body(self, place: &LookedFor) -> bool {
        let is_after = ["process", "handler", "init", "proc"]
            .iter()
            .any(|word| self.word == word.as_bytes());
        self.ahead.is_empty() || (is_after && fits(place, Mark::BraceCloses))
    }

    /// The innermost brace that is open at the place, by the bytes that are left from it on.
    fn open_brace(self, alloc: Global) -> Result<Option<usize>, AllocError> {
        let mut unclosed = Vec::new(alloc);
        let mut rest = from_word(self.text, 0);
        for _ in 0..self.place {
            match rest.first() {
                Some(b'{') => unclosed.push(rest.len())?,
                Some(b'}') => {
                    let _closed = unclosed.pop();
                }
                _ => {}
            }
            rest = next_word(rest);
        }
        Ok(unclosed.last().copied())
    }

    /// What is advised with a word of the text, or one of Pal.
    fn named(self, alloc: Global, place: &LookedFor) -> Result<Option<String>, AllocError> {
        let word = Shown(self.shown_word());
        if let Some(number) = standard_value(self.word) {
            return Ok(Some(format!(in alloc;
                "Write {number}: Pal has no constants, and {word} is {number}."
            )?));
        }
        if let Some(service) = service_like(self.last) {
            if self.word == b"(".as_slice() {
                return Ok(Some(format!(in alloc; "Write `{service}`, in capitals.")?));
            }
        }
        if let Some(service) = service_like(letters(self.ahead)) {
            return Ok(Some(if fits_kind(place, WordKind::Service) {
                format!(in alloc; "Write `{service}`, in capitals.")?
            } else {
                format!(in alloc; "A service is a statement: write `{service}(..) -> r;`.")?
            }));
        }
        for mark in &GRAMMAR_WORDS {
            if self.word == mark.text() && wants_name(place) {
                return Ok(Some(format!(in alloc;
                    "Write another name: `{word}` is a word of the grammar."
                )?));
            }
            if fits(place, *mark) && are_alike(letters(self.ahead), mark.text()) {
                let word = Shown(mark.text());
                return Ok(Some(format!(in alloc; "Write `{word}`, in small letters.")?));
            }
        }
        Ok(None)
    }

    /// What is advised whatever the words of the text are.
    fn fixed(self, place: &LookedFor) -> Option<&'static str> {
        if let Some(advice) = sign_advice(self.before, self.ahead) {
            return Some(advice);
        }
        if let Some(advice) = self.joined(place) {
            return Some(advice);
        }
        if let Some(advice) = misplaced_advice(place, self.word) {
            return Some(advice);
        }
        foreign_advice(self.last)
    }

    /// What is advised for letters at the place.
    fn joined(self, place: &LookedFor) -> Option<&'static str> {
        let is_joined = self.before.len() == self.last_end && !letters(self.ahead).is_empty();
        match (self.last.first(), self.ahead.first()) {
            (Some(b'0'..=b'9'), _) if is_joined => {
                Some("A number has decimal digits only, and no unit.")
            }
            (Some(b'a'..=b'z'), _) if is_joined => Some("A name has no capital letters."),
            (_, Some(b'A'..=b'Z')) if fits_kind(place, WordKind::Service) => {
                Some("No service has this name: PAL.md lists them.")
            }
            (_, Some(b'A'..=b'Z')) if fits_kind(place, WordKind::Name) => {
                Some("A name has no capital letters.")
            }
            _ => None,
        }
    }
}

fn fits(place: &LookedFor, mark: Mark) -> bool {
    fits_kind(place, WordKind::Mark(mark))
}

fn fits_kind(place: &LookedFor, kind: WordKind) -> bool {
    place.words.contains(&kind)
}

/// Returns true if a name fits, and no expression.
fn wants_name(place: &LookedFor) -> bool {
    fits_kind(place, WordKind::Name)
        && !fits_kind(place, WordKind::Number)
        && !fits(place, Mark::Work)
}

/// The letters, digits and `_` at the front of a text.
fn letters(text: &[u8]) -> &[u8] {
    let length = text
        .iter()
        .take_while(|byte| matches!(**byte, b'a'..=b'z' | b'A'..=b'Z' | b'0'..=b'9' | b'_'))
        .count();
    let (word, _) = text.split_at(length.min(text.len()));
    word
}

/// The service of that name, whatever letters are small in it.
fn service_like(word: &[u8]) -> Option<&'static str> {
    for service in &SERVICES {
        if are_alike(word, service.word().as_bytes()) {
            return Some(service.word());
        }
    }
    None
}

/// Returns true if two words differ at most in which letters are small.
fn are_alike(word: &[u8], other: &[u8]) -> bool {
    word.len() == other.len()
        && word
            .iter()
            .zip(other.iter())
            .all(|(byte, letter)| small(*byte) == small(*letter))
}

fn small(byte: u8) -> u8 {
    match byte {
        b'A'..=b'Z' => byte.saturating_add(32),
        _ => byte,
    }
}
