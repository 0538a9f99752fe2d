//! Which of the words that fit is suggested where a text leaves the grammar.

use apex_types::SERVICES;
use finding_lines::nearest;
use pal_base::looking::{LookedFor, WordKind};
use pal_base::mark::GRAMMAR_WORDS;
use source_places::{first_word, from_word};
use std::alloc::{AllocError, Global};

/// The word that fits at a place of a text and is nearest to the word there, if one is near.
///
/// # Errors
///
/// Only if memory runs out.
pub fn suggested(
    alloc: Global,
    text: &[u8],
    place: &LookedFor,
) -> Result<Option<&'static str>, AllocError> {
    let words = candidates(alloc, place.words.as_slice())?;
    Ok(nearest(first_word(from_word(text, place.place)), words.as_slice()))
}

/// The words in letters that these kinds allow, but for names.
fn candidates(alloc: Global, kinds: &[WordKind]) -> Result<Vec<&'static str>, AllocError> {
    let mut words = Vec::new(alloc);
    for mark in &GRAMMAR_WORDS {
        if kinds.contains(&WordKind::Mark(*mark)) {
            if let Ok(word) = str::from_utf8(mark.text()) {
                words.push(word)?;
            }
        }
    }
    if kinds.contains(&WordKind::Service) {
        for service in &SERVICES {
            words.push(service.word())?;
        }
    }
    Ok(words)
}
