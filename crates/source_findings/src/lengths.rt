//! The body with which a program has more instructions than it may have, and the word at which it
//! begins.

ghost use Rattle.std.specs.Prelude.{◌≡◌, IfOk, length, option_map};
ghost use Rattle.source_findings.specs.Lengths as spec;
ghost use Rattle.source_findings.specs.Views.{wrongs_of};

use crate::finding::{What, Wrong};
use apex_types::limits::MOST_INSTRUCTIONS;
use pal::{BodyCost, BodyName};
use pal_base::mark::Mark;
use source_places::{first_word, from_word, next_word};
use std::alloc::{AllocError, Global};

/// The body with which a program of this text is too long, if it is: the first that has more
/// instructions than those before it leave. The bodies are in the order of `mb cost`.
///
/// # Errors
///
/// Only if memory runs out.
pub fn length_wrongs(
    alloc: Global,
    text: &[u8],
    bodies: &[BodyCost],
) -> Result<Vec<Wrong<'static>>, AllocError>
    ensures { IfOk result
        (λ found. wrongs_of found.items ≡ spec.length_wrongs text.now bodies.now) }
{
    let mut found = Vec::new(alloc);
    if let Some(body) = passing(u64::from(MOST_INSTRUCTIONS), bodies) {
        found.push(Wrong {
            left: from_body(text, &body.name).len(),
            what: What::Instructions {
                number: all_instructions(bodies),
                here: body.instructions,
            },
        })?;
    }
    Ok(found)
}

/// The first body that has more instructions than those before it leave of `most`.
fn passing(most: u64, bodies: &[BodyCost]) -> Option<&BodyCost>
    ensures { option_map (λ body. body.now) result ≡ spec.passing most bodies.now }
{
    let (body, bodies) = bodies.split_first()?;
    if most < body.instructions {
        Some(body)
    } else {
        passing(most - body.instructions, bodies)
    }
}

/// The instructions of all bodies.
fn all_instructions(bodies: &[BodyCost]) -> u64
    ensures { result ≡ spec.all_instructions bodies.now }
{
    match bodies.split_first() {
        Some((body, bodies)) => body.instructions.saturating_add(all_instructions(bodies)),
        None => 0,
    }
}

/// A text from the first word on at which the body begins.
#[tactic(auto, unfolding(crate::specs::Lengths::from_body))]
fn from_body<'a>(text: &'a [u8], name: &BodyName) -> &'a [u8]
    ensures { length result.now ≡ spec.left_at text.now name.now }
{
    let mut rest = from_word(text, 0);
    let mut left = text.len();
    while 0 < left {
        if begins(rest, name) {
            return rest;
        }
        rest = next_word(rest);
        left -= 1;
    }
    rest
}

/// Whether a text begins with the words with which the body begins.
fn begins(text: &[u8], name: &BodyName) -> bool
    ensures { result ≡ spec.begins name.now text.now }
{
    match name {
        BodyName::Init => is_word(text, Mark::Init.text()),
        BodyName::Handler => is_word(text, Mark::Handler.text()),
        BodyName::Process(name) => is_named(text, Mark::Process.text(), name.as_bytes()),
        BodyName::Procedure(name) => is_named(text, Mark::Proc.text(), name.as_bytes()),
    }
}

/// Whether a text begins with this word, and the name follows it.
fn is_named(text: &[u8], word: &[u8], name: &[u8]) -> bool
    ensures { result ≡ spec.is_named word.now name.now text.now }
{
    is_word(text, word) && is_word(next_word(text), name)
}

fn is_word(text: &[u8], word: &[u8]) -> bool
    ensures { result ≡ spec.is_word word.now text.now }
{
    first_word(text) == word
}
