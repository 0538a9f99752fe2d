//! What is said of words that are no command.

ghost use Rattle.std.specs.Prelude.{◌≡◌, IfSome};
ghost use Rattle.clap.specs.Values.{kind_of};
ghost use Rattle.clap.specs.declared.error.kind.ErrorKind.TheVariants.{UnknownArgument};

use crate::dashes::has_dash_at;
use crate::grammar::{grammar, signed_number};
use crate::words::spelled;
use clap::error::ErrorKind;
use clap::{ArgMatches, Error};
use command_words::number_of;
use std::alloc::{AllocError, Global};
use std::convert::AsStr;

/// The error of words that are no command. Where they would be one without the sign of a number of
/// ticks, it says what that has to be.
pub fn advised<S: AsStr>(alloc: Global, words: &[S], error: Error) -> Error
    ensures { kind_of result ≡ kind_of error }
{
    match error.kind() {
        ErrorKind::UnknownArgument => match signed(alloc, words) {
            Some(advised) => advised,
            None => error,
        },
        _ => error,
    }
}

/// The error of words that would be a command without the sign of a number of ticks.
fn signed<S: AsStr>(alloc: Global, words: &[S]) -> Option<Error>
    ensures { IfSome result (λ error. kind_of error ≡ UnknownArgument) }
{
    let words = spelled(alloc, words).ok()?;
    let word = signed_word(words.as_slice())?;
    let dashed = dashed(alloc, words.as_slice()).ok()?;
    let matches = grammar(alloc)
        .ok()?
        .try_get_matches_from(dashed.as_slice())
        .ok()?;
    let (name, found) = matches.subcommand()?;
    let argument = dashed_number(found)?;
    signed_number(alloc, name, argument, word).ok()
}

/// The only word that is a number with a minus sign.
fn signed_word<'a>(words: &[&'a str]) -> Option<&'a str> {
    let mut found = None;
    for word in words {
        if is_signed(word) {
            if found.is_some() {
                return None;
            }
            found = Some(*word);
        }
    }
    found
}

fn is_signed(word: &str) -> bool {
    match word.strip_prefix('-') {
        Some(digits) => number_of(digits).is_some(),
        None => false,
    }
}

/// The words, with `-` for a number with a minus sign.
fn dashed<'a>(alloc: Global, words: &[&'a str]) -> Result<Vec<&'a str>, AllocError> {
    let mut dashed = Vec::new(alloc);
    for word in words {
        dashed.push(if is_signed(word) { "-" } else { *word })?;
    }
    Ok(dashed)
}

/// The argument for a number of ticks whose word is `-`.
fn dashed_number(found: &ArgMatches<'_>) -> Option<&'static str> {
    if has_dash_at(found, "TICKS") {
        Some("TICKS")
    } else if has_dash_at(found, "TICK") {
        Some("TICK")
    } else {
        None
    }
}
