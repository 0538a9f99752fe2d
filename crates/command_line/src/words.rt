//! The words of the command line, as the library of command lines takes them.

ghost use Rattle.std.specs.Prelude.{◌≡◌, IfOk, map};
ghost use Rattle.command_line.specs.Spelled as spec;

use std::alloc::{AllocError, Global};
use std::convert::AsStr;

/// The words, with each `--explain=json` as the flag that it means. After a word `--` all words are
/// unchanged.
#[tactic(auto, using(std::proofs::lemmas::List::drop_more, std::proofs::lemmas::List::append_assoc, crate::proofs::Spelled::append_nil))]
pub fn spelled<'a, S: AsStr>(alloc: Global, words: &'a [S]) -> Result<Vec<&'a str>, AllocError>
    ensures { IfOk result
        (λ v. map (λ s. s.now) v.items ≡ spec.spelled (map S.text words.now)) }
{
    let mut spelled = Vec::new(alloc);
    let mut is_open = true;
    for word in words {
        let word = word.as_str();
        is_open = is_open && word != "--";
        spelled.push(flag_or(is_open, word))?;
    }
    Ok(spelled)
}

/// A word, or the flag that it means.
fn flag_or(is_open: bool, word: &str) -> &str
    ensures { result.now ≡ spec.flag_or is_open word.now }
{
    if is_open && word == "--explain=json" {
        "--explain-json"
    } else {
        word
    }
}
