//! The messages of services.

ghost use Rattle.std.specs.Prelude.{◌≡◌, ◌≤ℤ◌, pos};
ghost use Rattle.kernel_meaning.specs.Sharing as meaning;
ghost use Rattle.kernel_meaning.specs.Step.{first_words, message};

use apex_types::{ArrayPlace, Words, copied};

/// Whether a message of an array has a valid length: at least 1 word, no more than the object
/// takes, and no more than the array has.
pub fn is_length(words: u8, array: ArrayPlace, length: i64) -> bool
    ensures { result ≡ meaning.is_length words array length }
{
    1 <= length && length <= i64::from(words) && length <= array.size
}

/// Whether an array has room for the longest message.
pub fn is_large_enough(words: u8, array: ArrayPlace) -> bool
    ensures { result ≡ meaning.is_large_enough words array }
{
    i64::from(words) <= array.size
}

/// The first `length` words, for a valid length.
#[tactic(auto, using(kernel_laws::proofs::Numbers::handed_words))]
pub fn first_words(length: i64, words: &Words) -> Words
    requires { pos 1 ≤ℤ length }
    ensures { result ≡ message (first_words length words.now.items) }
{
    let mut message = copied(words);
    message.truncate(length as usize);
    message
}
