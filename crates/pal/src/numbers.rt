//! The numbers of a program as it is written.

ghost use Rattle.std.specs.Prelude.{◌≡◌, ◌≤◌, pos};
ghost use Rattle.pal_base.specs.View.{number_of, integer_of};
ghost use Rattle.pal_meaning.specs.Resolve.{within, value_or_zero, signed_word};

use pal_base::syntax::{Natural, Numeral};

/// The value of a number without its sign; none if it is above 2^63 - 1.
pub fn value_of(number: &Numeral) -> Option<u64>
    ensures { result ≡ number_of number.now }
{
    match number.magnitude {
        Natural::Within(value) if 0 <= value => Some(value as u64),
        _ => None,
    }
}

/// The value of a number without its sign, up to a limit; 0 above the limit.
pub fn limited(limit: u64, number: &Numeral) -> u64
    ensures small { result ≤ limit }
    ensures exact { result ≡ within limit (number_of number.now) }
{
    match value_of(number) {
        Some(value) if value <= limit => value,
        _ => 0,
    }
}

/// A number without its sign as a word; 0 above 2^63 - 1.
pub fn word_of(number: &Numeral) -> i64
    ensures { result ≡ pos (value_or_zero (number_of number.now)) }
{
    match number.magnitude {
        Natural::Within(value) if 0 <= value => value,
        _ => 0,
    }
}

/// A number with its sign as a word; 0 if it is above 2^63 - 1 without the sign.
pub fn signed_word_of(number: &Numeral) -> i64
    ensures { result ≡ signed_word (integer_of number.now) }
{
    let word = word_of(number);
    if number.negative { -word } else { word }
}
