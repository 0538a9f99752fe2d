//! The numbers in words.

ghost use Rattle.std.specs.Prelude.{◌↔◌, IsTrue};
ghost use Rattle.std.specs.Str.Parse.{AllDigits, IsNumeral};
ghost use Rattle.command_words.specs.Numbers.{ReadsNumber};

/// The number in a word of one or more digits. A number beyond 64 bits becomes the greatest number
/// of 64 bits, which is far above every limit and every tick of a trace.
pub fn number_of(word: &str) -> Option<u64>
    ensures { ReadsNumber word.now result }
{
    if !is_numeral(word.as_bytes()) {
        return None;
    }
    Some(word.parse().unwrap_or(u64::MAX))
}

/// Returns true if `bytes` has digits, and nothing else.
fn is_numeral(bytes: &[u8]) -> bool
    ensures { IsTrue result ↔ IsNumeral 10 bytes.now }
{
    !bytes.is_empty() && are_digits(bytes)
}

fn are_digits(bytes: &[u8]) -> bool
    ensures { IsTrue result ↔ AllDigits 10 bytes.now }
{
    let mut rest = bytes;
    while let Some((byte, others)) = rest.split_first() {
        if !byte.is_ascii_digit() {
            return false;
        }
        rest = others;
    }
    true
}
