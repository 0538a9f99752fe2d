//! The numbers of a text.

ghost use Rattle.std.specs.Prelude.{◌≡◌, ◌+◌, ◌-◌, ◌*◌, ◌^◌, ◌≤◌, IfSome};
ghost use Rattle.std.specs.List.{list_all};
ghost use Rattle.engine_meaning.specs.Digits.{is_digit, decimal_value};
ghost use Rattle.module_meaning.specs.DeviceText.{is_plain, if_at_most, plain_number, positive, negative, word};

/// The greatest word.
const GREATEST: u64 = 9_223_372_036_854_775_807;

fn is_digit(byte: u8) -> bool
    ensures { result ≡ is_digit byte }
{
    b'0' <= byte && byte <= b'9'
}

/// Returns true if all bytes are digits.
pub fn are_digits(bytes: &[u8]) -> bool
    ensures { result ≡ list_all is_digit bytes.now }
{
    bytes.iter().all(|byte| is_digit(*byte))
}

/// Returns true if a number is written only with digits, and without a leading 0.
fn is_plain(digits: &[u8]) -> bool
    ensures { result ≡ is_plain digits.now }
{
    match digits {
        [] => false,
        [digit] => is_digit(*digit),
        [first, rest @ ..] => is_digit(*first) && *first != b'0' && are_digits(rest),
    }
}

/// Ten times the value and the digit, if that is not too great.
fn with_digit(most: u64, value: u64, digit: u8) -> Option<u64>
    requires { most ≤ 2 ^ 63 }
    ensures { result ≡ if_at_most most (value * 10 + (digit - 48)) }
{
    if most / 10 < value {
        return None;
    }
    let larger = value * 10 + u64::from(digit.saturating_sub(b'0'));
    if most < larger { None } else { Some(larger) }
}

/// The number of these digits, if it is not too great.
#[tactic(auto, using(crate::proofs::Decimals::stays_above), unfolding(engine_meaning::specs::Digits::decimal_value))]
pub fn number_at_most(most: u64, digits: &[u8]) -> Option<u64>
    requires { most ≤ 2 ^ 63 }
    ensures { result ≡ if_at_most most (decimal_value digits.now) }
{
    let mut value = 0;
    for digit in digits {
        match with_digit(most, value, *digit) {
            Some(larger) => value = larger,
            None => return None,
        }
    }
    Some(value)
}

/// The number that is written plainly, if it is not too great.
pub fn plain_number(most: u64, digits: &[u8]) -> Option<u64>
    requires { most ≤ 2 ^ 63 }
    ensures { result ≡ plain_number most digits.now }
{
    if is_plain(digits) {
        number_at_most(most, digits)
    } else {
        None
    }
}

fn positive(number: Option<u64>) -> Option<i64>
    requires { IfSome number (λ n. n ≤ 2 ^ 63 - 1) }
    ensures { result ≡ positive number }
{
    match number {
        Some(number) => Some(number as i64),
        None => None,
    }
}

/// The number with a sign. There is no `-0`.
fn negative(number: Option<u64>) -> Option<i64>
    requires { IfSome number (λ n. n ≤ 2 ^ 63) }
    ensures { result ≡ negative number }
{
    match number {
        None | Some(0) => None,
        Some(number) => Some(-1 - (number - 1) as i64),
    }
}

/// The word of 64 bits that is written here.
pub fn word(text: &[u8]) -> Option<i64>
    ensures { result ≡ word text.now }
{
    match text {
        [] => None,
        [b'-', digits @ ..] => negative(plain_number(GREATEST + 1, digits)),
        _ => positive(plain_number(GREATEST, text)),
    }
}
