//! The results of operators.

ghost use Rattle.std.specs.Prelude.{◌≡◌};
ghost use Rattle.engine_meaning.specs.Operators.{apply_binary, apply_unary, truth};

use apex_types::{BinaryOperator, UnaryOperator};

/// The result of a test as a word: 1 if it holds, otherwise 0.
fn truth(holds: bool) -> i64
    ensures { result ≡ truth holds }
{
    if holds { 1 } else { 0 }
}

/// The quotient, rounded toward zero; `None` if the divisor is 0 or the quotient is not a word.
fn divide(a: i64, b: i64) -> Option<i64>
    ensures { result ≡ apply_binary BinaryOperator.Divide a b }
{
    if b == 0 { None } else { a.checked_div(b) }
}

/// The remainder, with the sign of the dividend; `None` if the divisor is 0.
fn remainder(a: i64, b: i64) -> Option<i64>
    ensures { result ≡ apply_binary BinaryOperator.Remainder a b }
{
    if b == 0 {
        None
    } else {
        Some(a.wrapping_rem(b))
    }
}

/// The result of an operator for its two operands; `None` for a numeric error.
pub fn apply_binary(operator: BinaryOperator, a: i64, b: i64) -> Option<i64>
    ensures { result ≡ apply_binary operator a b }
{
    match operator {
        BinaryOperator::Add => a.checked_add(b),
        BinaryOperator::Subtract => a.checked_sub(b),
        BinaryOperator::Multiply => a.checked_mul(b),
        BinaryOperator::Divide => divide(a, b),
        BinaryOperator::Remainder => remainder(a, b),
        BinaryOperator::Equal => Some(truth(a == b)),
        BinaryOperator::NotEqual => Some(truth(a != b)),
        BinaryOperator::Less => Some(truth(a < b)),
        BinaryOperator::LessOrEqual => Some(truth(a <= b)),
        BinaryOperator::Greater => Some(truth(a > b)),
        BinaryOperator::GreaterOrEqual => Some(truth(a >= b)),
        BinaryOperator::And => Some(truth(a != 0 && b != 0)),
        BinaryOperator::Or => Some(truth(a != 0 || b != 0)),
    }
}

/// The result of an operator for its operand; `None` for a numeric error.
pub fn apply_unary(operator: UnaryOperator, a: i64) -> Option<i64>
    ensures { result ≡ apply_unary operator a }
{
    match operator {
        UnaryOperator::Negate => a.checked_neg(),
        UnaryOperator::Not => Some(truth(a == 0)),
    }
}
