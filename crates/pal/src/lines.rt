//! The result of a check of a rule: nothing, or the line that breaks the rule.

ghost use Rattle.std.specs.Prelude.{◌≡◌, ◌&&◌, is_ok};

/// A line of a source text, from 1.
#[derive(Clone, Copy)]
pub struct Line(pub u32);

/// The result of a check: nothing if the rule holds, else the first line that breaks it.
///
/// A check that goes through the text in its order stops at the first error with `?`. If a later
/// test may be about an earlier line, [`earliest`] takes both results.
pub type Check = Result<(), Line>;

/// Both checks; if both fail, the earlier of the two lines.
pub fn earliest(one: Check, other: Check) -> Check
    ensures { is_ok result ≡ (is_ok one && is_ok other) }
{
    match (one, other) {
        (Err(Line(one)), Err(Line(other))) => Err(Line(one.min(other))),
        (Err(line), Ok(())) | (Ok(()), Err(line)) => Err(line),
        (Ok(()), Ok(())) => Ok(()),
    }
}

/// The result of a test at a line.
pub fn check_that(holds: bool, line: u32) -> Check
    ensures { is_ok result ≡ holds }
{
    if holds { Ok(()) } else { Err(Line(line)) }
}
