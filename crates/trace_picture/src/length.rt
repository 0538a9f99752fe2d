//! Lengths and places in the picture.

ghost use Rattle.std.specs.Prelude.{◌≡◌, max};
ghost use Rattle.trace_picture.specs.Lengths.{behind, before, half_of, times_of};

use std::fmt::{self, Display, Formatter, Write};
use std::ops::{Add, Sub};

/// A length in tenths of a pixel. A sum that is too great is the greatest length, and a difference
/// below 0 is 0.
#[derive(Clone, Copy)]
pub struct Length(pub u64);

impl Length {
    /// `count` times this length.
    pub fn times(self, count: u64) -> Length
        ensures { result ≡ times_of self count }
    {
        Length(self.0.saturating_mul(count))
    }

    /// The half of this length.
    pub fn half(self) -> Length
        ensures { result ≡ half_of self }
    {
        Length(self.0 / 2)
    }

    /// This length, or the other one if that is greater.
    pub fn at_least(self, least: Length) -> Length
        ensures { result.0 ≡ max self.0 least.0 }
    {
        Length(self.0.max(least.0))
    }
}

impl Add for Length {
    type Output = Length;

    ghost add_gives = { λ one other sum. sum ≡ behind one other };

    fn add(self, other: Length) -> Length {
        Length(self.0.saturating_add(other.0))
    }
}

impl Sub for Length {
    type Output = Length;

    ghost sub_gives = { λ one other rest. rest ≡ before one other };

    fn sub(self, other: Length) -> Length {
        Length(self.0.saturating_sub(other.0))
    }
}

/// Displays in pixels, with one decimal where it is not whole.
impl Display for Length {
    ghost use Rattle.std.specs.Prelude.{Some};
    ghost use Rattle.trace_picture.specs.Element.{length_text};

    ghost output = { λ length. Some (length_text length) };

    fn fmt<W: Write>(&self, f: &mut Formatter<W>) -> fmt::Result {
        if self.0 % 10 == 0 {
            return write!(f, "{}", self.0 / 10);
        }
        write!(f, "{}.{}", self.0 / 10, self.0 % 10)
    }
}
