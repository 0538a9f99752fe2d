//! Shares of a whole.

ghost use Rattle.std.specs.Prelude.{◌≡◌};

use std::fmt;

/// A share of a whole, in tenths of a percent.
#[derive(Clone, Copy)]
pub struct Share {
    pub tenths: u64,
}

impl Share {
    ghost use Rattle.number_tables.specs.Shares.{share_of};

    /// The share of a part in a whole: the nearest tenth of a percent, and of two that are as near
    /// the greater one. It is at most 1,000. Of nothing each share is 0.
    pub fn of(part: u64, whole: u64) -> Share
        ensures { result.tenths ≡ share_of part whole }
    {
        if whole == 0 {
            return Share { tenths: 0 };
        }
        let part = u128::from(part.min(whole));
        let whole = u128::from(whole);
        Share {
            tenths: ((2000 * part + whole) / (2 * whole)) as u64,
        }
    }
}

/// In percent, with one decimal.
impl fmt::Display for Share {
    fn fmt<W: fmt::Write>(&self, f: &mut fmt::Formatter<W>) -> fmt::Result {
        let whole = self.tenths / 10;
        let rest = self.tenths % 10;
        write!(f, "{whole}.{rest}")
    }
}
