//! Shares of a whole.

ghost use Rattle.std.specs.Prelude.{◌≡◌};

/// A share of a whole, in tenths of a percent.
#[derive(Clone, Copy)]
pub struct Share {
    pub tenths: u64,
}

impl Share {
    ghost use Rattle.schedule_load.specs.Shares.{share_of};

    /// The share of a part in a whole: the nearest tenth of a percent, and of two that are as near
    /// the greater one. It may be above 1,000. Of nothing each share is 0.
    pub fn of(part: u64, whole: u64) -> Share
        ensures { result ≡ share_of part whole }
    {
        if whole == 0 {
            return Share { tenths: 0 };
        }
        let all = u128::from(whole);
        let tenths = (2000 * u128::from(part) + all) / (2 * all);
        Share {
            tenths: tenths.min(u128::from(u64::MAX)) as u64,
        }
    }
}
