//! Times, and their percentiles.

ghost use Rattle.std.specs.Prelude.{◌≡◌, ◌*◌, ◌-◌, ◌^◌, ◌≤◌, ◌∷◌, [], ℕ, List, OnErr, OnOk, true};
ghost use Rattle.trace_view.specs.Percentiles.{AreTimes, IsPercentile, IsSpread, all_of, are_rising, percent_of, percentile_of, reached, spread_of};

use std::alloc::Global;
use std::collections::BTreeMap;
use trace_stays::MemoryFull;

/// The least time such that this part of all times are at most as long.
#[derive(Clone, Copy, PartialEq, Eq)]
pub enum Percentile {
    /// Half of them.
    Median,
    /// 95 of 100.
    NinetyFifth,
}

/// Two percentiles of the same times; `None` if there were none.
#[derive(Clone, Copy)]
pub struct Spread {
    pub median: Option<u64>,
    pub ninety_fifth: Option<u64>,
}

/// Times, each with how often it was taken. The memory grows with the times that differ.
#[derive(Drop)]
pub struct Times {
    counts: BTreeMap<u64, u64>,
    /// How many were taken.
    taken: u64,
    ghost rising: { are_rising counts.entries ≡ true },
    ghost whole: { taken ≡ all_of counts.entries },
    ghost fits: { taken ≤ 2 ^ 64 - 1 },
}

impl Times {
    ghost use Rattle.trace_view.specs.Percentiles.{often};

    /// No times.
    pub fn new(alloc: Global) -> Times
        ensures { AreTimes [] result.counts.entries }
    {
        Times {
            counts: BTreeMap::new(alloc),
            taken: 0,
        }
    }

    /// Takes one more time.
    ///
    /// # Errors
    ///
    /// Memory ran out, or 64 bits cannot count one time more. Then it is not taken.
    pub fn take(&mut self, time: u64) -> Result<(), MemoryFull>
        ensures taken { OnOk result
            ((times : List ℕ) → AreTimes times self.old.counts.entries
            → AreTimes (time ∷ times) self.new.counts.entries) }
        ensures kept { OnErr result (self.new.counts.entries ≡ self.old.counts.entries) }
    {
        let Some(taken) = self.taken.checked_add(1) else {
            return Err(MemoryFull);
        };
        let Some(often) = self.often(time).checked_add(1) else {
            return Err(MemoryFull);
        };
        self.counts.insert(time, often)?;
        self.taken = taken;
        Ok(())
    }

    /// How often this time was taken.
    fn often(&self, time: u64) -> u64
        ensures { result ≡ often time self.now.counts.entries }
    {
        self.counts.get(&time).copied().unwrap_or(0)
    }

    /// The percentiles of the times that were taken.
    pub fn spread(&self) -> Spread
        ensures value { result ≡ spread_of self.now.taken self.now.counts.entries }
        ensures times { (times : List ℕ) → AreTimes times self.now.counts.entries
            → IsSpread times result }
    {
        Spread {
            median: self.percentile(Percentile::Median),
            ninety_fifth: self.percentile(Percentile::NinetyFifth),
        }
    }

    /// The percentile of the times that were taken; `None` if none was.
    pub fn percentile(&self, which: Percentile) -> Option<u64>
        ensures value { result ≡ percentile_of which self.now.taken self.now.counts.entries }
        ensures times { (times : List ℕ) → AreTimes times self.now.counts.entries
            → IsPercentile (percent_of which) times result }
    {
        if self.taken == 0 {
            return None;
        }
        self.reached(self.wanted(which))
    }

    /// How many times have to be at most as long as a percentile, in hundredths.
    fn wanted(&self, which: Percentile) -> u128
        ensures { result ≡ percent_of which * self.now.taken }
    {
        match which {
            Percentile::Median => 50 * u128::from(self.taken),
            Percentile::NinetyFifth => 95 * u128::from(self.taken),
        }
    }

    /// The first time with which `wanted` times are taken, in hundredths.
    fn reached(&self, wanted: u128) -> Option<u64>
        ensures { result ≡ reached wanted 0 self.now.counts.entries }
    {
        let mut before: u64 = 0;
        for (time, often) in &self.counts {
            before = before.saturating_add(*often);
            if wanted <= u128::from(before) * 100 {
                return Some(*time);
            }
        }
        None
    }
}
