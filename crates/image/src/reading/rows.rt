//! Lists of rows.

ghost use Rattle.std.specs.Prelude.{◌≡◌, ◌++◌, ℕ, List, [], Result, OnOk};
ghost use Rattle.std.specs.List.{flat_map};
ghost use Rattle.machine_meaning.specs.ImageReading.{Read, items_at, list_at};
ghost use Rattle.machine_meaning.specs.ImageSpelling.{list};
ghost use Rattle.image.specs.Views.{Gives};

use crate::fault::ImageFault;
use crate::reading::numbers::u32_within;
use apex_types::Limits;
use std::alloc::Global;

/// A row of fixed form that is in lists.
pub trait Row: Copy + Drop {
    ghost use Rattle.apex_types.specs.declared.version.Limits.{Limits as Bounds};

    /// How a row is read, within these limits, after those before it.
    ghost reads: { Bounds → List Self → List ℕ → Read Self };

    /// The next row, judged together with those before it.
    fn read<'a>(
        limits: Limits,
        before: &[Self],
        bytes: &'a [u8],
    ) -> Result<(Self, &'a [u8]), ImageFault>
        ensures { Gives (λ x. (x.0, x.1.now)) result (reads limits before.now bytes.now) };
}

/// Reads `count` rows.
pub fn rows_at<T: Row>(
    alloc: Global,
    limits: Limits,
    count: u32,
    bytes: &[u8],
) -> Result<(Vec<T>, &[u8]), ImageFault>
    ensures { Gives (λ x. (x.0.items, x.1.now)) result
        (items_at (T.reads limits) count [] bytes.now) }
{
    let mut rows = Vec::new(alloc);
    let mut rest = bytes;
    for _ in 0..count {
        let (row, after) = T::read(limits, &rows, rest)?;
        rows.push(row)?;
        rest = after;
    }
    Ok((rows, rest))
}

/// A count from `low` to `high`, and the rows.
#[tactic(auto, unfolding(machine_meaning::specs::ImageReading::list_at))]
pub fn list_at<T: Row>(
    alloc: Global,
    limits: Limits,
    bytes: &[u8],
    low: u32,
    high: u32,
) -> Result<(Vec<T>, &[u8]), ImageFault>
    ensures { Gives (λ x. (x.0.items, x.1.now)) result
        (list_at low high (T.reads limits) bytes.now) }
{
    let (count, rest) = u32_within(bytes, low, high)?;
    rows_at(alloc, limits, count, rest)
}
