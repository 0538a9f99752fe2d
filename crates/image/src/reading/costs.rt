//! Reading the fields that images of a version have.

ghost use Rattle.std.specs.Prelude.{◌≡◌};
ghost use Rattle.machine_meaning.specs.ImageReading.{cost_at, costs_at, own_fields_at};
ghost use Rattle.image.specs.Views.{Gives};

use crate::fault::ImageFault;
use crate::reading::numbers::u16_at;
use crate::reading::rows::{Row, rows_at};
use apex_types::{COST_KEYS, Costs, FIRST_VERSION, ImageVersion, Limits, SECOND_VERSION, TickCost};
use std::alloc::Global;

impl Row for TickCost {
    ghost reads = { λ _ _. cost_at };

    #[tactic(auto, unfolding(machine_meaning::specs::ImageReading::cost_at))]
    fn read<'a>(
        _limits: Limits,
        _before: &[TickCost],
        bytes: &'a [u8],
    ) -> Result<(TickCost, &'a [u8]), ImageFault> {
        let (ticks, rest) = u16_at(bytes)?;
        let cost = TickCost::new(u32::from(ticks)).ok_or(ImageFault::Limit)?;
        Ok((cost, rest))
    }
}

/// The costs, in the order of the keys of a module table.
#[tactic(auto, unfolding(machine_meaning::specs::ImageReading::costs_at))]
fn costs_at(alloc: Global, bytes: &[u8]) -> Result<(Costs, &[u8]), ImageFault>
    ensures { Gives (λ x. (x.0, x.1.now)) result (costs_at bytes.now) }
{
    let (costs, rest) = rows_at::<TickCost>(
        alloc,
        ImageVersion::First.limits(),
        COST_KEYS as u32,
        bytes,
    )?;
    let costs = Costs::from_order(&costs).ok_or(ImageFault::Limit)?;
    Ok((costs, rest))
}

/// The fields of images of the version with this number: the first has none, the others their costs.
#[tactic(auto, unfolding(machine_meaning::specs::ImageReading::own_fields_at))]
pub fn own_fields_at(
    alloc: Global,
    number: u16,
    bytes: &[u8],
) -> Result<(ImageVersion, &[u8]), ImageFault>
    ensures { Gives (λ x. (x.0, x.1.now)) result (own_fields_at number bytes.now) }
{
    if number == FIRST_VERSION {
        return Ok((ImageVersion::First, bytes));
    }
    let (costs, rest) = costs_at(alloc, bytes)?;
    let version = match number {
        SECOND_VERSION => ImageVersion::Second { costs },
        _ => ImageVersion::Third { costs },
    };
    Ok((version, rest))
}
