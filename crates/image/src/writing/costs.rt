//! Writing the fields that images of a version have.

ghost use Rattle.std.specs.Prelude.{◌≡◌, ◌++◌, OnOk};
ghost use Rattle.machine_meaning.specs.ImageSpelling.{u16, costs, own_fields};

use crate::writing::rows::{Spelled, put_rows};
use apex_types::{Costs, ImageVersion, TickCost};
use std::alloc::AllocError;

impl Spelled for TickCost {
    ghost spelled = { λ cost. u16 cost.ticks };

    fn write(&self, out: &mut Vec<u8>) -> Result<(), AllocError> {
        out.extend_from_slice(&(self.ticks as u16).to_le_bytes())
    }
}

/// The costs, in the order of the keys of a module table.
#[tactic(auto, unfolding(machine_meaning::specs::ImageSpelling::costs))]
fn put_costs(out: &mut Vec<u8>, own: &Costs) -> Result<(), AllocError>
    ensures { OnOk result (out.new.items ≡ out.old.items ++ costs own.now) }
{
    put_rows(out, &own.in_order())
}

/// The fields of images of this version: the first has none, the others their costs.
#[tactic(auto, unfolding(machine_meaning::specs::ImageSpelling::own_fields))]
pub fn put_own_fields(out: &mut Vec<u8>, version: ImageVersion) -> Result<(), AllocError>
    ensures { OnOk result (out.new.items ≡ out.old.items ++ own_fields version) }
{
    match version {
        ImageVersion::First => Ok(()),
        ImageVersion::Second { costs } | ImageVersion::Third { costs } => put_costs(out, &costs),
    }
}
