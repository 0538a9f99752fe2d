//! Lists of values.

ghost use Rattle.std.specs.Prelude.{◌≡◌, ◌++◌, ℕ, List, OnOk};
ghost use Rattle.std.specs.List.{flat_map};
ghost use Rattle.machine_meaning.specs.ImageSpelling.{list};

use crate::writing::numbers::put_count;
use std::alloc::AllocError;

/// A value that has a spelling.
pub trait Spelled {
    ghost spelled: { Self → List ℕ };

    /// Appends the value's spelling.
    fn write(&self, out: &mut Vec<u8>) -> Result<(), AllocError>
        ensures { OnOk result (out.new.items ≡ out.old.items ++ spelled self.now) };
}

/// Appends the spelling of each row.
pub fn put_rows<T: Spelled>(out: &mut Vec<u8>, rows: &[T]) -> Result<(), AllocError>
    ensures { OnOk result (out.new.items ≡ out.old.items ++ flat_map T.spelled rows.now) }
{
    for row in rows {
        row.write(out)?;
    }
    Ok(())
}

/// A count and the rows.
#[tactic(auto, unfolding(machine_meaning::specs::ImageSpelling::list))]
pub fn put_list<T: Spelled>(out: &mut Vec<u8>, rows: &[T]) -> Result<(), AllocError>
    ensures { OnOk result (out.new.items ≡ out.old.items ++ list T.spelled rows.now) }
{
    put_count(out, rows.len())?;
    put_rows(out, rows)
}
