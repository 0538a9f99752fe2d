//! Partitions with the sections compiled from their sources.

ghost use Rattle.std.specs.Prelude.{◌≡◌, ◌++◌, OnOk};
ghost use Rattle.machine_meaning.specs.ImageSpelling.{item};
ghost use Rattle.image.specs.Items.{item_of};

use crate::item::PartitionItem;
use crate::writing::rows::Spelled;
use crate::writing::sections::put_section;
use crate::writing::tables::put_partition;
use std::alloc::AllocError;

impl Spelled for PartitionItem {
    ghost spelled = { λ it. item (item_of it) };

    #[tactic(auto, unfolding(machine_meaning::specs::ImageSpelling::item))]
    fn write(&self, out: &mut Vec<u8>) -> Result<(), AllocError> {
        put_partition(out, &self.row)?;
        put_section(out, &self.section)
    }
}
