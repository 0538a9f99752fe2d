//! Partitions with the sections compiled from their sources.

use apex_types::Section;
use window_table::{HasRow, PartitionRow};

/// A partition's row of the module table with the section compiled from its source.
#[derive(Drop)]
pub struct PartitionItem {
    pub row: PartitionRow,
    pub section: Section,
}

impl HasRow for PartitionItem {
    ghost use Rattle.window_table.specs.Views.{partition_view};

    ghost row_of = { λ it. partition_view it.row };

    fn row(&self) -> &PartitionRow {
        &self.row
    }
}
