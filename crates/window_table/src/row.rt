//! Rows of partitions, of tables and of images.

ghost use Rattle.std.specs.Prelude.{◌≡◌};
ghost use Rattle.module_meaning.specs.Table.{Partition};
ghost use Rattle.window_table.specs.Views.{partition_view};

use crate::table::PartitionRow;

/// Values with a partition's row of the module table.
pub trait HasRow {
    ghost row_of: { Self → Partition };

    /// The row.
    fn row(&self) -> &PartitionRow
        ensures { partition_view result.now ≡ row_of self.now };
}

impl HasRow for PartitionRow {
    ghost row_of = { partition_view };

    fn row(&self) -> &PartitionRow {
        self
    }
}
