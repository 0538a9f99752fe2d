//! Partitions whose counts are within their limits.

ghost use Rattle.std.specs.Prelude.{◌≡◌, ◌≤◌, length, map, false};
ghost use Rattle.std.specs.List.{list_any};
ghost use Rattle.apex_types.specs.Limits.{MOST_PARTITIONS};
ghost use Rattle.module_meaning.specs.TableRules.{has_many_ports};
ghost use Rattle.window_table.specs.Views.{partition_text};

use crate::written::WrittenPartition;

/// No more partitions than a module has, each with no more ports than a partition has.
#[derive(Clone, Copy)]
pub struct FewPartitions<'a> {
    pub rows: &'a [WrittenPartition<'a>],
    pub ghost few: { length rows.now ≤ MOST_PARTITIONS },
    pub ghost few_ports: { list_any has_many_ports (map partition_text rows.now) ≡ false },
}

/// The rows of a module's partitions in their order. There are no more than a module has.
#[derive(Drop)]
pub struct ModulePartitions<'a, P> {
    pub rows: &'a [P],
    pub ghost few: { length rows.now ≤ MOST_PARTITIONS },
}
