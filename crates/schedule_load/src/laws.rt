//! Laws of the load.

ghost use Rattle.std.specs.Prelude.{◌≡◌, ◌+◌, length, None, false};
ghost use Rattle.module_meaning.specs.Table.{Table};
ghost use Rattle.module_meaning.specs.ImageRules.{has_wrong_window};
ghost use Rattle.schedule_load.specs.Load.{owned_ticks, partition_loads};
ghost use Rattle.schedule_load.specs.Ownership.{ticks_of};

/// The ticks of all partitions and the unowned ticks are the ticks of the frame, in every table
/// whose windows are of its partitions, as those of an accepted table are.
pub fn ticks_add_up()
    ensures { (t : Table) → has_wrong_window t.schedule (length t.partitions) ≡ false
        → owned_ticks (partition_loads t.schedule 1 t.partitions)
        + ticks_of t.schedule None 0 t.schedule.frame
        ≡ t.schedule.frame }
{}
