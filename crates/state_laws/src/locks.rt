//! Who holds the preemption lock by the lines of every run.

ghost use Rattle.std.specs.Prelude.{◌≡◌, ℕ, List, Some};
ghost use Rattle.apex_types.specs.declared.device.DeviceLine.{DeviceLine};
ghost use Rattle.kernel_laws.specs.History.{members_after};
ghost use Rattle.kernel_laws.specs.Names.{HasOwnNames};
ghost use Rattle.kernel_meaning.specs.Partition.{Member};
ghost use Rattle.machine_meaning.specs.Image.{Image, Item};
ghost use Rattle.machine_meaning.specs.ImageLimits.{IsLawful};
ghost use Rattle.machine_meaning.specs.MachineControl.{MachineControl};
ghost use Rattle.machine_meaning.specs.MachineMeaning.{machine_module, machine_trace};
ghost use Rattle.module_meaning.specs.Accepted.{IsJudged, IsModule};
ghost use Rattle.module_meaning.specs.SourceMeaning.{source_module, source_trace};
ghost use Rattle.module_meaning.specs.Table.{Partition, Table, at_number};
ghost use Rattle.pal_meaning.specs.Program.{Program};
ghost use Rattle.pal_meaning.specs.SourceControl.{SourceControl};
ghost use Rattle.state_laws.specs.Locks.{lock_by_lines, lock_in};

/// After any number of ticks of any run of a lawful image, whoever holds the preemption lock of a
/// partition by the lines holds it in the kernel, at the same level; and if nobody does by the lines,
/// it is free.
/// So it is in any run of an accepted module, and of a judged table with programs whose processes
/// have names of their own.
pub fn lines_tell_the_lock()
    ensures machine { (image : Image) (devices : List DeviceLine) (n p : ℕ) (item : Item)
        (x : Member MachineControl)
        → IsLawful image
        → at_number image.items p ≡ Some item
        → at_number (members_after (machine_module image) devices n) p ≡ Some x
        → lock_by_lines item.partition.name (machine_trace image devices n)
        ≡ lock_in x.world.kernel }
    ensures source { (t : Table) (programs : List Program) (devices : List DeviceLine) (n p : ℕ)
        (row : Partition) (program : Program) (x : Member SourceControl)
        → IsJudged t
        → at_number t.partitions p ≡ Some row
        → at_number programs p ≡ Some program
        → HasOwnNames program
        → at_number (members_after (source_module t programs) devices n) p ≡ Some x
        → lock_by_lines row.name (source_trace t programs devices n) ≡ lock_in x.world.kernel }
    ensures accepted { (table : List ℕ) (sources : List (List ℕ)) (t : Table)
        (programs : List Program) (devices : List DeviceLine) (n p : ℕ) (row : Partition)
        (x : Member SourceControl)
        → IsModule table sources t programs
        → at_number t.partitions p ≡ Some row
        → at_number (members_after (source_module t programs) devices n) p ≡ Some x
        → lock_by_lines row.name (source_trace t programs devices n) ≡ lock_in x.world.kernel }
{}
