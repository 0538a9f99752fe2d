//! What the lines of every run say of the states of a partition, and of who spends its ticks.

ghost use Rattle.std.specs.Prelude.{◌≡◌, ◌≢◌, ℕ, suc, true, List, None, Some};
ghost use Rattle.apex_types.specs.declared.device.DeviceLine.{DeviceLine};
ghost use Rattle.kernel_laws.specs.History.{members_after};
ghost use Rattle.kernel_laws.specs.Names.{HasOwnNames};
ghost use Rattle.kernel_meaning.specs.Partition.{Member};
ghost use Rattle.machine_meaning.specs.Image.{Image, Item};
ghost use Rattle.machine_meaning.specs.ImageLimits.{IsLawful};
ghost use Rattle.machine_meaning.specs.MachineControl.{MachineControl};
ghost use Rattle.machine_meaning.specs.MachineMeaning.{machine_module, machine_trace};
ghost use Rattle.module_meaning.specs.Accepted.{IsJudged, IsModule};
ghost use Rattle.module_meaning.specs.SourceMeaning.{source_module, source_trace};
ghost use Rattle.module_meaning.specs.Table.{Partition, Table, at_number};
ghost use Rattle.pal_meaning.specs.Program.{Program};
ghost use Rattle.pal_meaning.specs.SourceControl.{SourceControl};
ghost use Rattle.state_laws.specs.Spending.{owner_in, worker};
ghost use Rattle.state_laws.specs.Starts.{starts_in};
ghost use Rattle.state_laws.specs.States.{TellsState};
ghost use Rattle.state_laws.specs.Told.{told, worked_in, worker_by_lines};

/// After any number of ticks of any run of a lawful image, what the lines say of a partition is its
/// state: its mode and start condition, the state of INIT, of the error handler and of each process, and
/// who is RUNNING.
/// So it is in any run of an accepted module, and of a judged table with programs whose processes
/// have names of their own.
pub fn lines_tell_the_state()
    ensures machine { (image : Image) (devices : List DeviceLine) (n p : ℕ) (item : Item)
        (x : Member MachineControl)
        → IsLawful image
        → at_number image.items p ≡ Some item
        → at_number (members_after (machine_module image) devices n) p ≡ Some x
        → TellsState (told item.partition.name (machine_trace image devices n)) x.world.kernel }
    ensures source { (t : Table) (programs : List Program) (devices : List DeviceLine) (n p : ℕ)
        (row : Partition) (program : Program) (x : Member SourceControl)
        → IsJudged t
        → at_number t.partitions p ≡ Some row
        → at_number programs p ≡ Some program
        → HasOwnNames program
        → at_number (members_after (source_module t programs) devices n) p ≡ Some x
        → TellsState (told row.name (source_trace t programs devices n)) x.world.kernel }
    ensures accepted { (table : List ℕ) (sources : List (List ℕ)) (t : Table)
        (programs : List Program) (devices : List DeviceLine) (n p : ℕ) (row : Partition)
        (x : Member SourceControl)
        → IsModule table sources t programs
        → at_number t.partitions p ≡ Some row
        → at_number (members_after (source_module t programs) devices n) p ≡ Some x
        → TellsState (told row.name (source_trace t programs devices n)) x.world.kernel }
{}

/// In any such run the starts that the lines tell of a partition are those that the kernel makes: in the
/// same ticks and modes, and with the start conditions that the kernel then has.
pub fn lines_tell_the_starts()
    ensures machine { (image : Image) (devices : List DeviceLine) (n p : ℕ) (item : Item)
        → IsLawful image
        → at_number image.items p ≡ Some item
        → (told item.partition.name (machine_trace image devices n)).starts
        ≡ starts_in (machine_module image) devices p n }
    ensures source { (t : Table) (programs : List Program) (devices : List DeviceLine) (n p : ℕ)
        (row : Partition) (program : Program)
        → IsJudged t
        → at_number t.partitions p ≡ Some row
        → at_number programs p ≡ Some program
        → HasOwnNames program
        → (told row.name (source_trace t programs devices n)).starts
        ≡ starts_in (source_module t programs) devices p n }
    ensures accepted { (table : List ℕ) (sources : List (List ℕ)) (t : Table)
        (programs : List Program) (devices : List DeviceLine) (n p : ℕ) (row : Partition)
        → IsModule table sources t programs
        → at_number t.partitions p ≡ Some row
        → (told row.name (source_trace t programs devices n)).starts
        ≡ starts_in (source_module t programs) devices p n }
{}

/// In each tick of any such run, who spends it by the lines is the runner that the owner of its
/// window chooses, or nobody if the owner chooses nobody.
pub fn lines_tell_who_works()
    ensures machine { (image : Image) (devices : List DeviceLine) (n p : ℕ) (item : Item)
        → IsLawful image
        → at_number image.items p ≡ Some item
        → owner_in (machine_module image) devices n ≡ Some p
        → worker_by_lines n (told item.partition.name (machine_trace image devices (suc n)))
        ≡ worker (machine_module image) devices n }
    ensures source { (t : Table) (programs : List Program) (devices : List DeviceLine) (n p : ℕ)
        (row : Partition) (program : Program)
        → IsJudged t
        → at_number t.partitions p ≡ Some row
        → at_number programs p ≡ Some program
        → HasOwnNames program
        → owner_in (source_module t programs) devices n ≡ Some p
        → worker_by_lines n (told row.name (source_trace t programs devices (suc n)))
        ≡ worker (source_module t programs) devices n }
    ensures accepted { (table : List ℕ) (sources : List (List ℕ)) (t : Table)
        (programs : List Program) (devices : List DeviceLine) (n p : ℕ) (row : Partition)
        → IsModule table sources t programs
        → at_number t.partitions p ≡ Some row
        → owner_in (source_module t programs) devices n ≡ Some p
        → worker_by_lines n (told row.name (source_trace t programs devices (suc n)))
        ≡ worker (source_module t programs) devices n }
{}

/// In any such run each runner becomes RUNNING in a tick that nobody of its partition has spent yet, by
/// the lines before it. So at most one is RUNNING, and at most one works in a tick.
pub fn runners_run_in_turn()
    ensures machine { (image : Image) (devices : List DeviceLine) (n p : ℕ) (item : Item)
        → IsLawful image
        → at_number image.items p ≡ Some item
        → (told item.partition.name (machine_trace image devices n)).orderly ≡ true }
    ensures source { (t : Table) (programs : List Program) (devices : List DeviceLine) (n p : ℕ)
        (row : Partition) (program : Program)
        → IsJudged t
        → at_number t.partitions p ≡ Some row
        → at_number programs p ≡ Some program
        → HasOwnNames program
        → (told row.name (source_trace t programs devices n)).orderly ≡ true }
    ensures accepted { (table : List ℕ) (sources : List (List ℕ)) (t : Table)
        (programs : List Program) (devices : List DeviceLine) (n p : ℕ) (row : Partition)
        → IsModule table sources t programs
        → at_number t.partitions p ≡ Some row
        → (told row.name (source_trace t programs devices n)).orderly ≡ true }
{}

/// In a tick that another partition owns, or none, nobody of a partition works by the lines.
pub fn only_the_owner_works()
    ensures machine { (image : Image) (devices : List DeviceLine) (n p : ℕ) (item : Item)
        → IsLawful image
        → at_number image.items p ≡ Some item
        → owner_in (machine_module image) devices n ≢ Some p
        → worked_in n (told item.partition.name (machine_trace image devices (suc n))).worked
        ≡ None }
    ensures accepted { (table : List ℕ) (sources : List (List ℕ)) (t : Table)
        (programs : List Program) (devices : List DeviceLine) (n p : ℕ) (row : Partition)
        → IsModule table sources t programs
        → at_number t.partitions p ≡ Some row
        → owner_in (source_module t programs) devices n ≢ Some p
        → worked_in n (told row.name (source_trace t programs devices (suc n))).worked ≡ None }
{}
