//! What the views show as states and modes.

ghost use Rattle.std.specs.Prelude.{◌≡◌, ◌<◌, ◌≤◌, ℕ, suc, false, true, List, None, Some};
ghost use Rattle.apex_types.specs.Limits.{MOST_TICKS};
ghost use Rattle.apex_types.specs.Line.{subject_text};
ghost use Rattle.apex_types.specs.declared.codes.Mode.{Mode};
ghost use Rattle.apex_types.specs.declared.codes.ProcessState.{ProcessState};
ghost use Rattle.apex_types.specs.declared.device.DeviceLine.{DeviceLine};
ghost use Rattle.apex_types.specs.declared.event.Event.{Event};
ghost use Rattle.apex_types.specs.declared.event.Subject.{Subject};
ghost use Rattle.apex_types.specs.declared.identity.Runner.{Runner};
ghost use Rattle.apex_types.specs.declared.process.ProcessStatus.{ProcessStatus};
ghost use Rattle.kernel_laws.specs.History.{members_after};
ghost use Rattle.kernel_meaning.specs.Partition.{Member};
ghost use Rattle.kernel_meaning.specs.Processes.{row_of};
ghost use Rattle.machine_meaning.specs.Image.{Image, Item};
ghost use Rattle.machine_meaning.specs.ImageLimits.{IsLawful};
ghost use Rattle.machine_meaning.specs.MachineControl.{MachineControl};
ghost use Rattle.machine_meaning.specs.MachineMeaning.{machine_module, machine_trace};
ghost use Rattle.module_meaning.specs.Accepted.{IsModule};
ghost use Rattle.module_meaning.specs.SourceMeaning.{source_module, source_trace};
ghost use Rattle.module_meaning.specs.Table.{Partition, Table, at_number};
ghost use Rattle.pal_meaning.specs.Program.{Program};
ghost use Rattle.pal_meaning.specs.SourceControl.{SourceControl};
ghost use Rattle.state_laws.specs.Told.{told};
ghost use Rattle.trace_stays.specs.Traces.{mode_behind_all, modes_in, stays_in};
ghost use Rattle.trace_windows.specs.Runs.{AreInOrder};
ghost use Rattle.trace_windows.specs.Uses.{one_if};
ghost use Rattle.view_laws.specs.Modes.{is_held, is_same_mode, mode_in};
ghost use Rattle.view_laws.specs.Reading.{up_to};
ghost use Rattle.view_laws.specs.Shown.{HasOwnWord, ShowsState, mode_shown, state_shown};
ghost use Rattle.view_laws.specs.Ticks.{is_resting, is_same_state, running_in, runs_in_tick, runs_told, state_in, works_in_tick};

/// The state that a view shows of a runner after lines is the one that these lines tell, if no other
/// runner in the lines has its word. The mode that it shows of a partition is the one that they tell.
pub fn lines_tell_what_is_shown()
    ensures mode { (lines : List Event) (name : List ℕ)
        → mode_shown lines name ≡ (told name lines).mode }
    ensures state { (lines : List Event) (name : List ℕ) (who : Subject)
        → HasOwnWord lines who
        → state_shown lines name who ≡ (told name lines).state who }
{}

/// In any run of a lawful image and of an accepted module a view shows after the lines up to a tick
/// what the kernel's state is after this tick: the mode of each partition, and the state of each
/// process, of INIT and of the error handler.
pub fn states_are_shown()
    ensures machine { (image : Image) (devices : List DeviceLine) (n t p : ℕ) (item : Item)
        (x : Member MachineControl)
        → IsLawful image
        → t < n
        → at_number image.items p ≡ Some item
        → at_number (members_after (machine_module image) devices (suc t)) p ≡ Some x
        → ShowsState (up_to t (machine_trace image devices n)) item.partition.name
        x.world.kernel }
    ensures accepted { (table : List ℕ) (sources : List (List ℕ)) (t : Table)
        (programs : List Program) (devices : List DeviceLine) (n i p : ℕ) (row : Partition)
        (x : Member SourceControl)
        → IsModule table sources t programs
        → i < n
        → at_number t.partitions p ≡ Some row
        → at_number (members_after (source_module t programs) devices (suc i)) p ≡ Some x
        → ShowsState (up_to i (source_trace t programs devices n)) row.name x.world.kernel }
{}

/// A tick is in a stay in RUNNING of a runner just if the runner is RUNNING after the lines of the tick,
/// or has left RUNNING by its work in it, and then it is in one such stay. So it is in lines in order in which
/// each runner becomes RUNNING in a tick that nobody of its partition has spent yet.
pub fn stays_tell_who_runs()
    ensures { (lines : List Event) (name : List ℕ) (who : Subject) (until t : ℕ)
        → HasOwnWord lines who
        → AreInOrder 0 lines
        → (told name lines).orderly ≡ true
        → t < until
        → t < MOST_TICKS
        → running_in t (stays_in lines until name (subject_text who) None)
        ≡ one_if (runs_told t who (told name (up_to t lines))) }
{}

/// In any run of a lawful image and of an accepted module a tick is in a stay in RUNNING of a runner just
/// if the runner spends it, or, in a tick that is not its partition's, is the current runner after it. Then it
/// is in one such stay.
pub fn stays_are_runs()
    ensures machine { (image : Image) (devices : List DeviceLine) (n until t p : ℕ) (item : Item)
        (who : Subject)
        → IsLawful image
        → t < n
        → t < until
        → n ≤ MOST_TICKS
        → at_number image.items p ≡ Some item
        → HasOwnWord (machine_trace image devices n) who
        → running_in t
        (stays_in (machine_trace image devices n) until item.partition.name (subject_text who) None)
        ≡ one_if (runs_in_tick (machine_module image) devices p who t) }
    ensures accepted { (table : List ℕ) (sources : List (List ℕ)) (t : Table)
        (programs : List Program) (devices : List DeviceLine) (n until i p : ℕ) (row : Partition)
        (who : Subject)
        → IsModule table sources t programs
        → i < n
        → i < until
        → n ≤ MOST_TICKS
        → at_number t.partitions p ≡ Some row
        → HasOwnWord (source_trace t programs devices n) who
        → running_in i
        (stays_in (source_trace t programs devices n) until row.name (subject_text who) None)
        ≡ one_if (runs_in_tick (source_module t programs) devices p who i) }
{}

/// In any run of a lawful image and of an accepted module a tick that a runner does not spend is in one
/// stay of the runner in READY or WAITING if this is its state after the tick, and else in none.
pub fn stays_are_states()
    ensures machine { (image : Image) (devices : List DeviceLine) (n until t p : ℕ) (item : Item)
        (x : Member MachineControl) (q : Runner) (r : ProcessStatus) (wanted : ProcessState)
        → IsLawful image
        → t < n
        → t < until
        → n ≤ MOST_TICKS
        → at_number image.items p ≡ Some item
        → at_number (members_after (machine_module image) devices (suc t)) p ≡ Some x
        → row_of x.world.kernel.processes q ≡ Some r
        → HasOwnWord (machine_trace image devices n) r.who
        → is_resting wanted ≡ true
        → works_in_tick (machine_module image) devices p r.who t ≡ false
        → state_in wanted t
        (stays_in (machine_trace image devices n) until item.partition.name
        (subject_text r.who) None)
        ≡ one_if (is_same_state wanted r.state) }
    ensures accepted { (table : List ℕ) (sources : List (List ℕ)) (t : Table)
        (programs : List Program) (devices : List DeviceLine) (n until i p : ℕ) (part : Partition)
        (x : Member SourceControl) (q : Runner) (r : ProcessStatus) (wanted : ProcessState)
        → IsModule table sources t programs
        → i < n
        → i < until
        → n ≤ MOST_TICKS
        → at_number t.partitions p ≡ Some part
        → at_number (members_after (source_module t programs) devices (suc i)) p ≡ Some x
        → row_of x.world.kernel.processes q ≡ Some r
        → HasOwnWord (source_trace t programs devices n) r.who
        → is_resting wanted ≡ true
        → works_in_tick (source_module t programs) devices p r.who i ≡ false
        → state_in wanted i
        (stays_in (source_trace t programs devices n) until part.name (subject_text r.who) None)
        ≡ one_if (is_same_state wanted r.state) }
{}

/// A tick is in one stay of a partition in the mode that the lines up to it lead to, and in none in
/// another mode.
pub fn stays_tell_the_mode()
    ensures { (lines : List Event) (name : List ℕ) (m : Mode) (until t : ℕ)
        → AreInOrder 0 lines
        → t < until
        → mode_in m t (modes_in lines until name None)
        ≡ one_if (is_held m (mode_behind_all (up_to t lines) name None)) }
{}

/// In any run of a lawful image and of an accepted module a tick is in one stay of each partition in
/// the mode that the partition has after it, and in none in another mode.
pub fn stays_are_modes()
    ensures machine { (image : Image) (devices : List DeviceLine) (n until t p : ℕ) (item : Item)
        (x : Member MachineControl) (m : Mode)
        → IsLawful image
        → t < n
        → t < until
        → at_number image.items p ≡ Some item
        → at_number (members_after (machine_module image) devices (suc t)) p ≡ Some x
        → mode_in m t (modes_in (machine_trace image devices n) until item.partition.name None)
        ≡ one_if (is_same_mode m x.world.kernel.mode) }
    ensures accepted { (table : List ℕ) (sources : List (List ℕ)) (t : Table)
        (programs : List Program) (devices : List DeviceLine) (n until i p : ℕ) (row : Partition)
        (x : Member SourceControl) (m : Mode)
        → IsModule table sources t programs
        → i < n
        → i < until
        → at_number t.partitions p ≡ Some row
        → at_number (members_after (source_module t programs) devices (suc i)) p ≡ Some x
        → mode_in m i (modes_in (source_trace t programs devices n) until row.name None)
        ≡ one_if (is_same_mode m x.world.kernel.mode) }
{}
