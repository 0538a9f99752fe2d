//! Laws of the definitions: their functions do nothing, and promise a law each.
//!
//! The state of a partition stores no number. Each process that becomes ready, goes last, or begins to
//! wait takes a fresh and greater number; the lists have the order of these numbers.

ghost use Rattle.std.specs.Prelude.{◌≡◌, ◌↔◌, ℕ, List, Some, slice_get};
ghost use Rattle.apex_types.specs.declared.codes.Discipline.{Discipline};
ghost use Rattle.apex_types.specs.declared.device.DeviceLine.{DeviceLine};
ghost use Rattle.apex_types.specs.declared.identity.At.{At};
ghost use Rattle.apex_types.specs.declared.identity.ListKey.{ListKey};
ghost use Rattle.apex_types.specs.declared.process.Entry.{Entry};
ghost use Rattle.engine_meaning.specs.Engine.{Engine};
ghost use Rattle.machine_meaning.specs.Image.{Image};
ghost use Rattle.machine_meaning.specs.ImageLimits.{IsWithinLimits};
ghost use Rattle.module_meaning.specs.Accepted.{IsModule};
ghost use Rattle.module_meaning.specs.Table.{Table, at_number};
ghost use Rattle.kernel_meaning.specs.Kernel.{Kernel};
ghost use Rattle.machine_meaning.specs.MachineControl.{MachineControl};
ghost use Rattle.kernel_meaning.specs.Partition.{Member, World};
ghost use Rattle.pal_meaning.specs.Program.{Program};
ghost use Rattle.pal_meaning.specs.SourceControl.{SourceControl};
ghost use Rattle.machine_meaning.specs.MachineMeaning.{machine_module};
ghost use Rattle.module_meaning.specs.SourceMeaning.{source_module};
ghost use Rattle.kernel_meaning.specs.Sharing.{waiting};
ghost use Rattle.kernel_laws.specs.WaitingOrder.{IsReleasedFirst};
ghost use Rattle.kernel_laws.specs.History.{Move, members_after};
ghost use Rattle.kernel_laws.specs.Names.{HasOwnNames, HaveOwnNames};
ghost use Rattle.kernel_laws.specs.Numbers.{Numbers};
ghost use Rattle.kernel_laws.specs.OrderLaw.{IsOrdered, ReadyPlaces, TickGoes};
ghost use Rattle.kernel_laws.specs.RunLaw.{HasOrder, HoldsReady, MoveGoes, RunGoes, RunIsNumbered, places_by};
ghost use Rattle.kernel_laws.specs.WhoWaits.{AreListed, HoldsWaiting};

/// A tick of a partition whose lists are in order continues its numbers, on any engine: on the
/// machine as on the sources. A process that its lines call ready takes a number. So does, by the call
/// of the chosen runner, a ready process that SET_PRIORITY names, and the caller of TIMED_WAIT without
/// a delay, if the service succeeds: it goes behind all others of its priority. So does a caller that
/// begins to wait: it is the last in the waiting list of the object or the port that its call names.
/// No other process takes a number.
pub fn tick_goes_on()
    ensures machine { (disciplines : ListKey → Discipline) (names : List (List ℕ)) (n : Numbers)
        (e : Engine MachineControl) (at : At) (w : World MachineControl)
        → IsOrdered disciplines names n w.kernel
        → (places : ReadyPlaces) × TickGoes disciplines names n places e at w }
    ensures source { (disciplines : ListKey → Discipline) (names : List (List ℕ)) (n : Numbers)
        (e : Engine SourceControl) (at : At) (w : World SourceControl)
        → IsOrdered disciplines names n w.kernel
        → (places : ReadyPlaces) × TickGoes disciplines names n places e at w }
{}

/// So does each step that a module makes of a partition: its ticks, its starts, a fault of its
/// hardware, and the messages that arrive at its ports and leave them. If the processes have names of
/// their own, those that become ready are those with the names that its lines call ready, and so the
/// numbers after the step are a function of it (`numbers_by`).
pub fn steps_go_on()
    ensures machine { (disciplines : ListKey → Discipline) (names : List (List ℕ)) (n : Numbers)
        (step : Move) (x : Member MachineControl) → IsOrdered disciplines names n x.world.kernel
        → (places : ReadyPlaces) × MoveGoes disciplines names n places step x }
    ensures source { (disciplines : ListKey → Discipline) (names : List (List ℕ)) (n : Numbers)
        (step : Move) (x : Member SourceControl) → IsOrdered disciplines names n x.world.kernel
        → (places : ReadyPlaces) × MoveGoes disciplines names n places step x }
    ensures machine_named { (disciplines : ListKey → Discipline) (names : List (List ℕ))
        (n : Numbers) (step : Move) (x : Member MachineControl) → HaveOwnNames names
        → IsOrdered disciplines names n x.world.kernel
        → MoveGoes disciplines names n (places_by names step x) step x }
    ensures source_named { (disciplines : ListKey → Discipline) (names : List (List ℕ))
        (n : Numbers) (step : Move) (x : Member SourceControl) → HaveOwnNames names
        → IsOrdered disciplines names n x.world.kernel
        → MoveGoes disciplines names n (places_by names step x) step x }
{}

/// In every state of every run, of every image and of all sources, the ready list and the waiting
/// lists of each partition have the order of its numbers, and each step continues them. So each
/// tick chooses the only runner that the numbers allow. If the processes of each partition have names
/// of their own, as in an image within its limits and in an accepted module, these are the numbers
/// that the moves of the run give (`numbers_in`).
pub fn order_in_every_run()
    ensures machine { (image : Image) (devices : List DeviceLine) (n : ℕ)
        → RunGoes (machine_module image) devices n }
    ensures source { (t : Table) (sources : List Program) (devices : List DeviceLine) (n : ℕ)
        → RunGoes (source_module t sources) devices n }
    ensures lawful { (image : Image) (devices : List DeviceLine) (n : ℕ) → IsWithinLimits image
        → RunIsNumbered (machine_module image) devices n }
    ensures named { (t : Table) (programs : List Program) (devices : List DeviceLine) (n : ℕ)
        → ((p : ℕ) (program : Program) → at_number programs p ≡ Some program
        → HasOwnNames program) → RunIsNumbered (source_module t programs) devices n }
    ensures accepted { (table : List ℕ) (sources : List (List ℕ)) (t : Table)
        (programs : List Program) (devices : List DeviceLine) (n : ℕ)
        → IsModule table sources t programs
        → RunIsNumbered (source_module t programs) devices n }
{}

/// So in the state after any number of ticks there are numbers by which the lists of each partition
/// are in order.
pub fn order_in_every_state()
    ensures machine { (image : Image) (devices : List DeviceLine) (n p : ℕ)
        (x : Member MachineControl)
        → at_number (members_after (machine_module image) devices n) p ≡ Some x
        → HasOrder (machine_module image) p x }
    ensures source { (t : Table) (sources : List Program) (devices : List DeviceLine) (n p : ℕ)
        (x : Member SourceControl)
        → at_number (members_after (source_module t sources) devices n) p ≡ Some x
        → HasOrder (source_module t sources) p x }
{}

/// In such a state the ready list of a partition holds exactly the processes whose records are
/// READY or RUNNING, each with its current priority.
pub fn ready_ones_are_listed()
    ensures machine { (image : Image) (devices : List DeviceLine) (n p : ℕ)
        (x : Member MachineControl)
        → at_number (members_after (machine_module image) devices n) p ≡ Some x → HoldsReady x }
    ensures source { (t : Table) (sources : List Program) (devices : List DeviceLine) (n p : ℕ)
        (x : Member SourceControl)
        → at_number (members_after (source_module t sources) devices n) p ≡ Some x → HoldsReady x }
{}

/// In such a state whoever stands in a waiting list of a partition is WAITING by its record, in a
/// service on an object or a port of this kind; it stands there once, and in no other list. If the
/// partition has at most 16 ports, and 16 objects of each kind, as in an image within its limits,
/// whoever waits for one of these by its record stands in a list. A record says for what kind of
/// object its process waits, and the list says for which: by `tick_goes_on` a process joins the list
/// that its call names.
pub fn waiting_ones_are_listed()
    ensures machine { (image : Image) (devices : List DeviceLine) (n p : ℕ)
        (x : Member MachineControl)
        → at_number (members_after (machine_module image) devices n) p ≡ Some x
        → HoldsWaiting (machine_module image) p x }
    ensures source { (t : Table) (sources : List Program) (devices : List DeviceLine) (n p : ℕ)
        (x : Member SourceControl)
        → at_number (members_after (source_module t sources) devices n) p ≡ Some x
        → HoldsWaiting (source_module t sources) p x }
    ensures lawful { (image : Image) (devices : List DeviceLine) (n p : ℕ)
        (x : Member MachineControl) → IsWithinLimits image
        → at_number (members_after (machine_module image) devices n) p ≡ Some x
        → AreListed x.world.kernel.processes.rows x.world.kernel.processes.queues }
{}

/// If the lists are in order, an entry is at the head of a waiting list if and only if it is to be
/// released first.
pub fn head_is_released_first()
    ensures { (disciplines : ListKey → Discipline) (names : List (List ℕ)) (n : Numbers) (k : Kernel)
        (list : ListKey) (e : Entry)
        → IsOrdered disciplines names n k
        → (slice_get (waiting k.processes list) 0 ≡ Some e
        ↔ IsReleasedFirst (disciplines list) n.waiting (waiting k.processes list) e) }
{}
