//! The choice of the process: the list of the ready processes, and their numbers.

ghost use Rattle.std.specs.Prelude.{◌≡◌, ◌↔◌, ◌+◌, ℕ, List, Some};
ghost use Rattle.apex_types.specs.declared.codes.Mode.{Mode};
ghost use Rattle.apex_types.specs.declared.identity.Runner.{Runner};
ghost use Rattle.apex_types.specs.declared.process.Entry.{Entry};
ghost use Rattle.kernel_laws.specs.Choice.{IsNumbered, Picks, takes};
ghost use Rattle.kernel_meaning.specs.Partition.{pick};
ghost use Rattle.kernel_meaning.specs.Processes.{Processes, without, behind_equals};

/// When a process is no longer ready, the others keep their order by their numbers.
pub fn one_leaves()
    ensures { (number : ℕ → ℕ) (next p : ℕ) (ready : List Entry) → IsNumbered number next ready
        → IsNumbered number next (without p ready) }
{}

/// A process that becomes ready, or goes last, takes a fresh and greater number.
pub fn one_goes_last()
    ensures { (number : ℕ → ℕ) (next : ℕ) (e : Entry) (ready : List Entry)
        → IsNumbered number next ready
        → IsNumbered (takes number e.process.0 next) (next + 1)
        (behind_equals e (without e.process.0 ready)) }
{}

/// A runner is chosen if and only if it may run; so no second runner may run.
pub fn chosen_is_the_one()
    ensures { (number : ℕ → ℕ) (next : ℕ) (mode : Mode) (s : Processes) (p : Runner)
        → IsNumbered number next s.ready → (pick mode s ≡ Some p ↔ Picks number mode s p) }
{}
