//! What the windows of a view of a trace show of a run.

ghost use Rattle.std.specs.Prelude.{◌≡◌, ℕ, List, Option};
ghost use Rattle.apex_types.specs.declared.event.Event.{Event};
ghost use Rattle.kernel_meaning.specs.Windows.{Schedule};
ghost use Rattle.trace_windows.specs.Whole.{AreWindowsIn};
ghost use Rattle.trace_windows.specs.declared.windows.Windows.{Windows};
ghost use Rattle.view_laws.specs.Windowed.{OwnersOfMachines, OwnersOfModules};

/// The windows of lines that are those of a run show whose each tick is, if the ticks are ticks of the
/// run: so it is in any run of a lawful image and of an accepted module.
pub fn windows_show_owners()
    ensures machine { (from until : ℕ) (known : Option (Schedule × List (List ℕ)))
        (lines : List Event) (windows : Option Windows)
        → AreWindowsIn known from until lines windows
        → OwnersOfMachines (λ trace. trace ≡ lines) from until known windows }
    ensures accepted { (from until : ℕ) (known : Option (Schedule × List (List ℕ)))
        (lines : List Event) (windows : Option Windows)
        → AreWindowsIn known from until lines windows
        → OwnersOfModules (λ trace. trace ≡ lines) from until known windows }
{}
