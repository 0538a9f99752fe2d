//! What the picture of a trace shows of a run.

ghost use Rattle.std.specs.Prelude.{◌≡◌, ℕ, List, Option};
ghost use Rattle.apex_types.specs.declared.event.Event.{Event};
ghost use Rattle.apex_types.specs.declared.identity.Ticks.{Ticks};
ghost use Rattle.kernel_meaning.specs.Windows.{Schedule};
ghost use Rattle.trace_picture.specs.Drawn.{IsDrawnOf};
ghost use Rattle.trace_picture.specs.declared.drawing.Drawing.{Drawing};
ghost use Rattle.view_laws.specs.Drawn.{DrawsMachines, DrawsModules};

/// The picture of lines that are those of a run shows what the kernel did in the ticks that it shows,
/// if these are ticks of the run: so it is in any run of a lawful image and of an accepted module.
pub fn drawings_show_runs()
    ensures machine { (from : Ticks) (to : Option Ticks)
        (windows : Option (Schedule × List (List ℕ))) (lines : List Event) (drawing : Drawing)
        → IsDrawnOf from to windows lines drawing
        → DrawsMachines (λ trace. trace ≡ lines) from windows drawing }
    ensures accepted { (from : Ticks) (to : Option Ticks)
        (windows : Option (Schedule × List (List ℕ))) (lines : List Event) (drawing : Drawing)
        → IsDrawnOf from to windows lines drawing
        → DrawsModules (λ trace. trace ≡ lines) from windows drawing }
{}
