//! What the report of a summary says of a run.

ghost use Rattle.std.specs.Prelude.{◌≡◌, ℕ, List, Option};
ghost use Rattle.apex_types.specs.declared.event.Event.{Event};
ghost use Rattle.apex_types.specs.declared.identity.Ticks.{Ticks};
ghost use Rattle.kernel_meaning.specs.Windows.{Schedule};
ghost use Rattle.trace_view.specs.Reports.{IsReportOf};
ghost use Rattle.trace_view.specs.declared.report.Report.{Report};
ghost use Rattle.view_laws.specs.Reports.{TellsMachines, TellsModules};

/// The report of lines that are those of a run tells what the kernel did in the ticks that it shows,
/// if these are ticks of the run: so it is in any run of a lawful image and of an accepted module.
pub fn reports_tell_runs()
    ensures machine { (from : Ticks) (to : Option Ticks)
        (windows : Option (Schedule × List (List ℕ))) (lines : List Event) (report : Report)
        → IsReportOf from to windows lines report
        → TellsMachines (λ trace. trace ≡ lines) from windows report }
    ensures accepted { (from : Ticks) (to : Option Ticks)
        (windows : Option (Schedule × List (List ℕ))) (lines : List Event) (report : Report)
        → IsReportOf from to windows lines report
        → TellsModules (λ trace. trace ≡ lines) from windows report }
{}
