//! A trace is read to its end, and summed up.

ghost use Rattle.std.specs.Prelude.{◌≡◌, true, IfErr, IfOk, OnOk, string_bytes};
ghost use Rattle.trace_lines.specs.Filters.{is_viewed};
ghost use Rattle.trace_view.specs.Reports.{HasCounted};
ghost use Rattle.view_command.specs.Answers.{IsUnread};
ghost use Rattle.view_command.specs.Orders.{number_of};
ghost use Rattle.view_command.specs.Summed.{AreLinesIn, IsReportIn};
ghost use Rattle.view_command.specs.Texts.{IsTraceOf};
ghost use Rattle.view_command.specs.Windows.{windows_known};
ghost use Rattle.view_laws.specs.Reports.{TellsMachines, TellsModules};

use crate::naming::Names;
use crate::opening::Opened;
use crate::refusal::Refusal;
use crate::request::Showing;
use crate::showing::read_named;
use crate::views::{TakeEvents, ViewFault};
use crate::windows::shares_of;
use apex_types::Event;
use std::alloc::Global;
use std::io::Read;
use trace_lines::Filter;
use trace_view::{Report, Summary};
use window_table::ModuleTable;

impl TakeEvents for Summary {
    ghost takes = { λ kept e old new. is_viewed kept e ≡ true → HasCounted e old new };

    fn take(&mut self, kept: &Filter, event: &Event) -> Result<(), ViewFault> {
        if kept.shows(event) {
            self.count(event)?;
        } else {
            self.pass(event)?;
        }
        Ok(())
    }
}

/// Reads the trace to its end, and sums it up. If the words ask for all its lines, the report is that of
/// its lines; and if these are the lines of a run, the report tells what the kernel did in it.
pub fn sum_up<R: Read + Drop>(
    alloc: Global,
    text: Opened<R>,
    table: Option<ModuleTable>,
    request: &Showing,
) -> Result<Report, Refusal>
    ensures trace { OnOk result
        (IsTraceOf (R.remaining text.reader) (number_of request.now.ran)) }
    ensures report { IfOk result
        (IsReportIn (R.remaining text.reader) request.now.kept request.now.from request.now.to
        (windows_known table)) }
    ensures machines { IfOk result
        (TellsMachines (AreLinesIn (R.remaining text.reader) request.now.kept)
        request.now.from (windows_known table)) }
    ensures modules { IfOk result
        (TellsModules (AreLinesIn (R.remaining text.reader) request.now.kept)
        request.now.from (windows_known table)) }
    ensures refused { IfErr result
        (λ r. IsUnread (R.remaining text.reader) (number_of request.now.ran)
        (string_bytes text.name) r) }
{
    let names = Names::of_view(alloc, &request.kept, request.is_strict, &table)?;
    let shares = shares_of(alloc, table, request.from)?;
    let first = Summary::new(alloc, request.from, request.to, shares);
    let last = read_named(alloc, text, request, names, first)?;
    let report = last.finish()?;
    Ok(report)
}
