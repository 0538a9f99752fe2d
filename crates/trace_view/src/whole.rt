//! The summary of a whole trace.

ghost use Rattle.std.specs.Prelude.{None, IfOk};
ghost use Rattle.trace_view.specs.Reports.{IsReportOf};

use crate::report::Report;
use crate::summary::Summary;
use apex_types::{Event, Ticks};
use std::alloc::Global;
use trace_windows::SharesFault;

/// The summary of a trace whose lines are counted one by one has the lines of the window, their errors
/// and messages, and the numbers of partitions and processes that the lines lead to.
///
/// # Errors
///
/// Memory ran out.
pub fn summary_of(
    alloc: Global,
    from: Ticks,
    to: Option<Ticks>,
    events: &[Event],
) -> Result<Report, SharesFault>
    ensures { IfOk result (λ report. IsReportOf from to None events.now report) }
{
    let mut summary = Summary::new(alloc, from, to, None);
    for event in events {
        summary.count(event)?;
    }
    summary.finish()
}
