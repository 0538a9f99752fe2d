//! Counts the events of a trace.

ghost use Rattle.std.specs.Prelude.{◌≡◌, true, IfOk, OnOk};
ghost use Rattle.trace_view.specs.Reports.{SharesFollow, SharesPass};

use crate::counts::Counts;
use crate::extent::Extent;
use crate::report::Report;
use crate::told::Told;
use apex_types::{Event, Ticks};
use std::alloc::Global;
use trace_windows::{Shares, SharesFault};

/// Counts the events of a trace, one by one. Its memory grows with the partitions, processes, ports and
/// channels, and with the response times of a process that differ.
#[derive(Drop)]
pub struct Summary {
    to: Option<Ticks>,
    /// The lines so far. Until all are counted, a window without an end stays open.
    extent: Extent,
    counts: Counts,
    /// What the lines so far say of a start in the next one.
    told: Told,
    /// What the processor did, if the windows are known.
    shares: Option<Shares>,
}

impl Summary {
    ghost use Rattle.kernel_meaning.specs.Windows.{Schedule};
    ghost use Rattle.std.specs.Prelude.{List, ℕ, Option};
    ghost use Rattle.trace_view.specs.Reports.{AreSharesBefore, HasBegun, HasCounted, HasFinished};
    ghost use Rattle.trace_view.specs.Starts.{told_behind};

    /// Nothing is counted yet. The ticks `from` and later will count: those before `to`, or, with
    /// `None`, those up to the last line. `shares` counts what the processor does in them.
    pub fn new(alloc: Global, from: Ticks, to: Option<Ticks>, shares: Option<Shares>) -> Summary
        ensures { (windows : Option (Schedule × List (List ℕ))) → AreSharesBefore windows from shares
            → HasBegun from to windows result }
    {
        Summary {
            to,
            extent: Extent::new(from, to),
            counts: Counts::new(alloc),
            told: Told::new(),
            shares,
        }
    }

    /// Counts the next event of the trace.
    ///
    /// # Errors
    ///
    /// Memory ran out, or the line is of a partition that the module table has not.
    pub fn count(&mut self, event: &Event) -> Result<(), SharesFault>
        ensures { OnOk result (HasCounted event.now self.old self.new) }
    {
        let told = self.told;
        let window = self.extent.window;
        self.told.read(event);
        self.extent.count(event.tick);
        if event.tick.0 < window.until.0 {
            self.counts.count(event, window, &told)?;
            follow(&mut self.shares, event)?;
        }
        Ok(())
    }

    /// Passes over the next event of the trace: its line does not count. What the processor does and
    /// why partitions start is read in all lines.
    ///
    /// # Errors
    ///
    /// Memory ran out, or the line is of a partition that the module table has not.
    pub fn pass(&mut self, event: &Event) -> Result<(), SharesFault>
        ensures to { self.new.to ≡ self.old.to }
        ensures extent { self.new.extent ≡ self.old.extent }
        ensures counts { self.new.counts ≡ self.old.counts }
        ensures told { self.new.told ≡ told_behind event.now self.old.told }
    {
        self.told.read(event);
        if event.tick.0 < self.extent.window.until.0 {
            follow(&mut self.shares, event)?;
        }
        Ok(())
    }

    /// Returns all counts.
    ///
    /// # Errors
    ///
    /// Memory ran out.
    pub fn finish(self) -> Result<Report, SharesFault>
        ensures { IfOk result (λ report. HasFinished self report) }
    {
        let Summary {
            to,
            mut extent,
            counts,
            mut shares,
            ..
        } = self;
        extent.close(to);
        pass_to(&mut shares, extent.window.until)?;
        let mut report = counts.finish(extent)?;
        report.shares = shares;
        Ok(report)
    }
}

/// Reads the next line, if the windows are known.
fn follow(shares: &mut Option<Shares>, event: &Event) -> Result<(), SharesFault>
    ensures { OnOk result (SharesFollow true event.now shares.old shares.new) }
{
    match shares {
        Some(shares) => shares.follow(event),
        None => Ok(()),
    }
}

/// Counts the ticks before this one, if the windows are known.
fn pass_to(shares: &mut Option<Shares>, tick: Ticks) -> Result<(), SharesFault>
    ensures { OnOk result (SharesPass tick.0 shares.old shares.new) }
{
    match shares {
        Some(shares) => shares.pass_to(tick),
        None => Ok(()),
    }
}
