//! The counts so far, by partitions, processes, ports and channels.

ghost use Rattle.std.specs.Prelude.{◌≡◌, [], map, IfOk, OnOk};
ghost use Rattle.trace_view.specs.Counted.{HasError, HasErrorIf, HasMessage, HasMessageIf};
ghost use Rattle.trace_view.specs.Counting.{route_of};
ghost use Rattle.trace_view.specs.Partitions.{partition_total, partitions_behind};
ghost use Rattle.trace_view.specs.Processes as processes;
ghost use Rattle.trace_view.specs.Tallies.{has_tick};
ghost use Rattle.trace_view.specs.Traffic.{totals_from};

use crate::errors::Errors;
use crate::extent::{Extent, has_tick};
use crate::messages::route_of;
use crate::partitions::Partitions;
use crate::processes::Processes;
use crate::report::{PartitionTotal, Report, RouteTotal};
use crate::told::Told;
use crate::traffic::Traffic;
use apex_types::{Event, EventKind};
use std::alloc::Global;
use trace_stays::{MemoryFull, Span};

/// The counts so far.
#[derive(Drop)]
pub struct Counts {
    alloc: Global,
    partitions: Partitions,
    processes: Processes,
    traffic: Traffic,
    errors: Errors,
}

impl Counts {
    /// Nothing was counted.
    pub fn new(alloc: Global) -> Counts
        ensures partitions { result.partitions.rows.items ≡ [] }
        ensures processes { result.processes.rows.items ≡ [] }
        ensures errors { result.errors.totals.items ≡ [] }
        ensures messages { result.traffic.passages.items ≡ [] }
    {
        Counts {
            alloc,
            partitions: Partitions::new(alloc),
            processes: Processes::new(alloc),
            traffic: Traffic::new(alloc),
            errors: Errors::new(alloc),
        }
    }

    /// Counts the next event; `told` is the condition of a start in it. An event before the window
    /// only determines how the window begins.
    ///
    /// # Errors
    ///
    /// Memory ran out.
    pub fn count(&mut self, event: &Event, window: Span, told: &Told) -> Result<(), MemoryFull>
        ensures partitions { OnOk result
            (self.new.partitions.rows.items
            ≡ partitions_behind window told.now event.now self.old.partitions.rows.items) }
        ensures processes { OnOk result
            (processes.HaveRead window event.now self.old.processes.rows.items
            self.new.processes.rows.items) }
        ensures errors { OnOk result
            (HasErrorIf (has_tick window event.now.tick.0) event.now.partition event.now.kind
            self.old.errors self.new.errors) }
        ensures messages { OnOk result
            (HasMessageIf (has_tick window event.now.tick.0) event.now.partition event.now.kind
            self.old.traffic self.new.traffic) }
    {
        self.partitions.read(event, window, told)?;
        self.processes.read(event, window)?;
        if has_tick(window, event.tick) {
            self.count_kind(event)?;
        }
        Ok(())
    }

    /// The numbers, those of each partition together.
    ///
    /// # Errors
    ///
    /// Memory ran out.
    pub fn finish(self, extent: Extent) -> Result<Report, MemoryFull>
        ensures extent { IfOk result (λ report. report.extent ≡ extent) }
        ensures partitions { IfOk result
            (λ report. report.partitions.items
            ≡ map (partition_total extent.window) self.partitions.rows.items) }
        ensures processes { IfOk result
            (λ report. report.processes.items
            ≡ processes.totals_from extent.window report.partitions.items
            self.processes.rows.items) }
        ensures routes { IfOk result
            (λ report. report.routes.items
            ≡ totals_from report.partitions.items self.traffic.passages.items) }
        ensures errors { IfOk result (λ report. report.errors ≡ self.errors.totals) }
    {
        let partitions = self.partitions.totals(self.alloc, extent.window)?;
        let processes = self.processes.totals(&partitions, extent.window)?;
        let routes = self.route_totals(&partitions)?;
        Ok(Report {
            extent,
            partitions,
            processes,
            routes,
            errors: self.errors.into_totals(),
            shares: None,
        })
    }

    /// Counts the error and the message of a line.
    fn count_kind(&mut self, event: &Event) -> Result<(), MemoryFull>
        ensures partitions { self.new.partitions ≡ self.old.partitions }
        ensures processes { self.new.processes ≡ self.old.processes }
        ensures errors { OnOk result
            (HasError event.now.partition event.now.kind self.old.errors self.new.errors) }
        ensures messages { OnOk result
            (HasMessage event.now.partition (route_of event.now.kind) event.now.kind
            self.old.traffic self.new.traffic) }
    {
        self.count_error(event)?;
        self.count_message(event)
    }

    /// Counts the line of an error.
    fn count_error(&mut self, event: &Event) -> Result<(), MemoryFull>
        ensures partitions { self.new.partitions ≡ self.old.partitions }
        ensures processes { self.new.processes ≡ self.old.processes }
        ensures errors { OnOk result
            (HasError event.now.partition event.now.kind self.old.errors self.new.errors) }
        ensures traffic { self.new.traffic ≡ self.old.traffic }
    {
        match &event.kind {
            EventKind::Error(error, _, response) => {
                self.errors.count(&event.partition, *error, *response)
            }
            _ => Ok(()),
        }
    }

    /// Counts the message of a line.
    fn count_message(&mut self, event: &Event) -> Result<(), MemoryFull>
        ensures partitions { self.new.partitions ≡ self.old.partitions }
        ensures processes { self.new.processes ≡ self.old.processes }
        ensures errors { self.new.errors ≡ self.old.errors }
        ensures messages { OnOk result
            (HasMessage event.now.partition (route_of event.now.kind) event.now.kind
            self.old.traffic self.new.traffic) }
    {
        let Some(name) = &event.partition else {
            return Ok(());
        };
        match route_of(&event.kind) {
            Some(route) => self.traffic.count(name, &route, &event.kind),
            None => Ok(()),
        }
    }

    /// The totals of the first partition, then those of the next one, and so on.
    #[tactic(auto, using(std::proofs::lemmas::List::drop_more))]
    fn route_totals(&self, partitions: &[PartitionTotal]) -> Result<Vec<RouteTotal>, MemoryFull>
        ensures { IfOk result
            (λ totals.
            totals.items ≡ totals_from partitions.now self.now.traffic.passages.items) }
    {
        let mut totals = Vec::new(self.alloc);
        for partition in partitions {
            self.traffic.add_totals(partition, &mut totals)?;
        }
        Ok(totals)
    }
}
