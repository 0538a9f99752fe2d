//! The numbers of partitions, line by line.

ghost use Rattle.std.specs.Prelude.{◌≡◌, [], map, IfOk, OnOk};
ghost use Rattle.trace_stays.specs.Following.{is_of};
ghost use Rattle.trace_view.specs.Partitions.{entered, has_row, no_partition, partition_behind, partition_total, partitions_behind, with_partition};

use crate::extent::has_tick;
use crate::modes::ModeTicks;
use crate::report::PartitionTotal;
use crate::starts::Starts;
use crate::told::Told;
use apex_types::{Event, EventKind, Mode, Name, Ticks};
use std::alloc::Global;
use trace_stays::{MemoryFull, ModeWatch, Span};

/// What the lines so far say of a partition.
#[derive(Clone, Copy)]
pub struct PartitionRow {
    name: Name,
    watch: ModeWatch,
    modes: ModeTicks,
    starts: Starts,
}

impl PartitionRow {
    /// A partition without a line.
    fn new(name: &Name) -> PartitionRow
        ensures { result ≡ no_partition name.now }
    {
        PartitionRow {
            name: *name,
            watch: ModeWatch::new(),
            modes: ModeTicks::new(),
            starts: Starts::new(),
        }
    }

    /// Returns true if a line is of this partition.
    fn is_of(&self, partition: &Option<Name>) -> bool
        ensures { result ≡ is_of self.now.name partition.now }
    {
        match partition {
            Some(name) => name.as_bytes() == self.name.as_bytes(),
            None => false,
        }
    }

    /// Reads the next line, whichever partition it is of.
    fn read(&mut self, event: &Event, window: Span, told: &Told)
        ensures { self.new ≡ partition_behind window told.now event.now self.old }
    {
        if self.is_of(&event.partition) {
            if let EventKind::Mode(mode) = &event.kind {
                self.enter(*mode, event.tick, window, told);
            }
        }
    }

    /// The partition enters a mode. A start counts if its line is in the window, and a stay that is over
    /// with those of its ticks that are.
    fn enter(&mut self, mode: Mode, tick: Ticks, window: Span, told: &Told)
        ensures { self.new ≡ entered window told.now tick mode self.old }
    {
        if let Some(stay) = self.watch.enter(mode, tick) {
            self.modes.add(stay, window);
        }
        if has_tick(window, tick) {
            self.starts.count(mode, told.condition_for(&self.name));
        }
    }

    /// The numbers where the window ends, with the stay that is not over there.
    fn total(&self, window: Span) -> PartitionTotal
        ensures { result ≡ partition_total window self.now }
    {
        let mut modes = self.modes;
        if let Some(stay) = self.watch.last_stay(window.until) {
            modes.add(stay, window);
        }
        PartitionTotal {
            name: self.name,
            modes,
            starts: self.starts,
        }
    }
}

/// The partitions that have a line, in the order of their first lines.
#[derive(Drop)]
pub struct Partitions {
    rows: Vec<PartitionRow>,
}

impl Partitions {
    /// No partition has a line.
    pub fn new(alloc: Global) -> Partitions
        ensures { result.rows.items ≡ [] }
    {
        Partitions {
            rows: Vec::new(alloc),
        }
    }

    /// Reads the next line. `told` is the condition of a start in it.
    ///
    /// # Errors
    ///
    /// Memory ran out.
    pub fn read(&mut self, event: &Event, window: Span, told: &Told) -> Result<(), MemoryFull>
        ensures { OnOk result
            (self.new.rows.items
            ≡ partitions_behind window told.now event.now self.old.rows.items) }
    {
        self.add(&event.partition)?;
        read_all(&mut self.rows, event, window, told);
        Ok(())
    }

    /// Adds a row for the partition of a line if it has none.
    fn add(&mut self, partition: &Option<Name>) -> Result<(), MemoryFull>
        ensures { OnOk result
            (self.new.rows.items ≡ with_partition partition.now self.old.rows.items) }
    {
        let Some(name) = partition else {
            return Ok(());
        };
        if !has_row(self.rows.as_slice(), name) {
            self.rows.push(PartitionRow::new(name))?;
        }
        Ok(())
    }

    /// The numbers where the window ends.
    ///
    /// # Errors
    ///
    /// Memory ran out.
    #[tactic(auto, using(std::proofs::lemmas::List::drop_more))]
    pub fn totals(&self, alloc: Global, window: Span) -> Result<Vec<PartitionTotal>, MemoryFull>
        ensures { IfOk result
            (λ totals. totals.items ≡ map (partition_total window) self.now.rows.items) }
    {
        let mut totals = Vec::new(alloc);
        for row in &self.rows {
            totals.push(row.total(window))?;
        }
        Ok(totals)
    }
}

/// Returns true if the partition with this name has a row.
#[tactic(auto, using(std::proofs::lemmas::List::drop_more))]
fn has_row(rows: &[PartitionRow], name: &Name) -> bool
    ensures { result ≡ has_row name.now rows.now }
{
    for row in rows {
        if row.name.as_bytes() == name.as_bytes() {
            return true;
        }
    }
    false
}

/// Each partition reads the next line.
#[tactic(auto, using(std::proofs::lemmas::List::drop_more))]
fn read_all(rows: &mut Vec<PartitionRow>, event: &Event, window: Span, told: &Told)
    ensures { rows.new.items
        ≡ map (partition_behind window told.now event.now) rows.old.items }
{
    for row in rows.iter_mut() {
        row.read(event, window, told);
    }
}
