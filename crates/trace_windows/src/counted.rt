//! The ticks that were counted.

ghost use Rattle.std.specs.Prelude.{◌≡◌, [], ◌∷◌, ◌++◌, OnOk};
ghost use Rattle.trace_windows.specs.Counts.{HasMore, HasTotal, capped, idle_at, row_from, ticks_at, ticks_for, with_more_at};

use crate::shares_fault::SharesFault;
use crate::usage::Use;
use std::alloc::Global;

/// The number of ticks in which the processor did the same.
#[derive(Clone, Copy)]
pub struct Row {
    pub used: Use,
    pub ticks: u64,
}

impl Row {
    ghost use Rattle.trace_windows.specs.Counts.{capped};
    ghost use Rattle.std.specs.Prelude.{◌+◌};

    /// `ticks` ticks more.
    fn add(&mut self, ticks: u64)
        ensures { self.new ≡ record self.old { ticks = capped (self.old.ticks + ticks) } }
    {
        self.ticks = self.ticks.saturating_add(ticks);
    }
}

/// How many ticks the processor was used in each way, in the order of the first of them. A number
/// ends at the greatest of 64 bits.
#[derive(Drop)]
pub struct Counted {
    rows: Vec<Row>,
}

impl Counted {
    /// No tick is counted.
    pub fn new(alloc: Global) -> Counted
        ensures { result.rows.items ≡ [] }
    {
        Counted {
            rows: Vec::new(alloc),
        }
    }

    /// The rows, in the order of their first ticks.
    pub fn rows(&self) -> &[Row]
        ensures { result.now ≡ self.now.rows.items }
    {
        self.rows.as_slice()
    }

    /// The number of ticks that were used so.
    #[tactic(auto, using(std::proofs::lemmas::List::drop_more), unfolding(crate::specs::Counts::ticks_for))]
    pub fn ticks(&self, used: &Use) -> u64
        ensures { result ≡ ticks_for used.now self.now.rows.items }
    {
        for row in self.rows.as_slice() {
            if row.used.is_same(used) {
                return row.ticks;
            }
        }
        0
    }

    /// The number of ticks in windows of the partition at this place in the module table.
    #[tactic(auto, using(std::proofs::lemmas::List::drop_more), unfolding(crate::specs::Counts::ticks_at))]
    pub fn window_ticks(&self, place: usize) -> u64
        ensures { result ≡ capped (ticks_at place self.now.rows.items) }
    {
        let mut sum: u64 = 0;
        for row in self.rows.as_slice() {
            if row.used.place() == Some(place) {
                sum = sum.saturating_add(row.ticks);
            }
        }
        sum
    }

    /// The number of idle ticks in windows of the partition at this place in the module table.
    #[tactic(auto, using(std::proofs::lemmas::List::drop_more), unfolding(crate::specs::Counts::idle_at))]
    pub fn idle_ticks(&self, place: usize) -> u64
        ensures { result ≡ capped (idle_at place self.now.rows.items) }
    {
        let mut sum: u64 = 0;
        for row in self.rows.as_slice() {
            if row.used.is_idle_at(place) {
                sum = sum.saturating_add(row.ticks);
            }
        }
        sum
    }

    /// Adds ticks that were used so.
    ///
    /// # Errors
    ///
    /// Memory ran out. Then nothing is counted.
    pub fn add(&mut self, used: &Use, ticks: u64) -> Result<(), SharesFault>
        ensures used { OnOk result
            (HasMore used.now ticks self.old.rows.items self.new.rows.items) }
        ensures total { OnOk result (HasTotal ticks self.old.rows.items self.new.rows.items) }
    {
        if ticks == 0 {
            return Ok(());
        }
        match self.place_of(used) {
            Some(place) => {
                self.add_at(place, ticks);
                Ok(())
            }
            None => self.add_row(used, ticks),
        }
    }

    /// Adds ticks to the row at this place.
    fn add_at(&mut self, place: usize, ticks: u64)
        ensures { self.new.rows.items ≡ with_more_at place ticks self.old.rows.items }
    {
        if let Some(row) = self.rows.get_mut(place) {
            row.add(ticks);
        }
    }

    /// Adds a row after the others.
    fn add_row(&mut self, used: &Use, ticks: u64) -> Result<(), SharesFault>
        ensures { OnOk result
            (self.new.rows.items
            ≡ self.old.rows.items ++ (record { used = used.now; ticks = ticks }) ∷ []) }
    {
        let used = match used {
            Use::Process(partition, who) => Use::Process(*partition, *who),
            Use::Idle(partition) => Use::Idle(*partition),
            Use::Unowned => Use::Unowned,
            Use::Down => Use::Down,
        };
        self.rows.push(Row { used, ticks })?;
        Ok(())
    }

    /// The place of the row with this use; `None` if there is none.
    #[tactic(auto, using(std::proofs::lemmas::List::drop_more), unfolding(crate::specs::Counts::row_from))]
    fn place_of(&self, used: &Use) -> Option<usize>
        ensures { result ≡ row_from 0 used.now self.now.rows.items }
    {
        for (place, row) in self.rows.iter().enumerate() {
            if row.used.is_same(used) {
                return Some(place);
            }
        }
        None
    }
}
