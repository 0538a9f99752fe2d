//! The lines of two traces, partition by partition.

ghost use Rattle.std.specs.Prelude.{ℕ, ◌≤◌, [], List, IfOk, MatchOption, OnOk, reverse};
ghost use Rattle.apex_types.specs.declared.event.Event.{Event};
ghost use Rattle.trace_lines.specs.Comparisons.{AreDifferences, AreFinished, AreParts, IsNoneOf, IsPlaceOf};
ghost use Rattle.trace_lines.specs.Parts.{first_with, second_with};

use crate::part::{Difference, Part};
use crate::side::Side;
use apex_types::{Event, Name};
use std::alloc::Global;
use trace_stays::{MemoryFull, is_same_partition};

/// The lines of two traces as far as they were read, each partition separately, in the order of
/// their first lines.
#[derive(Drop)]
pub struct Comparison {
    alloc: Global,
    parts: Vec<Part>,
}

impl Comparison {
    /// No line was read so far.
    pub fn new(alloc: Global) -> Comparison
        ensures { AreParts result.parts.items 0 [] [] }
    {
        Comparison {
            alloc,
            parts: Vec::new(alloc),
        }
    }

    /// Reads the next line of one trace. The lines of both come in the order of their ticks.
    ///
    /// # Errors
    ///
    /// Memory ran out.
    #[tactic(auto, using(crate::proofs::Comparisons::read_at, crate::proofs::Comparisons::read_first))]
    pub fn add(&mut self, side: Side, event: Event) -> Result<(), MemoryFull>
        ensures { OnOk result
            ((now : ℕ) (a b : List Event) → AreParts self.old.parts.items now a b
            → now ≤ event.tick.0
            → AreParts self.new.parts.items event.tick.0 (first_with side event a)
            (second_with side event b)) }
    {
        match self.place_of(&event.partition) {
            Some(place) => self.parts[place].add(side, event),
            None => {
                let mut part = Part::new(self.alloc, event.partition);
                part.add(side, event)?;
                self.parts.push(part)?;
                Ok(())
            }
        }
    }

    /// The place of the part of this partition; `None` if it has no line so far.
    fn place_of(&self, partition: &Option<Name>) -> Option<usize>
        ensures { MatchOption result (IsNoneOf partition.now self.now.parts.items)
            (IsPlaceOf partition.now self.now.parts.items) }
    {
        for (place, part) in self.parts.iter().enumerate() {
            if is_same_partition(&part.partition, partition) {
                return Some(place);
            }
        }
        None
    }

    /// The first difference of each partition that has one, in the order of the partitions' first
    /// lines. No line follows.
    ///
    /// # Errors
    ///
    /// Memory ran out.
    #[tactic(auto, using(crate::proofs::Comparisons::all_told))]
    pub fn finish(self) -> Result<Vec<Difference>, MemoryFull>
        ensures { IfOk result
            (λ found. (now : ℕ) (a b : List Event) → AreParts self.parts.items now a b
            → AreDifferences found.items a b) }
    {
        let mut found = told_backwards(self.alloc, self.parts)?;
        found.reverse();
        Ok(found)
    }
}

/// The differences of these parts, the last one first.
fn told_backwards(alloc: Global, parts: Vec<Part>) -> Result<Vec<Difference>, MemoryFull>
    ensures { IfOk result (λ found. AreFinished parts.items (reverse found.items)) }
{
    let mut found = Vec::new(alloc);
    let mut parts = parts;
    while let Some(part) = parts.pop() {
        if let Some(difference) = part.finish() {
            found.push(difference)?;
        }
    }
    Ok(found)
}
