//! The lines of one partition in two traces.

ghost use Rattle.std.specs.Prelude.{◌≡◌, ◌≢◌, ℕ, ◌<◌, ◌≤◌, [], ◌∷◌, ◌++◌, List, Some, None, IfSome, OnOk, length, take};
ghost use Rattle.apex_types.specs.declared.event.Event.{Event};
ghost use Rattle.trace_lines.specs.Parts.{IsEndedAs, IsFirst, IsFrontBefore, IsJudged, IsLevel, IsPart, IsRest, IsSettled, IsStep, apart_of, first_with, other_side, second_with};

use crate::rest::Rest;
use crate::same::is_same;
use crate::side::Side;
use apex_types::{Event, Name};
use std::alloc::Global;
use std::collections::VecDeque;
use trace_stays::MemoryFull;

/// The number of lines in both traces that are shown before a difference.
const SHOWN: usize = 3;

/// What each of two traces has from the first difference on.
#[derive(Drop)]
pub(crate) struct Apart {
    first: Rest,
    second: Rest,
}

/// The first difference of a partition.
#[derive(Drop)]
pub struct Difference {
    /// The partition, or none for the module itself.
    pub partition: Option<Name>,
    /// The last three lines before it, which both have, the latest first.
    pub before: Vec<Event>,
    pub first: Rest,
    pub second: Rest,
}

/// The lines of a partition in two traces, up to the last that was read.
#[derive(Drop)]
pub struct Part {
    pub(crate) partition: Option<Name>,
    /// The last three lines that both have, the latest first.
    before: Vec<Event>,
    /// The trace that is ahead, and its lines for which the other one has none yet.
    ahead: Side,
    waiting: VecDeque<Event>,
    apart: Option<Apart>,
}

impl Apart {
    /// What the trace that is ahead has, and what the other one has.
    fn of(ahead: Side, rest: Rest, other: Rest) -> Apart
        ensures { result ≡ apart_of ahead rest other }
    {
        match ahead {
            Side::First => Apart {
                first: rest,
                second: other,
            },
            Side::Second => Apart {
                first: other,
                second: rest,
            },
        }
    }

    /// One more line of one trace.
    #[tactic(auto, using(crate::proofs::Parts::goes_on_first, crate::proofs::Parts::goes_on_second, crate::proofs::Parts::first_settled, crate::proofs::Parts::second_settled))]
    fn add(&mut self, side: Side, event: Event)
        ensures lines { (before a b : List Event) (now : ℕ)
            → IsFirst before self.old.first self.old.second a b
            → IsSettled (Some self.old) now → now ≤ event.tick.0
            → IsFirst before self.new.first self.new.second (first_with side event a)
            (second_with side event b) }
        ensures settled { (now : ℕ) → IsSettled (Some self.old) now → now ≤ event.tick.0
            → IsSettled (Some self.new) event.tick.0 }
    {
        match side {
            Side::First => self.first.add(event),
            Side::Second => self.second.add(event),
        }
    }
}

impl Part {
    /// No line of the partition was read so far.
    #[tactic(auto, using(crate::proofs::Parts::level_at_first))]
    pub fn new(alloc: Global, partition: Option<Name>) -> Part
        ensures partition { result.partition ≡ partition }
        ensures lines { IsPart result [] [] }
        ensures level { result.apart ≡ None }
    {
        Part {
            partition,
            before: Vec::new(alloc),
            ahead: Side::First,
            waiting: VecDeque::new(alloc),
            apart: None,
        }
    }

    /// Reads the next line of one trace. The lines of both come in the order of their ticks.
    ///
    /// # Errors
    ///
    /// Memory ran out.
    #[tactic(auto, using(crate::proofs::Parts::turned))]
    pub fn add(&mut self, side: Side, event: Event) -> Result<(), MemoryFull>
        ensures { OnOk result (IsStep side event self.old self.new) }
    {
        if let Some(apart) = &mut self.apart {
            apart.add(side, event);
            return Ok(());
        }
        if self.ahead.is(side) {
            return self.go_ahead(event);
        }
        match self.waiting.pop_front() {
            Some(line) => self.meet(line, event),
            None => {
                self.ahead = side;
                self.go_ahead(event)
            }
        }
    }

    /// The trace that is ahead gets one line more. If it is of a later tick than the first that
    /// waits, the other trace has no line for the waiting one.
    #[tactic(auto, using(crate::proofs::Parts::gone_ahead))]
    fn go_ahead(&mut self, event: Event) -> Result<(), MemoryFull>
        ensures lines { OnOk result
            ((a b : List Event) → self.old.apart ≡ None
            → IsLevel self.old.ahead self.old.waiting.items self.old.before.items a b
            → IsPart self.new (first_with self.old.ahead event a)
            (second_with self.old.ahead event b)) }
        ensures settled { OnOk result
            (self.old.apart ≡ None → IsSettled self.new.apart event.tick.0) }
        ensures partition { self.new.partition ≡ self.old.partition }
    {
        let is_later = match self.waiting.front() {
            Some(line) => line.tick.0 < event.tick.0,
            None => false,
        };
        self.waiting.push_back(event)?;
        if is_later {
            self.part_ways();
        }
        Ok(())
    }

    /// The lines that wait are those of the trace that is ahead from the first difference on, and the
    /// other one has none so far.
    #[tactic(auto, using(crate::proofs::Parts::apart_alone, crate::proofs::Parts::alone_settled))]
    fn part_ways(&mut self)
        ensures lines { (a b : List Event) → 0 < length self.old.waiting.items
            → IsLevel self.old.ahead self.old.waiting.items self.old.before.items a b
            → IsPart self.new a b }
        ensures settled { (now : ℕ) → 0 < length self.old.waiting.items
            → IsFrontBefore self.old.waiting.items now → IsSettled self.new.apart now }
        ensures apart { self.new.apart ≢ None }
        ensures partition { self.new.partition ≡ self.old.partition }
    {
        let mut rest = Rest::none();
        take_all(&mut rest, &mut self.waiting);
        self.apart = Some(Apart::of(self.ahead, rest, Rest::none()));
    }

    /// The trace that is ahead has this line where the other one has this event.
    #[tactic(auto, using(crate::proofs::Parts::kept, crate::proofs::Parts::apart_both))]
    fn meet(&mut self, line: Event, event: Event) -> Result<(), MemoryFull>
        ensures lines { OnOk result
            ((a b : List Event) → self.old.apart ≡ None
            → IsLevel self.old.ahead (line ∷ self.old.waiting.items) self.old.before.items a b
            → IsPart self.new (first_with (other_side self.old.ahead) event a)
            (second_with (other_side self.old.ahead) event b)) }
        ensures settled { OnOk result
            (self.old.apart ≡ None → IsSettled self.new.apart event.tick.0) }
        ensures partition { self.new.partition ≡ self.old.partition }
    {
        if is_same(&line, &event) {
            return self.keep(line);
        }
        let mut rest = Rest::none();
        rest.add(line);
        take_all(&mut rest, &mut self.waiting);
        let mut other = Rest::none();
        other.add(event);
        self.apart = Some(Apart::of(self.ahead, rest, other));
        Ok(())
    }

    /// Both have this line.
    fn keep(&mut self, line: Event) -> Result<(), MemoryFull>
        ensures before { OnOk result
            (self.new.before.items ≡ take 3 (line ∷ self.old.before.items)) }
        ensures ahead { self.new.ahead ≡ self.old.ahead }
        ensures waiting { self.new.waiting ≡ self.old.waiting }
        ensures apart { self.new.apart ≡ self.old.apart }
        ensures partition { self.new.partition ≡ self.old.partition }
    {
        self.before.insert(0, line)?;
        self.before.truncate(SHOWN);
        Ok(())
    }

    /// No line follows: those that wait are in only one trace.
    #[tactic(auto, using(crate::proofs::Parts::level_is_same, crate::proofs::Parts::ended))]
    fn end(&mut self)
        ensures lines { (a b : List Event) → IsPart self.old a b
            → IsEndedAs self.new.apart self.new a b }
        ensures partition { self.new.partition ≡ self.old.partition }
    {
        if self.apart.is_none() && !self.waiting.is_empty() {
            self.part_ways();
        }
    }

    /// The first difference, if there is one. No line follows.
    pub fn finish(mut self) -> Option<Difference>
        ensures judged { (a b : List Event) → IsPart self a b → IsJudged result a b }
        ensures partition { IfSome result (λ d. d.partition ≡ self.partition) }
    {
        self.end();
        let Part {
            partition,
            before,
            apart,
            ..
        } = self;
        let Apart { first, second } = apart?;
        Some(Difference {
            partition,
            before,
            first,
            second,
        })
    }
}

/// Adds all lines that wait.
fn take_all(rest: &mut Rest, waiting: &mut VecDeque<Event>)
    ensures rest { (lines : List Event) → IsRest rest.old lines
        → IsRest rest.new (lines ++ waiting.old.items) }
    ensures waiting { waiting.new.items ≡ [] }
{
    while let Some(line) = waiting.pop_front() {
        rest.add(line);
    }
}
