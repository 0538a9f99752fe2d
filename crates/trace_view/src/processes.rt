//! The numbers of processes, line by line.

ghost use Rattle.std.specs.Prelude.{◌≡◌, ◌&&◌, if◌then◌else◌, ◌++◌, [], ℕ, List, true, IfOk, OnOk};
ghost use Rattle.apex_types.specs.Line.{subject_text};
ghost use Rattle.engine_meaning.specs.Digits.{same};
ghost use Rattle.trace_stays.specs.Following.{is_of, next_by};
ghost use Rattle.trace_stays.specs.Stays.{stay_left};
ghost use Rattle.trace_view.specs.Processes.{AllRead, AreKept, HasAdded, HasMade, HasRead, HaveRead, counted_for, counts, is_there, is_word, maker, process_behind, totals_at, totals_from, turned_if, with_one, with_turn};
ghost use Rattle.trace_view.specs.Tallies.{has_tick, with_ended};

use crate::extent::has_tick;
use crate::report::{PartitionTotal, ProcessTotal};
use crate::responses::Responses;
use crate::tally::{Tally, Turn};
use apex_types::{ErrorKind, Event, EventKind, Name, Subject, Ticks};
use std::alloc::Global;
use trace_stays::{MemoryFull, Next, Span, StateWatch, is_same_subject, next_by};

/// What the lines so far say of a process, of INIT or of an error handler.
#[derive(Drop)]
pub struct ProcessRow {
    partition: Name,
    who: Subject,
    watch: StateWatch,
    tally: Tally,
    responses: Responses,
}

impl ProcessRow {
    /// Reads the next line, whichever process it is of.
    fn read(&mut self, event: &Event, window: Span) -> Result<(), MemoryFull>
        ensures { OnOk result
            (HasRead
            (process_behind window event.now self.old.partition (subject_text self.old.who))
            self.old self.new) }
    {
        self.count_if(self.counts(event, window), &event.kind);
        self.turn_if(self.next_in(event), event.tick, window)
    }

    /// Where a line says that the process goes.
    fn next_in(&self, event: &Event) -> Option<Next>
        ensures { result
            ≡ next_by event.now.partition event.now.kind self.now.partition
            (subject_text self.now.who) }
    {
        next_by(event, &self.partition, &self.who)
    }

    /// Returns true if a line of its partition counts for the process.
    fn counts(&self, event: &Event, window: Span) -> bool
        ensures { result
            ≡ counts window event.now self.now.partition (subject_text self.now.who) }
    {
        self.is_of(&event.partition)
            && self.is_word(&counted_for(&event.kind))
            && has_tick(window, event.tick)
    }

    /// Returns true if a line is of the partition of this process.
    fn is_of(&self, partition: &Option<Name>) -> bool
        ensures { result ≡ is_of self.now.partition partition.now }
    {
        match partition {
            Some(name) => name.as_bytes() == self.partition.as_bytes(),
            None => false,
        }
    }

    /// Returns true if this is the process.
    fn is_word(&self, who: &Option<Subject>) -> bool
        ensures { result ≡ is_word (subject_text self.now.who) who.now }
    {
        match who {
            Some(who) => is_same_subject(who, &self.who),
            None => false,
        }
    }

    /// The process enters a state or is gone, if a line says so.
    fn turn_if(&mut self, next: Option<Next>, tick: Ticks, window: Span) -> Result<(), MemoryFull>
        ensures { OnOk result (HasRead (turned_if window next tick) self.old self.new) }
    {
        match next {
            Some(next) => self.turn(next, tick, window),
            None => Ok(()),
        }
    }

    /// The process enters a state, or it is gone.
    fn turn(&mut self, next: Next, tick: Ticks, window: Span) -> Result<(), MemoryFull>
        ensures { OnOk result (HasRead (with_turn window next tick) self.old self.new) }
    {
        let ended = self.watch.turn(next, tick);
        let turn = Turn {
            tick,
            ended,
            next: next.state(),
        };
        match self.tally.turn(turn, window) {
            Some(measured) => self.responses.take(measured),
            None => Ok(()),
        }
    }

    /// Counts a return code, a missed deadline or an application message, if it counts.
    fn count_if(&mut self, counts: bool, kind: &EventKind)
        ensures { self.new ≡ (if counts then record self.old { tally = with_one kind.now self.old.tally } else self.old) }
    {
        if counts {
            self.count(kind);
        }
    }

    /// Counts a return code, a missed deadline or an application message.
    fn count(&mut self, kind: &EventKind)
        ensures { self.new ≡ record self.old { tally = with_one kind.now self.old.tally } }
    {
        match kind {
            EventKind::Return(_, _, code) => self.tally.answer(*code),
            EventKind::Error(_, _, _) => self.tally.miss(),
            EventKind::Report(_, _) => self.tally.report(),
            _ => {}
        }
    }

    /// The numbers where the window ends, with the stay that is not over there.
    fn last_tally(&self, window: Span) -> Tally
        ensures { result
            ≡ with_ended window (stay_left self.now.watch.held window.until.0) self.now.tally }
    {
        let mut tally = self.tally;
        if let Some(stay) = self.watch.last_stay(window.until) {
            tally.stay(stay, window);
        }
        tally
    }
}

/// The processes that have a line, in the order of their first lines.
#[derive(Drop)]
pub struct Processes {
    alloc: Global,
    rows: Vec<ProcessRow>,
}

impl Processes {
    /// No process has a line.
    pub fn new(alloc: Global) -> Processes
        ensures { result.rows.items ≡ [] }
    {
        Processes {
            alloc,
            rows: Vec::new(alloc),
        }
    }

    /// Reads the next line.
    ///
    /// # Errors
    ///
    /// Memory ran out.
    pub fn read(&mut self, event: &Event, window: Span) -> Result<(), MemoryFull>
        ensures { OnOk result
            (HaveRead window event.now self.old.rows.items self.new.rows.items) }
    {
        self.add_for(event, has_tick(window, event.tick))?;
        read_all(&mut self.rows, event, window)
    }

    /// Adds a row for the process of a line if it has none.
    #[tactic(auto, using(crate::proofs::Known::made_nobody))]
    fn add_for(&mut self, event: &Event, counts: bool) -> Result<(), MemoryFull>
        ensures kept { OnOk result (AreKept self.old.rows.items self.new.rows.items) }
        ensures made { OnOk result
            (HasMade counts event.now.partition event.now.kind self.old.rows.items
            self.new.rows.items) }
    {
        let Some(partition) = &event.partition else {
            return Ok(());
        };
        match maker(&event.kind, counts) {
            Some(who) => self.add(partition, &who),
            None => Ok(()),
        }
    }

    /// Adds a row for a process if it has none.
    fn add(&mut self, partition: &Name, who: &Subject) -> Result<(), MemoryFull>
        ensures kept { OnOk result (AreKept self.old.rows.items self.new.rows.items) }
        ensures made { OnOk result
            (HasAdded partition.now who.now self.old.rows.items self.new.rows.items) }
    {
        if !is_there(self.rows.as_slice(), partition, who) {
            self.rows.push(ProcessRow {
                partition: *partition,
                who: *who,
                watch: StateWatch::new(),
                tally: Tally::new(),
                responses: Responses::new(self.alloc),
            })?;
        }
        Ok(())
    }

    /// The numbers where the window ends: those of the first partition, then those of the next one,
    /// and so on.
    ///
    /// # Errors
    ///
    /// Memory ran out.
    #[tactic(auto, using(std::proofs::lemmas::List::drop_more))]
    pub fn totals(
        &self,
        partitions: &[PartitionTotal],
        window: Span,
    ) -> Result<Vec<ProcessTotal>, MemoryFull>
        ensures { IfOk result
            (λ totals. totals.items ≡ totals_from window partitions.now self.now.rows.items) }
    {
        let mut totals = Vec::new(self.alloc);
        for partition in partitions {
            self.add_totals(partition, window, &mut totals)?;
        }
        Ok(totals)
    }

    /// Adds the totals of a partition.
    #[tactic(auto, using(std::proofs::lemmas::List::drop_more))]
    fn add_totals(
        &self,
        partition: &PartitionTotal,
        window: Span,
        totals: &mut Vec<ProcessTotal>,
    ) -> Result<(), MemoryFull>
        ensures { OnOk result
            (totals.new.items
            ≡ totals.old.items ++ totals_at window partition.now self.now.rows.items) }
    {
        for row in &self.rows {
            if row.partition.as_bytes() == partition.name.as_bytes() {
                totals.push(ProcessTotal {
                    partition: row.partition,
                    who: row.who,
                    tally: row.last_tally(window),
                    spreads: row.responses.spreads(),
                })?;
            }
        }
        Ok(())
    }
}

/// The process with a return code, a missed deadline or an application message in such a line.
fn counted_for(kind: &EventKind) -> Option<Subject>
    ensures { result ≡ counted_for kind.now }
{
    match kind {
        EventKind::Return(who, _, _) | EventKind::Report(who, _) => Some(*who),
        EventKind::Error(ErrorKind::DeadlineMissed, who, _) => *who,
        _ => None,
    }
}

/// The process that has a row from such a line on: that of a state, or that of something that counts.
fn maker(kind: &EventKind, counts: bool) -> Option<Subject>
    ensures { result ≡ maker counts kind.now }
{
    match kind {
        EventKind::State(who, _) => Some(*who),
        kind => { if counts { counted_for(kind) } else { None } }
    }
}

/// Returns true if the process has a row.
#[tactic(auto, using(std::proofs::lemmas::List::drop_more))]
fn is_there(rows: &[ProcessRow], partition: &Name, who: &Subject) -> bool
    ensures { result ≡ is_there partition.now (subject_text who.now) rows.now }
{
    for row in rows {
        if row.partition.as_bytes() == partition.as_bytes() && is_same_subject(&row.who, who) {
            return true;
        }
    }
    false
}

/// Each process reads the next line.
fn read_all(rows: &mut Vec<ProcessRow>, event: &Event, window: Span) -> Result<(), MemoryFull>
    ensures { OnOk result (AllRead window event.now rows.old.items rows.new.items) }
{
    for row in rows.iter_mut() {
        row.read(event, window)?;
    }
    Ok(())
}
