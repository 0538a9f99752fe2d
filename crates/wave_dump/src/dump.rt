//! The text of a dump, written line by line.

ghost use Rattle.std.specs.Prelude.{◌≡◌, ◌≤◌, length};
ghost use Rattle.trace_stays.specs.Shown.{shown_ticks};

use crate::change::{Change, in_order, push_pulse, push_window};
use crate::fault::DumpFault;
use crate::header::{Header, push_header};
use crate::marks::Marks;
use crate::text::{push_changes, push_time};
use crate::wires::{Size, Wires};
use apex_types::{Event, EventKind, Name, Ticks};
use std::alloc::{AllocError, Global};
use trace_stays::{Ended, MemoryFull, Span};
use trace_windows::Windows;

/// A stay whose beginning is not written yet.
#[derive(Clone, Copy)]
struct Begun {
    marks: Marks,
    since: Ticks,
}

/// A value change dump. It takes the events of a trace, in whose lines its variables were found
/// before, and appends to a text what no later line changes: all ticks before that of the event, and
/// the pulse of the event itself.
#[derive(Drop)]
pub struct Dump {
    wires: Wires,
    /// How much was found before, and the sum of it.
    size: Size,
    sum: u64,
    /// The tick before which the dump ends.
    until: Ticks,
    windows: Option<Windows>,
    /// How many stretches of the windows have begun.
    begun_windows: usize,
    /// The stays that have begun and are not written. Each process and each partition has one at most.
    begun: Vec<Begun>,
    /// The changes that are not written. None is more than a tick after the last line, but the end of a window.
    changes: Vec<Change>,
    /// Room for the stays that one event ends, and for the changes of its pulse.
    ended: Vec<Ended>,
    pulse: Vec<Change>,
    /// The tick before which all changes are written.
    next: Ticks,
    /// The last time that is written.
    time: Ticks,
}

impl Dump {
    /// The dump of a trace with these variables, and with the windows of a module table, if one is
    /// given: each partition of the table has a wire that is 1 in its windows.
    pub fn new(alloc: Global, mut wires: Wires, windows: Option<Windows>) -> Dump
        ensures windows { result.windows ≡ windows }
        ensures until { result.until ≡ (shown_ticks wires.shown).until }
    {
        let (size, sum, span) = (wires.size(), wires.sum, wires.shown.span());
        wires.sum = 0;
        Dump {
            wires,
            size,
            sum,
            until: span.until,
            windows,
            begun_windows: 0,
            begun: Vec::new(alloc),
            changes: Vec::new(alloc),
            ended: Vec::new(alloc),
            pulse: Vec::new(alloc),
            next: Ticks(0),
            time: span.from,
        }
    }

    /// Appends what comes before the first change.
    ///
    /// # Errors
    ///
    /// Memory ran out.
    pub fn begin(&self, text: &mut String) -> Result<(), AllocError> {
        let header = Header {
            lanes: &self.wires.lanes,
            pulses: self.wires.pulses.as_slice(),
            names: self.names(),
        };
        push_header(self.wires.shown.span().from, header, text)
    }

    /// Takes the next event; an event after the ticks of the dump changes nothing.
    ///
    /// # Errors
    ///
    /// The trace is another one than before, or memory ran out.
    pub fn add(&mut self, event: &Event, text: &mut String) -> Result<(), DumpFault> {
        if !self.wires.add(event)? {
            return Ok(());
        }
        if self.wires.size() != self.size {
            return Err(DumpFault::Changed);
        }
        if self.next.0 < event.tick.0 {
            self.pass_to(event.tick, text)?;
        }
        self.ended.clear();
        self.wires.lanes.follow(event, &mut self.ended)?;
        self.end_stays()?;
        self.begin_stay(event)?;
        self.write_pulse(event, text)
    }

    /// Appends the last changes, after the last event.
    ///
    /// # Errors
    ///
    /// The trace is another one than before, or memory ran out.
    pub fn finish(&mut self, text: &mut String) -> Result<(), DumpFault> {
        if self.wires.sum != self.sum {
            return Err(DumpFault::Changed);
        }
        self.pass_to(self.until, text)?;
        self.ended.clear();
        self.wires.lanes.finish(self.until, &mut self.ended)?;
        self.end_stays()?;
        in_order(&mut self.changes)?;
        push_changes(self.changes.as_slice(), &mut self.time, text)?;
        push_time(&mut self.time, self.until, text)?;
        Ok(())
    }

    /// The partitions of the module table; none without one.
    fn names(&self) -> &[Name] {
        match &self.windows {
            Some(windows) => windows.names(),
            None => &[],
        }
    }

    /// Writes the changes before this tick.
    fn pass_to(&mut self, tick: Ticks, text: &mut String) -> Result<(), DumpFault> {
        self.begin_windows(tick)?;
        self.take_begun(tick)?;
        in_order(&mut self.changes)?;
        let count = count_before(self.changes.as_slice(), tick);
        let rest = self.changes.split_off(count)?;
        push_changes(self.changes.as_slice(), &mut self.time, text)?;
        self.changes = rest;
        self.next = tick;
        Ok(())
    }

    /// Adds the changes of the windows that begin before this tick.
    fn begin_windows(&mut self, tick: Ticks) -> Result<(), MemoryFull> {
        let Some(windows) = &self.windows else {
            return Ok(());
        };
        for stretch in windows.stretches().iter().skip(self.begun_windows) {
            if stretch.span.from.0 >= tick.0 {
                break;
            }
            push_window(&mut self.changes, stretch)?;
            self.begun_windows = self.begun_windows.saturating_add(1);
        }
        Ok(())
    }

    /// Adds the beginnings of the stays that have a tick of the dump before this one.
    fn take_begun(&mut self, tick: Ticks) -> Result<(), MemoryFull> {
        let shown = self.wires.shown.open();
        for begun in &self.begun {
            let span = Span {
                from: begun.since,
                until: tick,
            };
            begun
                .marks
                .push_begin(&mut self.changes, span.within(shown))?;
        }
        let first = shown.from;
        self.begun
            .retain(|begun| tick.0 <= begun.since.0.max(first.0));
        Ok(())
    }

    /// Adds the ends of the stays that are over; and their beginnings, if these are not written.
    fn end_stays(&mut self) -> Result<(), MemoryFull> {
        let shown = self.wires.shown.open();
        for ended in &self.ended {
            let marks = Marks::of(ended);
            let span = ended_span(ended).within(shown);
            if has_taken(&mut self.begun, &marks) {
                marks.push_begin(&mut self.changes, span)?;
            }
            marks.push_end(&mut self.changes, span)?;
        }
        Ok(())
    }

    /// Notes the stay that begins with a line.
    fn begin_stay(&mut self, event: &Event) -> Result<(), MemoryFull> {
        let Some(name) = &event.partition else {
            return Ok(());
        };
        let (marks, since) = match &event.kind {
            EventKind::State(who, state) => {
                let place = self.wires.lanes.process_place(name, who)?;
                (
                    Marks::of_state(place, *state),
                    after(self.ended.as_slice(), event.tick),
                )
            }
            EventKind::Mode(mode) => {
                let place = self.wires.lanes.partition_place(name)?;
                (Marks::of_mode(place, *mode), event.tick)
            }
            _ => return Ok(()),
        };
        self.begun.push(Begun { marks, since })?;
        Ok(())
    }

    /// Writes the pulse of an event, if it is one in the ticks of the dump.
    fn write_pulse(&mut self, event: &Event, text: &mut String) -> Result<(), DumpFault> {
        if event.tick.0 < self.wires.shown.open().from.0 {
            return Ok(());
        }
        let Some(place) = self.wires.pulse_place(event)? else {
            return Ok(());
        };
        self.pulse.clear();
        push_pulse(&mut self.pulse, place, event)?;
        push_changes(self.pulse.as_slice(), &mut self.time, text)?;
        Ok(())
    }
}

/// Takes out the stay of a process or a partition, of which the other marks are too. Returns true if it
/// was there.
fn has_taken(begun: &mut Vec<Begun>, marks: &Marks) -> bool {
    let before = begun.len();
    begun.retain(|other| !other.marks.are_of_same(marks));
    begun.len() < before
}

/// The ticks of a stay.
fn ended_span(ended: &Ended) -> Span {
    match ended {
        Ended::State(_, stay) => stay.span,
        Ended::Mode(_, stay) => stay.span,
    }
}

/// The first tick of the state that a line of this tick says: that after the stay that it ends, if it
/// ends one.
fn after(ended: &[Ended], tick: Ticks) -> Ticks {
    match ended.first() {
        Some(ended) => ended_span(ended).until,
        None => tick,
    }
}

/// The number of changes before a tick, if they are in order.
fn count_before(changes: &[Change], tick: Ticks) -> usize
    ensures { result ≤ length changes.now }
{
    for (place, change) in changes.iter().enumerate() {
        if change.tick.0 >= tick.0 {
            return place;
        }
    }
    changes.len()
}
