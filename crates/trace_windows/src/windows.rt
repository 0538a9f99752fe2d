//! The windows, while the lines of a trace are read.

ghost use Rattle.std.specs.Prelude.{◌≡◌, ◌≤◌, ◌<◌, ◌&&◌, ◌==◌, ◌+◌, ℕ, [], min, IfOk, OnOk};
ghost use Rattle.std.specs.List.{list_any};
ghost use Rattle.apex_types.specs.Limits.{MOST_TICKS};
ghost use Rattle.trace_windows.specs.Stretches.{AreStretches, owner_of};
ghost use Rattle.window_table.specs.Schedules.{schedule_of};

use crate::fault::WindowsFault;
use crate::stretch::Stretch;
use apex_types::limits::MOST_TICKS;
use apex_types::{At, Event, EventKind, ModuleAction, Moment, Name, Response, Ticks};
use std::alloc::Global;
use trace_stays::Span;
use window_table::Schedule;

/// The windows of a module in the ticks that are shown, as far as lines of its trace were read.
#[derive(Drop)]
pub struct Windows {
    alloc: Global,
    schedule: Schedule,
    /// The partitions of the module table, in its order.
    names: Vec<Name>,
    /// The tick at which the frames begin.
    origin: Ticks,
    is_down: bool,
    /// The first tick that is in no stretch yet.
    next: Ticks,
    /// The tick before which the shown ticks end.
    to: Ticks,
    /// The most stretches.
    most: usize,
    stretches: Vec<Stretch>,
    ghost past: { min origin.0 to.0 ≤ next.0 },
    ghost within: { to.0 ≤ MOST_TICKS },
}

impl Windows {
    ghost use Rattle.std.specs.Prelude.{false, true, None, is_some, IfErr};
    ghost use Rattle.trace_windows.specs.Frames.{acted, at_first, is_release_at, owner_by, with_line, with_module};
    ghost use Rattle.trace_windows.specs.Names.{place_in};
    ghost use Rattle.trace_windows.specs.Read.{HasPassed, frames_of, next_acted, next_behind, next_module, next_with};
    ghost use Rattle.trace_windows.specs.Whole.{AreKept, HasBegun, HasClosed, HasRead};

    /// The windows of a schedule with these partitions, in the ticks from the first on and before
    /// the second; without it, as far as a run can go. There may be `most` stretches.
    pub fn new(
        alloc: Global,
        schedule: Schedule,
        names: Vec<Name>,
        shown: (Ticks, Option<Ticks>),
        most: usize,
    ) -> Windows
        ensures { HasBegun (schedule_of schedule) names.items shown.0.0 shown.1 result }
    {
        let (from, to) = shown;
        let to = match to {
            Some(to) => Ticks(to.0.min(MOST_TICKS)),
            None => Ticks(MOST_TICKS),
        };
        Windows {
            alloc,
            schedule,
            names,
            origin: Ticks(0),
            is_down: false,
            next: from,
            to,
            most,
            stretches: Vec::new(alloc),
        }
    }

    /// Reads the next line.
    ///
    /// # Errors
    ///
    /// The module table has no partition of this name, there are too many stretches, or memory ran
    /// out.
    #[tactic(auto, using(crate::proofs::Passed::stays))]
    pub fn read(&mut self, event: &Event) -> Result<(), WindowsFault>
        ensures { OnOk result (HasRead event.now self.old self.new) }
    {
        match &event.partition {
            Some(name) => self.know(name),
            None => self.read_module(&event.kind, event.tick),
        }
    }

    /// Adds the stretches of the ticks before this tick.
    ///
    /// # Errors
    ///
    /// There are too many, or memory ran out.
    #[tactic(auto, using(crate::proofs::Passed::stays, crate::proofs::Passed::passes))]
    pub fn pass_to(&mut self, tick: Ticks) -> Result<(), WindowsFault>
        ensures frames { OnOk result (frames_of self.new ≡ frames_of self.old) }
        ensures closed { OnOk result (HasClosed tick.0 self.old self.new) }
    {
        let until = tick.min(self.to);
        if until.0 <= self.next.0 {
            return Ok(());
        }
        let more = self.stretches_until(until)?;
        self.stretches.extend_from_slice(more.as_slice())?;
        self.next = until;
        Ok(())
    }

    /// The stretches, in their order.
    pub fn stretches(&self) -> &[Stretch]
        ensures { result.now ≡ self.now.stretches.items }
    {
        self.stretches.as_slice()
    }

    /// The partitions of the module table, in its order.
    pub fn names(&self) -> &[Name]
        ensures { result.now ≡ self.now.names.items }
    {
        self.names.as_slice()
    }

    /// The stretches from here on and before this tick.
    #[tactic(auto, using(crate::proofs::Stretched::one_more))]
    fn stretches_until(&self, until: Ticks) -> Result<Vec<Stretch>, WindowsFault>
        requires ahead { self.now.next.0 < until.0 }
        requires shown { until.0 ≤ self.now.to.0 }
        ensures { IfOk result
            (λ more. AreStretches (owner_by (schedule_of self.now.schedule) (frames_of self.now))
            self.now.next.0 until.0 more.items) }
    {
        let mut more = Vec::new(self.alloc);
        let mut now = self.next;
        while now.0 < until.0 {
            if self.stretches.len().saturating_add(more.len()) >= self.most {
                return Err(WindowsFault::TooMany);
            }
            let stretch = self.stretch(now, until);
            more.push(stretch)?;
            now = stretch.span.until;
        }
        Ok(more)
    }

    /// The stretch that begins at a tick, and ends before the other.
    fn stretch(&self, from: Ticks, until: Ticks) -> Stretch
        requires past { self.now.next.0 ≤ from.0 }
        requires ahead { from.0 < until.0 }
        requires shown { until.0 ≤ self.now.to.0 }
        ensures from { result.span.from ≡ from }
        ensures ahead { from.0 < result.span.until.0 }
        ensures before { result.span.until.0 ≤ until.0 }
        ensures owner { (t : ℕ) → from.0 ≤ t → t < result.span.until.0
            → owner_by (schedule_of self.now.schedule) (frames_of self.now) t ≡ owner_of result }
    {
        if self.is_down {
            return Stretch {
                owner: None,
                is_release: false,
                span: Span { from, until },
            };
        }
        let moment = Moment {
            at: At {
                now: from,
                origin: self.origin,
            },
        };
        let ticks = self.schedule.until_change(moment).min(until.0 - from.0);
        Stretch {
            owner: self.schedule.owner(moment),
            is_release: self.is_release(moment),
            span: Span {
                from,
                until: Ticks(from.0 + ticks),
            },
        }
    }

    /// Returns true if a window that is a release point begins at a tick.
    #[tactic(auto, using(std::proofs::lemmas::List::drop_more))]
    fn is_release(&self, moment: Moment) -> bool
        requires origin { moment.at.origin ≡ self.now.origin }
        ensures { result
            ≡ is_release_at (schedule_of self.now.schedule) (frames_of self.now)
            moment.at.now.0 }
    {
        let since = moment.at.now.0 - moment.at.origin.0;
        let place = since % u64::from(self.schedule.frame);
        for window in self.schedule.windows.as_slice() {
            if window.release && u64::from(window.offset) == place {
                return true;
            }
        }
        false
    }

    /// Refuses a partition that the module table has not.
    fn know(&self, name: &Name) -> Result<(), WindowsFault>
        ensures known { OnOk result (is_some (place_in name.now self.now.names.items) ≡ true) }
        ensures unknown { IfErr result
            (λ f. (f ≡ WindowsFault.Unknown name.now)
            × (place_in name.now self.now.names.items ≡ None)) }
    {
        match self.place_of(name) {
            Some(_) => Ok(()),
            None => Err(WindowsFault::Unknown(*name)),
        }
    }

    /// Reads a line of the module.
    #[tactic(auto, using(crate::proofs::Passed::stays))]
    fn read_module(&mut self, kind: &EventKind, tick: Ticks) -> Result<(), WindowsFault>
        ensures frames { OnOk result
            (frames_of self.new ≡ with_module kind.now tick.0 (frames_of self.old)) }
        ensures kept { OnOk result (AreKept self.old self.new) }
        ensures next { OnOk result (self.new.next.0 ≡ next_module kind.now tick.0 self.old) }
        ensures passed { OnOk result (HasPassed self.old self.new) }
    {
        match kind {
            EventKind::Error(_, _, response) => self.act(*response, tick),
            _ => Ok(()),
        }
    }

    /// Frames begin with the tick of a reset of the module, and end with a shutdown. The ticks before
    /// are those of the frames so far.
    #[tactic(auto, using(crate::proofs::Passed::stays))]
    fn act(&mut self, response: Response, tick: Ticks) -> Result<(), WindowsFault>
        ensures frames { OnOk result
            (frames_of self.new ≡ acted response tick.0 (frames_of self.old)) }
        ensures kept { OnOk result (AreKept self.old self.new) }
        ensures next { OnOk result (self.new.next.0 ≡ next_acted response tick.0 self.old) }
        ensures passed { OnOk result (HasPassed self.old self.new) }
    {
        match response {
            Response::Module(ModuleAction::Reset) => {
                self.pass_to(tick)?;
                self.origin = tick;
                Ok(())
            }
            Response::Module(ModuleAction::Shutdown) => {
                self.pass_to(tick)?;
                self.is_down = true;
                Ok(())
            }
            Response::Module(ModuleAction::Ignore) | Response::Partition(_) | Response::Handler =>
                Ok(()),
        }
    }

    /// The place of the partition with this name in the module table; `None` if there is none.
    #[tactic(auto, using(std::proofs::lemmas::List::drop_more), unfolding(crate::specs::Names::place_from))]
    pub fn place_of(&self, name: &Name) -> Option<usize>
        ensures { result ≡ place_in name.now self.now.names.items }
    {
        for (place, known) in self.names.iter().enumerate() {
            if known.as_bytes() == name.as_bytes() {
                return Some(place);
            }
        }
        None
    }
}
