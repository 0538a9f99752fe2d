//! The ticks of a run are counted while its lines are read.

ghost use Rattle.std.specs.Prelude.{◌≡◌, ◌≤◌, ◌<◌, ◌-◌, ◌*◌, [], None, OnOk, IfOk};
ghost use Rattle.apex_types.specs.Limits.{MOST_TICKS};
ghost use Rattle.trace_windows.specs.Counts.{HasTotal};
ghost use Rattle.trace_windows.specs.Runs.{Adds, AddsTimes, HasPassed, first};
ghost use Rattle.trace_windows.specs.Standings.{in_run, passed, standing_of};
ghost use Rattle.trace_windows.specs.Uses.{last_from, use_at, use_in, works_at};
ghost use Rattle.window_table.specs.Schedules.{schedule_of};

use crate::shares::Shares;
use crate::shares_fault::SharesFault;
use crate::usage::Use;
use apex_types::limits::MOST_TICKS;
use apex_types::{At, Moment, PartitionId, Subject, Ticks};

impl Shares {
    /// Counts the ticks before this tick.
    ///
    /// # Errors
    ///
    /// Memory ran out.
    pub fn pass_to(&mut self, tick: Ticks) -> Result<(), SharesFault>
        ensures kept { OnOk result (self.new.schedule ≡ self.old.schedule) }
        ensures from { OnOk result (self.new.from ≡ self.old.from) }
        ensures standing { OnOk result
            (standing_of self.new ≡ passed (in_run tick.0) (standing_of self.old)) }
        ensures counted { OnOk result
            (HasPassed (schedule_of self.old.schedule) self.old.from.0 (standing_of self.old)
            (in_run tick.0) self.old.counted.rows.items self.new.counted.rows.items) }
        ensures total { OnOk result
            (HasTotal (in_run tick.0 - first self.old.from.0 (standing_of self.old))
            self.old.counted.rows.items self.new.counted.rows.items) }
    {
        let until = tick.0.min(MOST_TICKS);
        if until <= self.tick.0 {
            return Ok(());
        }
        let next = self.tick.0 + 1;
        self.count(self.tick.0.max(self.from.0), next, 1)?;
        self.stopped.clear();
        self.count_frames(next.max(self.from.0), until)?;
        self.tick = Ticks(until);
        Ok(())
    }

    /// Counts the ticks from one on and before the other: one frame for all whole ones, then the
    /// rest.
    fn count_frames(&mut self, from: u64, until: u64) -> Result<(), SharesFault>
        requires past { self.old.origin.0 ≤ from }
        requires within { until ≤ MOST_TICKS }
        ensures others { OnOk result (self.new ≡ record self.old { counted = self.new.counted }) }
        ensures counted { OnOk result
            (Adds (use_at (schedule_of self.old.schedule) (standing_of self.old)) from until
            self.old.counted.rows.items self.new.counted.rows.items) }
        ensures total { OnOk result
            (HasTotal (until - from) self.old.counted.rows.items self.new.counted.rows.items) }
    {
        if until <= from {
            return Ok(());
        }
        let frame = u64::from(self.schedule.frame);
        let frames = (until - from) / frame;
        if frames > 0 {
            self.count(from, from + frame, frames)?;
        }
        self.count(from + frames * frame, until, 1)
    }

    /// Counts the ticks from `from` on and before `until`.
    #[tactic(auto, using(crate::proofs::Totals::total_begin, crate::proofs::Totals::total_end))]
    fn count(&mut self, from: u64, until: u64, times: u64) -> Result<(), SharesFault>
        requires past { self.old.origin.0 ≤ from }
        requires within { until ≤ MOST_TICKS }
        ensures others { OnOk result (self.new ≡ record self.old { counted = self.new.counted }) }
        ensures counted { OnOk result
            (AddsTimes times (use_at (schedule_of self.old.schedule) (standing_of self.old)) from
            until self.old.counted.rows.items self.new.counted.rows.items) }
        ensures total { OnOk result
            (HasTotal (times * (until - from)) self.old.counted.rows.items
            self.new.counted.rows.items) }
    {
        let mut now = from;
        while now < until {
            now = self.count_stretch(now, until, times)?;
        }
        Ok(())
    }

    /// Counts the ticks from `now` on in which the processor does the same, all of them before
    /// `until`, each `times` times. Returns the tick after them.
    fn count_stretch(&mut self, now: u64, until: u64, times: u64) -> Result<u64, SharesFault>
        requires past { self.old.origin.0 ≤ now }
        requires ahead { now < until }
        requires within { until ≤ MOST_TICKS }
        ensures ahead { IfOk result (λ t. now < t) }
        ensures before { IfOk result (λ t. t ≤ until) }
        ensures others { OnOk result (self.new ≡ record self.old { counted = self.new.counted }) }
        ensures counted { IfOk result
            (λ t. AddsTimes times (use_at (schedule_of self.old.schedule) (standing_of self.old))
            now t self.old.counted.rows.items self.new.counted.rows.items) }
        ensures total { IfOk result
            (λ t. HasTotal (times * (t - now)) self.old.counted.rows.items
            self.new.counted.rows.items) }
    {
        let moment = Moment {
            at: At {
                now: Ticks(now),
                origin: self.origin,
            },
        };
        let ticks = self.schedule.until_change(moment).min(until - now);
        let used = self.used_at(moment);
        self.counted.add(&used, ticks.saturating_mul(times))?;
        Ok(now + ticks)
    }

    /// What the processor does in a tick.
    fn used_at(&self, moment: Moment) -> Use
        requires origin { moment.at.origin ≡ self.now.origin }
        ensures { result
            ≡ use_at (schedule_of self.now.schedule) (standing_of self.now) moment.at.now.0 }
    {
        if self.is_down {
            return Use::Down;
        }
        match self.schedule.owner(moment) {
            Some(partition) => self.used_in(partition),
            None => Use::Unowned,
        }
    }

    /// What the processor does in a window of a partition.
    fn used_in(&self, partition: PartitionId) -> Use
        ensures { result ≡ use_in partition.0 (standing_of self.now) }
    {
        let Some(place) = partition.place() else {
            return Use::Idle(partition);
        };
        match self.works_at(usize::from(place)) {
            Some(who) => Use::Process(partition, who),
            None => Use::Idle(partition),
        }
    }

    /// The process that works in a window of the partition at this place.
    fn works_at(&self, place: usize) -> Option<Subject>
        ensures { result ≡ works_at place (standing_of self.now) }
    {
        match self.running_at(place) {
            Some(who) => Some(who),
            None => self.stopped_at(place),
        }
    }

    /// The last process of the partition at this place that stopped in the tick of the last lines.
    #[tactic(auto, using(std::proofs::lemmas::List::drop_more), unfolding(crate::specs::Uses::last_from))]
    fn stopped_at(&self, place: usize) -> Option<Subject>
        ensures { result ≡ last_from None place self.now.stopped.items }
    {
        let mut found = None;
        for stop in self.stopped.as_slice() {
            if stop.place == place {
                found = Some(stop.who);
            }
        }
        found
    }
}
