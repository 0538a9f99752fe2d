//! The ticks of a module, one after another.

ghost use Rattle.std.specs.Prelude.{◌≡◌, ◌≤◌, ◌<◌, ◌+◌, ◌^◌, ℕ, None, option_map};
ghost use Rattle.apex_types.specs.Limits.{MOST_TICKS};
ghost use Rattle.module_meaning.specs.Module as meaning;
ghost use Rattle.lone_partition.specs.Outputs.{next_at, sent_of};
ghost use Rattle.module_meaning.specs.Standing.{IsNow, origin_of, ticks};
ghost use Rattle.module.specs.Standing.{moment_of};
ghost use Rattle.module.specs.Views.{members_in, plan_of, standing_of};
ghost use Rattle.lone_partition.specs.Written.{IsCourse};
ghost use Rattle.module.specs.Written.{AreFrom, HasGoneOn};

use crate::member::Module;
use apex_types::{At, DeviceLine, Moment, Sink, Ticks};
use lone_partition::Output;
use partition_base::Executor;
use regions::PartitionMem;

impl<E: Executor<Mem = PartitionMem>> Module<E> {
    /// The next tick with the current origin; `None` after a shutdown.
    pub fn moment(&self) -> Option<Moment>
        ensures { next_at result ≡ moment_of self.entry.now.now self.entry.now.origin }
    {
        let origin = self.origin?;
        Some(Moment {
            at: At {
                now: self.now,
                origin,
            },
        })
    }

    /// Makes the next tick, with its device lines. If the sink fails, the tick is not over.
    #[tactic(auto, using(crate::proofs::Standing::ticks_now))]
    pub fn tick<S: Sink>(&mut self, lines: &[DeviceLine], output: &mut Output<'_, S>)
        requires now { self.old.now.0 < MOST_TICKS }
        requires lines { meaning.of_tick self.old.now.0 lines.now ≡ lines.now }
        ensures image { self.new.image ≡ self.old.image }
        ensures written { HasGoneOn
            (ticks (plan_of self.old.image) lines.now (standing_of E.Executor self.old))
            (standing_of E.Executor self.old) (standing_of E.Executor self.new)
            (sent_of S.Sink output.old) (sent_of S.Sink output.new) }
    {
        let last = self.go(lines, output);
        if !output.has_failed() {
            self.pass(last);
        }
    }

    /// Ends the tick; the next one follows, with the origin valid from here on.
    pub fn pass(&mut self, last: Option<Moment>)
        requires now { self.old.now.0 < MOST_TICKS }
        requires of_now { IsNow self.old.now.0 (next_at last) }
        ensures image { self.new.image ≡ self.old.image }
        ensures standing { standing_of E.Executor self.new
            ≡ record {
              members = members_in E.Executor self.old.members;
              now = self.old.now.0 + 1;
              origin = option_map origin_of (next_at last);
            } }
    {
        self.now = Ticks(self.now.0 + 1);
        self.origin = match last {
            Some(moment) => Some(moment.at.origin),
            None => None,
        };
    }

    /// Lets so many ticks go by after a shutdown, in which nothing happens.
    pub fn stay_down(&mut self, ticks: u64)
        requires down { self.old.origin ≡ None }
        requires now { self.old.now.0 + ticks ≤ MOST_TICKS }
        ensures image { self.new.image ≡ self.old.image }
        ensures standing { standing_of E.Executor self.new
            ≡ record {
              members = members_in E.Executor self.old.members;
              now = self.old.now.0 + ticks;
              origin = None;
            } }
    {
        self.now = Ticks(self.now.0 + ticks);
    }

    /// The events of the next tick. After a shutdown nothing happens.
    fn go<S: Sink>(&mut self, lines: &[DeviceLine], output: &mut Output<'_, S>) -> Option<Moment>
        requires { meaning.of_tick self.old.now.0 lines.now ≡ lines.now }
        ensures image { self.new.image ≡ self.old.image }
        ensures now { self.new.now ≡ self.old.now }
        ensures written { IsCourse
            (ticks (plan_of self.old.image) lines.now (standing_of E.Executor self.old))
            (next_at result) (members_in E.Executor self.new.members) (sent_of S.Sink output.old)
            (sent_of S.Sink output.new) }
    {
        let Some(moment) = self.moment() else {
            return None;
        };
        self.members
            .begin_and_tick(&self.image, moment, lines, output)
    }
}

/// Splits these lines, which are of `tick` or later ticks, into those of `tick` and the later ones.
pub fn split_tick(lines: &[DeviceLine], tick: u64) -> (&[DeviceLine], &[DeviceLine])
    requires order { AreFrom tick lines.now }
    ensures own { result.0.now ≡ meaning.of_tick tick lines.now }
    ensures of_tick { meaning.of_tick tick result.0.now ≡ result.0.now }
    ensures later { AreFrom (tick + 1) result.1.now }
    ensures rest { (t : ℕ) → tick < t
        → meaning.of_tick t result.1.now ≡ meaning.of_tick t lines.now }
{
    lone_partition::split_tick(lines, Ticks(tick))
}

/// Those of these lines that are of `tick` or later ticks.
pub(crate) fn from_tick(lines: &[DeviceLine], tick: u64) -> &[DeviceLine]
    requires { AreFrom 0 lines.now }
    ensures order { AreFrom tick result.now }
    ensures kept { (t : ℕ) → tick ≤ t
        → meaning.of_tick t result.now ≡ meaning.of_tick t lines.now }
{
    let mut left = lines;
    while let Some((first, rest)) = left.split_first() {
        if first.tick() >= tick {
            break;
        }
        left = rest;
    }
    left
}
