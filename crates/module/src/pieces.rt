//! Many ticks of a module together: pieces of windows, and ticks in which nothing happens.

ghost use Rattle.std.specs.Prelude.{◌≡◌, ◌≢◌, ◌≤◌, ◌<◌, ◌+◌, ◌^◌, ℕ, suc, true, false, List, Some, None, length, option_map, slice_get};
ghost use Rattle.apex_types.specs.Limits.{MOST_TICKS};
ghost use Rattle.apex_types.specs.declared.device.DeviceLine.{DeviceLine};
ghost use Rattle.apex_types.specs.declared.identity.At.{At};
ghost use Rattle.module_meaning.specs.Module as meaning;
ghost use Rattle.kernel_meaning.specs.Windows.{tick_from, owner, ended};
ghost use Rattle.kernel_laws.specs.Quiet.{AreStill};
ghost use Rattle.lone_partition.specs.Outputs.{sent_of};
ghost use Rattle.lone_partition.specs.Pieces.{ticks_by};
ghost use Rattle.module.specs.Collecting.{BringsNothing};
ghost use Rattle.module.specs.Pieces.{AreQuiet, EndsQuietly, HasNoSource, HasPassedSome, HasPassedSomeBehind, HasSkippedSome};
ghost use Rattle.module.specs.Standing.{ticks_in};
ghost use Rattle.module.specs.Views.{members_in, plan_of, standing_of};
ghost use Rattle.lone_partition.specs.Written.{IsMade};
ghost use Rattle.module.specs.Written.{AreFrom};

use crate::member::{Members, Module};
use crate::step::number_at;
use apex_types::limits::MOST_TICKS;
use apex_types::{At, DeviceLine, Moment, PartitionId, PortId, Sink, Ticks};
use image::Image;
use lone_partition::{Output, at_most, until_line, write_piece};
use partition_base::Executor;
use regions::PartitionMem;
use window_table::Span;

impl<E: Executor<Mem = PartitionMem>> Members<E> {
    /// How many of `most` ticks, from `moment` on, pass in which nothing happens in any partition;
    /// 0 if something may.
    #[inline(always)]
    fn still_ticks(&self, moment: Moment, most: u32) -> u32
        ensures within { result ≤ most }
        ensures still { 0 < result
            → AreStill moment.at.origin.0 moment.at.now.0 (moment.at.now.0 + result)
            (members_in E.Executor self.now) }
    {
        let mut least = most;
        let mut place = 0;
        while place < self.partitions.len() {
            least = self.partitions[place].kernel().still_ticks(moment, least);
            if least == 0 {
                return 0;
            }
            place += 1;
        }
        least
    }

    /// The place of the owner of a tick, if it is one of these partitions.
    fn place_of(&self, owner: Option<PartitionId>) -> Option<usize>
        ensures some { (place : ℕ) → result ≡ Some place
            → (option_map (λ p. p.0) owner ≡ Some (suc place))
            × (place < length self.now.partitions.items) }
        ensures none { result ≡ None
            → (at : At) → meaning.ticks_owner at (members_in E.Executor self.now)
            (option_map (λ p. p.0) owner)
            ≡ meaning.still (members_in E.Executor self.now) }
    {
        let place = usize::from(owner?.place()?);
        if place < self.partitions.len() {
            Some(place)
        } else {
            None
        }
    }

    /// Whether a port of a partition may be a source; false only if none is.
    fn has_source(&self, partition: PartitionId) -> bool
        ensures { result ≡ false → HasNoSource (members_in E.Executor self.now) partition.0 }
    {
        for place in 0..self.port_count(partition) {
            let port = PortId(place + 1);
            if self.messages_to_move(partition, port).is_some() {
                return true;
            }
        }
        false
    }

    /// Moves the messages of the window that ends at a tick of a module, if one does.
    fn move_at<S: Sink>(
        &mut self,
        image: &Image,
        moment: Moment,
        ended: Option<PartitionId>,
        output: &mut Output<'_, S>,
    )
        ensures { IsMade
            (meaning.moves_ended (plan_of image.now).channels moment.at
            (members_in E.Executor self.old) (option_map (λ p. p.0) ended))
            (members_in E.Executor self.new) (sent_of S.Sink output.old)
            (sent_of S.Sink output.new) }
    {
        self.move_ended(image.channels.as_slice(), moment, ended, output);
    }

    /// Executes `most` ticks of the partition at `place`, or fewer, once the sink has failed, and
    /// writes their lines; returns how many. The partition borrows its own part of the memory, and
    /// no other partition's memory changes.
    #[tactic(auto, using(crate::proofs::Members::others))]
    fn advance_at<S: Sink>(
        &mut self,
        place: usize,
        moment: Moment,
        most: u32,
        output: &mut Output<'_, S>,
    ) -> u32
        requires there { place < length self.old.partitions.items }
        requires soon { moment.at.now.0 + most ≤ MOST_TICKS }
        ensures within { result ≤ most }
        ensures some { 0 < most → 0 < result }
        ensures written { IsMade
            (meaning.steps_member (ticks_by result moment.at) (members_in E.Executor self.old)
            place (slice_get (members_in E.Executor self.old) place))
            (members_in E.Executor self.new) (sent_of S.Sink output.old)
            (sent_of S.Sink output.new) }
        ensures others { (q : ℕ) → q ≢ place
            → slice_get self.new.memory q ≡ slice_get self.old.memory q }
    {
        let mem = self.memory.lend(number_at(place));
        write_piece(&mut self.partitions[place], mem, moment, most, output)
    }
}

/// Ticks of one owner, and the place of the window of the last ones: the hint for those after them.
#[derive(Clone, Copy)]
struct Stay {
    ticks: u32,
    window: usize,
}

/// Whether `other` is there, and is `partition`.
fn is_of(partition: PartitionId, other: Option<PartitionId>) -> bool
    ensures { result ≡ true → option_map (λ p. p.0) other ≡ Some partition.0 }
{
    match other {
        Some(other) => other.0 == partition.0,
        None => false,
    }
}

/// Whether a span begins at an edge between two windows of this partition.
fn goes_on(partition: PartitionId, span: Span) -> bool
    ensures { result ≡ true
        → (option_map (λ p. p.0) span.owner ≡ Some partition.0)
        × (option_map (λ p. p.0) span.ended ≡ Some partition.0) }
{
    is_of(partition, span.owner) && is_of(partition, span.ended)
}

impl<E: Executor<Mem = PartitionMem>> Module<E> {
    /// Skips `ticks` ticks; the origin stays.
    fn skip(&mut self, ticks: u32)
        requires soon { self.old.now.0 + ticks ≤ MOST_TICKS }
        ensures image { self.new.image ≡ self.old.image }
        ensures members { self.new.members ≡ self.old.members }
        ensures standing { standing_of E.Executor self.new
            ≡ record {
              members = members_in E.Executor self.old.members;
              now = self.old.now.0 + ticks;
              origin = ticks_in self.old.origin;
            } }
        ensures origin { self.new.origin ≡ self.old.origin }
    {
        self.now = Ticks(self.now.0 + u64::from(ticks));
    }

    /// Executes `most` ticks of the owner of a window, and writes their lines; returns how many.
    /// Once the sink has failed it stops, but not before the first buffer. The messages of the first
    /// tick have moved already.
    fn piece<S: Sink>(
        &mut self,
        origin: Ticks,
        place: usize,
        most: u32,
        output: &mut Output<'_, S>,
    ) -> u32
        requires origin { self.old.origin ≡ Some origin }
        requires soon { self.old.now.0 + most ≤ MOST_TICKS }
        requires some { 0 < most }
        requires there { place < length self.old.members.partitions.items }
        requires owner { (i : ℕ) → i < most
            → owner (plan_of self.old.image).schedule (tick_from origin.0 (self.old.now.0 + i))
            ≡ Some (suc place) }
        requires ended { (i : ℕ) → 0 < i → i < most
            → EndsQuietly (plan_of self.old.image) origin.0
            (members_in E.Executor self.old.members) (suc place) (self.old.now.0 + i) }
        ensures image { self.new.image ≡ self.old.image }
        ensures run { (lines : List DeviceLine) → AreFrom (self.old.now.0 + most) lines
            → HasPassedSomeBehind (plan_of self.old.image) lines most
            (standing_of E.Executor self.old) (standing_of E.Executor self.new)
            (sent_of S.Sink output.old) (sent_of S.Sink output.new) result }
    {
        let moment = Moment {
            at: At {
                now: self.now,
                origin,
            },
        };
        let count = self.members.advance_at(place, moment, most, output);
        self.skip(count);
        count
    }

    /// Whether the window after that of the last span may be of a partition. It is only a hint: a
    /// wrong one costs time and nothing else.
    fn may_stay(&self, owner: PartitionId) -> bool {
        let windows = self.image.schedule.windows.as_slice();
        match windows.get(self.window.saturating_add(1)) {
            Some(window) => window.partition.0 == owner.0,
            None => windows
                .first()
                .is_some_and(|window| window.partition.0 == owner.0),
        }
    }

    /// How many of `most` ticks a partition owns, if it owns the first ones: those up to an edge at
    /// which the owner changes or a message may move.
    #[inline(never)]
    fn stay(&self, origin: Ticks, partition: PartitionId, first: Stay, most: u32) -> Stay
        requires past { origin.0 ≤ self.now.now.0 }
        requires soon { self.now.now.0 + most ≤ MOST_TICKS }
        requires few { first.ticks ≤ most }
        requires some { 0 < first.ticks }
        requires owner { (i : ℕ) → i < first.ticks
            → owner (plan_of self.now.image).schedule (tick_from origin.0 (self.now.now.0 + i))
            ≡ Some partition.0 }
        requires ended { (i : ℕ) → 0 < i → i < first.ticks
            → ended (plan_of self.now.image).schedule (tick_from origin.0 (self.now.now.0 + i))
            ≡ None }
        ensures few { result.ticks ≤ most }
        ensures some { 0 < result.ticks }
        ensures owner { (i : ℕ) → i < result.ticks
            → owner (plan_of self.entry.now.image).schedule (tick_from origin.0 (self.entry.now.now.0 + i))
            ≡ Some partition.0 }
        ensures ended { (i : ℕ) → 0 < i → i < result.ticks
            → EndsQuietly (plan_of self.entry.now.image) origin.0
            (members_in E.Executor self.entry.now.members) partition.0 (self.entry.now.now.0 + i) }
    {
        let mut ticks = first.ticks;
        let mut window = first.window;
        while ticks < most {
            let moment = Moment {
                at: At {
                    now: Ticks(self.now.0 + u64::from(ticks)),
                    origin,
                },
            };
            let next = self.image.schedule.span(window, moment);
            if !goes_on(partition, next) {
                break;
            }
            if self.members.has_source(partition) {
                break;
            }
            window = next.window;
            ticks += at_most(next.ticks, most - ticks);
        }
        Stay { ticks, window }
    }

    /// Executes some of `most` ticks, all of them of one owner or all without an owner. If a window
    /// ends at the first of them, its messages move before.
    fn advance_window<S: Sink>(
        &mut self,
        origin: Ticks,
        most: u32,
        output: &mut Output<'_, S>,
    ) -> u32
        requires origin { self.old.origin ≡ Some origin }
        requires begun { 0 < self.old.now.0 }
        requires soon { self.old.now.0 + most ≤ MOST_TICKS }
        requires some { 0 < most }
        ensures image { self.new.image ≡ self.old.image }
        ensures run { (lines : List DeviceLine) → AreFrom (self.old.now.0 + most) lines
            → HasPassedSome (plan_of self.old.image) lines most (standing_of E.Executor self.old)
            (standing_of E.Executor self.new) (sent_of S.Sink output.old)
            (sent_of S.Sink output.new) result }
    {
        let moment = Moment {
            at: At {
                now: self.now,
                origin,
            },
        };
        let span = self.image.schedule.span(self.window, moment);
        self.window = span.window;
        let count = at_most(span.ticks, most);
        self.members
            .move_at(&self.image, moment, span.ended, output);
        let Some(place) = self.members.place_of(span.owner) else {
            self.skip(count);
            return count;
        };
        let owner = number_at(place);
        if count == most || !self.may_stay(owner) {
            return self.piece(origin, place, count, output);
        }
        let first = Stay {
            ticks: count,
            window: span.window,
        };
        let stay = self.stay(origin, owner, first, most);
        self.window = stay.window;
        self.piece(origin, place, stay.ticks, output)
    }

    /// Skips some of `most` ticks in which nothing happens, unless a device line is of one of them;
    /// returns how many. None is skipped from tick 2^40 on.
    #[tactic(auto, using(crate::proofs::Bursts::quiet_at_once))]
    pub fn skip_still(&mut self, most: u32) -> u32
        ensures image { self.new.image ≡ self.old.image }
        ensures skipped { HasSkippedSome (plan_of self.old.image) most
            (standing_of E.Executor self.old) (standing_of E.Executor self.new) result }
        ensures quiet { AreQuiet (plan_of self.old.image) (standing_of E.Executor self.old) result }
        ensures unbrought { (p : ℕ) (lines : List DeviceLine) → AreFrom self.new.now.0 lines
            → BringsNothing (plan_of self.old.image) p lines result
            (standing_of E.Executor self.old) (standing_of E.Executor self.new) }
    {
        let Some(moment) = self.moment() else {
            return 0;
        };
        if self.now.0 == 0 {
            return 0;
        }
        let within = at_most(MOST_TICKS - self.now.0, most);
        let idle = self.members.still_ticks(moment, within);
        if idle > 0 {
            self.skip(idle);
            return idle;
        }
        0
    }

    /// Executes some of `most` ticks together, all of them before the first of these device lines;
    /// returns how many. 0 if the next tick has to be made separately: the first tick of a run, or
    /// one with a device line. 0 after a shutdown.
    pub fn advance<S: Sink>(
        &mut self,
        lines: &[DeviceLine],
        most: u32,
        output: &mut Output<'_, S>,
    ) -> u32
        requires soon { self.old.now.0 + most ≤ MOST_TICKS }
        requires order { AreFrom self.old.now.0 lines.now }
        ensures image { self.new.image ≡ self.old.image }
        ensures order { AreFrom self.new.now.0 lines.now }
        ensures run { HasPassedSome (plan_of self.old.image) lines.now most
            (standing_of E.Executor self.old) (standing_of E.Executor self.new)
            (sent_of S.Sink output.old) (sent_of S.Sink output.new) result }
    {
        let Some(moment) = self.moment() else {
            return 0;
        };
        if self.now.0 == 0 {
            return 0;
        }
        let quiet = until_line(lines, self.now, most);
        if quiet == 0 {
            return 0;
        }
        let still = self.members.still_ticks(moment, quiet);
        if still > 0 {
            self.skip(still);
            return still;
        }
        self.advance_window(moment.at.origin, quiet, output)
    }
}
