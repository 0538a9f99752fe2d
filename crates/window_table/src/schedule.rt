//! The major frame: whose tick it is, whose window ends, and when a partition is released next.

ghost use Rattle.std.specs.Prelude.{◌≡◌, ◌<◌, ◌==◌, ◌+◌, ◌%◌, min, IfOk, filter};
ghost use Rattle.window_table.specs.Edges.{until_edge};
ghost use Rattle.window_table.specs.Orders.{AreApart};
ghost use Rattle.kernel_meaning.specs.Windows.{is_within, ends_at, releases};

use apex_types::{Moment, PartitionId, Ticks, WindowRow};
use std::alloc::{AllocError, Global};

/// The ticks of the major frame, and its windows in the order of the table. The frame is above 0.
/// Each window begins at or after the end of the one before it, is not empty, and ends within the
/// frame.
#[derive(Drop)]
pub struct Schedule {
    pub frame: u32,
    pub windows: Vec<WindowRow>,
    ghost frame_there: { 0 < frame },
    ghost apart: { AreApart frame windows.items },
}

/// Returns true if a window holds a place of the frame.
fn is_within(place: Ticks, window: &WindowRow) -> bool
    ensures { result ≡ is_within place.0 window.now }
{
    let offset = u64::from(window.offset);
    offset <= place.0 && place.0 < offset + u64::from(window.length)
}

/// Returns true if a window ends just before a place of a frame.
fn ends_at(frame: u32, place: Ticks, window: &WindowRow) -> bool
    requires { 0 < frame }
    ensures { result ≡ ends_at frame place.0 window.now }
{
    (u64::from(window.offset) + u64::from(window.length)) % u64::from(frame) == place.0
}

/// The ticks from a place of a frame to an edge; the ticks left of the frame if the edge does not
/// follow.
fn until_edge(frame: u32, place: Ticks, edge: u64) -> u64
    requires within { place.0 < frame }
    ensures computed { result ≡ until_edge frame place.0 edge }
    ensures some { 0 < result }
{
    if place.0 < edge {
        edge - place.0
    } else {
        u64::from(frame) - place.0
    }
}

/// The ticks from a place of a frame to the nearer edge of a window; the rest of the frame counts
/// for an edge that does not follow.
fn until_edges(frame: u32, place: Ticks, window: &WindowRow) -> u64
    requires within { place.0 < frame }
    ensures computed { result
        ≡ min (until_edge frame place.0 window.now.offset)
        (until_edge frame place.0 ((window.now.offset + window.now.length) % frame)) }
    ensures some { 0 < result }
{
    let end = (u64::from(window.offset) + u64::from(window.length)) % u64::from(frame);
    until_edge(frame, place, u64::from(window.offset)).min(until_edge(frame, place, end))
}

/// Returns true if a window is a release window of a partition.
pub fn releases(partition: PartitionId, window: &WindowRow) -> bool
    ensures { result ≡ releases partition.0 window.now }
{
    window.release && window.partition.0 == partition.0
}

/// The windows of one partition.
#[tactic(auto, using(std::proofs::lemmas::List::drop_more))]
fn own_windows(
    alloc: Global,
    windows: &[WindowRow],
    partition: PartitionId,
) -> Result<Vec<WindowRow>, AllocError>
    ensures { IfOk result
        (λ own. own.items ≡ filter (λ w. w.partition.0 == partition.0) windows.now) }
{
    let mut own = Vec::new(alloc);
    for window in windows {
        if window.partition.0 == partition.0 {
            own.push(*window)?;
        }
    }
    Ok(own)
}

impl Schedule {
    ghost use Rattle.std.specs.Prelude.{◌≡◌, ◌≤◌, ◌<◌, ◌+◌, ℕ, None, option_map, IsTrue, IfOk};
    ghost use Rattle.apex_types.specs.declared.limits.TheConstants.{LATEST_RELEASE_POINT};
    ghost use Rattle.kernel_meaning.specs.Windows.{at_tick, schedule_of_partition, owner, ended, has_release, until_start, until_one_of, next_release};
    ghost use Rattle.kernel_meaning.specs.WindowFacts.{IsNextRelease};
    ghost use Rattle.window_table.specs.Schedules.{schedule_of};
    ghost use Rattle.window_table.specs.Edges.{until_edges};

    /// A copy of the schedule. Fails only if memory runs out.
    pub fn try_clone(&self, alloc: Global) -> Result<Schedule, AllocError>
        ensures { IfOk result (λ copy. schedule_of copy ≡ schedule_of self.now) }
    {
        let windows = Vec::from_slice(alloc, self.windows.as_slice())?;
        Ok(Schedule {
            frame: self.frame,
            windows,
        })
    }

    /// The same frame with only the windows of one partition. Fails only if memory runs out.
    pub fn of_partition(
        &self,
        alloc: Global,
        partition: PartitionId,
    ) -> Result<Schedule, AllocError>
        ensures { IfOk result
            (λ own. schedule_of own ≡ schedule_of_partition partition.0 (schedule_of self.now)) }
    {
        Ok(Schedule {
            frame: self.frame,
            windows: own_windows(alloc, self.windows.as_slice(), partition)?,
        })
    }

    /// The place in its frame of the tick that is `since` ticks after the origin.
    pub(crate) fn phase(&self, since: u64) -> Ticks
        ensures place { result.0 ≡ since % self.now.frame }
        ensures within { result.0 < self.now.frame }
    {
        Ticks(since % u64::from(self.frame))
    }

    /// The partition whose window holds a tick, if any.
    #[tactic(auto, using(std::proofs::lemmas::List::drop_more))]
    pub fn owner(&self, moment: Moment) -> Option<PartitionId>
        ensures { option_map (λ p. p.0) result ≡ owner (schedule_of self.now) moment.at }
    {
        let at = moment.at;
        let place = self.phase(at.now.0 - at.origin.0);
        for window in self.windows.as_slice() {
            if is_within(place, window) {
                return Some(window.partition);
            }
        }
        None
    }

    /// The partition whose window ends at a tick, if any: the tick before it was its last. At the
    /// origin none ends.
    #[tactic(auto, using(std::proofs::lemmas::List::drop_more))]
    pub fn ended(&self, moment: Moment) -> Option<PartitionId>
        ensures { option_map (λ p. p.0) result ≡ ended (schedule_of self.now) moment.at }
    {
        let at = moment.at;
        if at.now.0 <= at.origin.0 {
            return None;
        }
        let place = self.phase(at.now.0 - at.origin.0);
        for window in self.windows.as_slice() {
            if ends_at(self.frame, place, window) {
                return Some(window.partition);
            }
        }
        None
    }

    /// The ticks from a place of the frame to the next edge of a window, or to the frame's end.
    #[tactic(auto, using(std::proofs::lemmas::List::drop_more, crate::proofs::Changes::until_one))]
    fn until_next_edge(&self, place: Ticks) -> u64
        requires within { place.0 < self.now.frame }
        ensures computed { result ≡ until_edges self.now.frame place.0 self.now.windows.items }
        ensures some { 0 < result }
    {
        let mut least = u64::from(self.frame) - place.0;
        for window in self.windows.as_slice() {
            least = least.min(until_edges(self.frame, place, window));
        }
        least
    }

    /// The number of ticks from `moment` for which the owner stays and, after `moment`, no window
    /// ends; at least one.
    pub fn until_change(&self, moment: Moment) -> u64
        ensures some { 0 < result }
        ensures owner { (i : ℕ) → i < result
            → owner (schedule_of self.now) (at_tick moment.at (moment.at.now.0 + i))
            ≡ owner (schedule_of self.now) moment.at }
        ensures ended { (i : ℕ) → 0 < i → i < result
            → ended (schedule_of self.now) (at_tick moment.at (moment.at.now.0 + i)) ≡ None }
    {
        let at = moment.at;
        self.until_next_edge(self.phase(at.now.0 - at.origin.0))
    }

    /// The ticks from a tick until a window starts next: at least one, and at most a frame.
    fn until_start(&self, window: &WindowRow, moment: Moment) -> Ticks
        ensures { result.0 ≡ until_start (schedule_of self.now) window.now moment.at }
    {
        let at = moment.at;
        let place = self.phase(at.now.0 + 1 - at.origin.0);
        let frame = u64::from(self.frame);
        Ticks(1 + (u64::from(window.offset) + frame - place.0) % frame)
    }

    /// The ticks from a tick until a release window of a partition starts next: at most a frame.
    #[tactic(auto, using(std::proofs::lemmas::List::drop_more, crate::proofs::Periods::until_first))]
    fn until_release(&self, partition: PartitionId, moment: Moment) -> Ticks
        ensures computed { result.0
            ≡ until_one_of (schedule_of self.now) partition.0 moment.at self.now.windows.items }
        ensures bound { result.0 ≤ self.now.frame }
    {
        let mut least = Ticks(u64::from(self.frame));
        for window in self.windows.as_slice() {
            if releases(partition, window) {
                least = least.min(self.until_start(window, moment));
            }
        }
        least
    }

    /// The tick of the next release; without a release window, a tick one frame later.
    fn release_after(&self, partition: PartitionId, moment: Moment) -> Ticks
        ensures computed { result.0 ≡ next_release (schedule_of self.now) partition.0 moment.at }
        ensures soon { result.0 ≤ LATEST_RELEASE_POINT }
    {
        Ticks(moment.at.now.0 + self.until_release(partition, moment).0)
    }

    /// The least tick after `moment` at which a release window of a partition starts; without a
    /// release window, a tick one frame later.
    pub fn next_release(&self, partition: PartitionId, moment: Moment) -> Ticks
        ensures computed { result.0 ≡ next_release (schedule_of self.now) partition.0 moment.at }
        ensures soon { result.0 ≤ LATEST_RELEASE_POINT }
        ensures least { IsTrue (has_release self.now.windows.items partition.0)
            → IsNextRelease (schedule_of self.now) partition.0 moment.at result.0 }
    {
        self.release_after(partition, moment)
    }
}
