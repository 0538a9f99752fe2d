//! Spans of ticks between two edges of windows, found from a hint.

ghost use Rattle.std.specs.Prelude.{◌≡◌, ◌<◌, ◌+◌, ◌-◌, ℕ, None, option_map, slice_get};
ghost use Rattle.kernel_meaning.specs.Windows.{at_tick, owner, ended};
ghost use Rattle.window_table.specs.Edges.{until_edges};
ghost use Rattle.window_table.specs.Schedules.{schedule_of};
ghost use Rattle.window_table.specs.Spans.{end_of, ended_before, ended_in, first_left, is_first_left, is_left, is_over, next_edge, owner_in};

use crate::schedule::Schedule;
use apex_types::{Moment, PartitionId, Ticks, WindowRow};

/// The ticks from one on in which the owner stays and no further window ends.
#[derive(Clone, Copy)]
pub struct Span {
    /// The place of the window that holds these ticks, or comes next in the frame: the hint for the
    /// next span.
    pub window: usize,
    /// The partition whose window holds these ticks, if any.
    pub owner: Option<PartitionId>,
    /// The partition whose window ends at the first of these ticks, if any.
    pub ended: Option<PartitionId>,
    /// How many ticks these are, at least one.
    pub ticks: u64,
}

/// The place of the frame at which a window ends; the frame's length if it ends with the frame.
fn end_of(window: &WindowRow) -> u64
    ensures { result ≡ end_of window.now }
{
    u64::from(window.offset) + u64::from(window.length)
}

/// Whether a window ends at a place of the frame or before it.
fn is_over(place: Ticks, window: Option<&WindowRow>) -> bool
    ensures { result ≡ is_over place.0 (option_map (λ w. w.now) window.entry) }
{
    match window {
        Some(window) => end_of(window) <= place.0,
        None => false,
    }
}

/// Whether a window ends after a place of the frame, or there is none.
fn is_left(place: Ticks, window: Option<&WindowRow>) -> bool
    ensures { result ≡ is_left place.0 (option_map (λ w. w.now) window.entry) }
{
    match window {
        Some(window) => place.0 < end_of(window),
        None => true,
    }
}

/// The partition of a window that holds a place of the frame, where the window is the first that
/// ends after it.
fn owner_in(place: Ticks, window: Option<&WindowRow>) -> Option<PartitionId>
    ensures { option_map (λ p. p.0) result ≡ owner_in place.0 (option_map (λ w. w.now) window.entry) }
{
    match window {
        Some(window) if u64::from(window.offset) <= place.0 => Some(window.partition),
        _ => None,
    }
}

/// The partition of a window that ends at an edge of the frame.
fn ended_in(edge: u64, window: Option<&WindowRow>) -> Option<PartitionId>
    ensures { option_map (λ p. p.0) result ≡ ended_in edge (option_map (λ w. w.now) window.entry) }
{
    match window {
        Some(window) if end_of(window) == edge => Some(window.partition),
        _ => None,
    }
}

/// The next edge of a window after a place of the frame, where the window is the first that ends
/// after it; without such a window the frame's end.
fn next_edge(frame: u32, place: Ticks, window: Option<&WindowRow>) -> u64
    ensures { result ≡ next_edge frame place.0 (option_map (λ w. w.now) window.entry) }
{
    match window {
        Some(window) if place.0 < u64::from(window.offset) => u64::from(window.offset),
        Some(window) => end_of(window),
        None => u64::from(frame),
    }
}

impl Schedule {
    /// Whether the window at `window` is the first that ends after a place of the frame; true for
    /// the number of windows if none does.
    fn is_first_left(&self, window: usize, place: Ticks) -> bool
        ensures { result ≡ is_first_left place.0 self.now.windows.items window }
    {
        let windows = self.windows.as_slice();
        let is_left = is_left(place, windows.get(window));
        match window.checked_sub(1) {
            Some(last) => is_left && is_over(place, windows.get(last)),
            None => is_left,
        }
    }

    /// The place of the first window that ends after a place of the frame, or the number of windows
    /// if none does.
    #[tactic(auto, using(std::proofs::lemmas::List::drop_more))]
    fn first_left(&self, place: Ticks) -> usize
        ensures { result ≡ first_left place.0 self.now.windows.items }
    {
        let mut before = 0;
        for window in self.windows.as_slice() {
            if place.0 < end_of(window) {
                return before;
            }
            before += 1;
        }
        before
    }

    /// The same. It is found directly if the hint is this window or the one before.
    #[tactic(auto, using(crate::proofs::Spans::is_the_first))]
    fn first_left_from(&self, hint: usize, place: Ticks) -> usize
        ensures { result ≡ first_left place.0 self.now.windows.items }
    {
        let next = hint.saturating_add(1);
        if self.is_first_left(next, place) {
            return next;
        }
        if self.is_first_left(hint, place) {
            return hint;
        }
        self.first_left(place)
    }

    /// The partition whose window ends at a place of the frame, where the window at `window` is the
    /// first that ends after it.
    fn ended_before(&self, window: usize, place: Ticks) -> Option<PartitionId>
        ensures { option_map (λ p. p.0) result
            ≡ ended_before self.now.frame place.0 self.now.windows.items window }
    {
        let windows = self.windows.as_slice();
        if place.0 == 0 {
            return ended_in(u64::from(self.frame), windows.last());
        }
        match window.checked_sub(1) {
            Some(last) => ended_in(place.0, windows.get(last)),
            None => None,
        }
    }

    /// The owner of a place of the frame, where the window at `window` is the first that ends after
    /// it.
    fn owner_in(&self, window: usize, place: Ticks) -> Option<PartitionId>
        ensures { option_map (λ p. p.0) result
            ≡ owner_in place.0 (slice_get self.now.windows.items window) }
    {
        owner_in(place, self.windows.as_slice().get(window))
    }

    /// The next edge of a window after a place of the frame, where the window at `window` is the
    /// first that ends after it.
    fn next_edge(&self, window: usize, place: Ticks) -> u64
        ensures { result
            ≡ next_edge self.now.frame place.0 (slice_get self.now.windows.items window) }
    {
        next_edge(self.frame, place, self.windows.as_slice().get(window))
    }

    /// The span of ticks that begins at a tick. It is the same for every hint. Where the hint is the
    /// window of the span before, it is found without a search.
    #[inline(always)]
    pub fn span(&self, hint: usize, moment: Moment) -> Span
        ensures owner { option_map (λ p. p.0) result.owner ≡ owner (schedule_of self.now) moment.at }
        ensures ended { option_map (λ p. p.0) result.ended ≡ ended (schedule_of self.now) moment.at }
        ensures some { 0 < result.ticks }
        ensures stays { (i : ℕ) → i < result.ticks
            → owner (schedule_of self.now) (at_tick moment.at (moment.at.now.0 + i))
            ≡ owner (schedule_of self.now) moment.at }
        ensures none_ends { (i : ℕ) → 0 < i → i < result.ticks
            → ended (schedule_of self.now) (at_tick moment.at (moment.at.now.0 + i)) ≡ None }
    {
        let at = moment.at;
        let place = self.phase(at.now.0 - at.origin.0);
        let window = self.first_left_from(hint, place);
        let ended = if at.now.0 <= at.origin.0 {
            None
        } else {
            self.ended_before(window, place)
        };
        Span {
            window,
            owner: self.owner_in(window, place),
            ended,
            ticks: self.next_edge(window, place) - place.0,
        }
    }
}
