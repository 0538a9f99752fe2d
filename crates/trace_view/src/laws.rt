//! Laws over the numbers of a trace: each is the contract of a function with an empty body.

ghost use Rattle.std.specs.Prelude.{◌≡◌, ℕ, List, Option, Some};
ghost use Rattle.apex_types.specs.declared.identity.Ticks.{Ticks};
ghost use Rattle.trace_stays.specs.Stays.{span};
ghost use Rattle.trace_stays.specs.declared.span.Span.{Span};
ghost use Rattle.trace_stays.specs.declared.stay.Held.{Held};
ghost use Rattle.trace_stays.specs.declared.stay.Stay.{Stay};
ghost use Rattle.trace_view.specs.Counting.{ticks_in};
ghost use Rattle.trace_view.specs.Extents.{AreLinesOf, extent_after, opened};
ghost use Rattle.trace_view.specs.Tallies.{nothing_counted};
ghost use Rattle.trace_view.specs.Turns.{AreContiguous, AreNumbersOf, AreTimesOf, StateLine, measured_by, stays_in, stays_until, tally_after, ticks_in_all};
ghost use Rattle.trace_view.specs.declared.tally.Turn.{Turn};

/// The counts of the turns of a process one by one are the sums, the counts and the times over all
/// of them.
pub fn turns_are_counted()
    ensures { (window : Span) (turns : List Turn)
        → AreNumbersOf window turns (tally_after window nothing_counted turns) }
{}

/// The times that the turns of a process measure one by one are those of its activations: to the first
/// RUNNING, and to the end.
pub fn times_are_measured()
    ensures { (window : Span) (turns : List Turn)
        → AreTimesOf window turns (measured_by window nothing_counted turns) }
{}

/// In stays that follow one another each tick counts for one state: the ticks in the four states
/// together are all ticks from the first stay to the last.
pub fn each_tick_counts_once()
    ensures { (window : Span) (from until : ℕ) (stays : List Stay) → AreContiguous from stays until
        → ticks_in_all window stays ≡ ticks_in window (span from until) }
{}

/// The stays of a process whose partition does not start again follow one another, whatever its
/// lines say.
pub fn stays_follow_one_another()
    ensures { (held : Held) (lines : List StateLine) (until : ℕ)
        → AreContiguous held.since.0 (stays_in (Some held) lines until)
        (stays_until held lines until) }
{}

/// The lines that are counted one by one are all those of the window: how many they are, the first
/// and the last.
pub fn lines_are_counted()
    ensures { (from : Ticks) (to : Option Ticks) (lines : List Ticks)
        → AreLinesOf lines (opened from to).window (extent_after (opened from to) lines) }
{}
