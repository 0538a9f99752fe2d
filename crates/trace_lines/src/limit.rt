//! Limits of how many lines of some kinds a trace may have.

ghost use Rattle.std.specs.Prelude.{◌≡◌};
ghost use Rattle.trace_lines.specs.Limiting as meant;

use crate::kinds::Kinds;
use apex_types::{ErrorKind, Event, EventKind};

/// The lines that a limit counts.
#[derive(Clone, Copy)]
pub enum Counted {
    /// Lines of these kinds.
    Kinds(Kinds),
    /// Lines that say that a deadline was missed.
    MissedDeadlines,
}

/// A limit, and how many lines more may come.
#[derive(Clone, Copy)]
pub struct Limit {
    what: Counted,
    left: u64,
}

impl Limit {
    /// At most `most` lines.
    pub fn new(what: Counted, most: u64) -> Limit
        ensures what { result.what ≡ what }
        ensures left { result.left ≡ most }
    {
        Limit { what, left: most }
    }

    /// A line of this event is read. Returns true if it is one too many.
    pub fn is_broken_by(&mut self, event: &Event) -> bool
        ensures broken { result ≡ meant.breaks self.old event.now }
        ensures left { self.new ≡ meant.behind self.old event.now }
    {
        if !self.what.has(&event.kind) {
            return false;
        }
        let is_one_too_many = self.left == 0;
        self.left = self.left.saturating_sub(1);
        is_one_too_many
    }
}

/// Limits, each of which may be left out.
#[derive(Clone, Copy)]
pub struct Limits {
    /// Of lines that may not come at all.
    pub no: Option<Limit>,
    /// Of lines that may come so often.
    pub at_most: Option<Limit>,
    /// Of missed deadlines.
    pub missed: Option<Limit>,
}

impl Limits {
    /// A line of this event is read. Returns true if it is one too many for one of them.
    pub fn are_broken_by(&mut self, event: &Event) -> bool
        ensures broken { result ≡ meant.breaks_any self.old event.now }
        ensures left { self.new ≡ meant.all_behind self.old event.now }
    {
        let is_forbidden = is_one_too_many(&mut self.no, event);
        let is_too_often = is_one_too_many(&mut self.at_most, event);
        let is_missed = is_one_too_many(&mut self.missed, event);
        is_forbidden || is_too_often || is_missed
    }
}

fn is_one_too_many(limit: &mut Option<Limit>, event: &Event) -> bool
    ensures broken { result ≡ meant.breaks_one limit.old event.now }
    ensures left { limit.new ≡ meant.one_behind limit.old event.now }
{
    match limit {
        Some(limit) => limit.is_broken_by(event),
        None => false,
    }
}

impl Counted {
    /// Returns true if lines of this kind count.
    fn has(&self, kind: &EventKind) -> bool
        ensures { result ≡ meant.counts self.now kind.now }
    {
        match self {
            Counted::Kinds(kinds) => kinds.has(kind),
            Counted::MissedDeadlines => {
                matches!(kind, EventKind::Error(ErrorKind::DeadlineMissed, _, _))
            }
        }
    }
}
