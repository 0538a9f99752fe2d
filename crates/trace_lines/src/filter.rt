//! A filter of lines.

ghost use Rattle.std.specs.Prelude.{◌≡◌};
ghost use Rattle.apex_types.specs.Line.{partition_text};
ghost use Rattle.trace_lines.specs.Filters as meant;

use crate::kinds::Kinds;
use apex_types::{Event, EventKind, Name, Subject, Ticks};
use trace_stays::subject_word;

/// What a line has to have, so that it is chosen. What is not named does not matter.
#[derive(Drop)]
pub struct Filter {
    /// The first tick.
    pub from: Ticks,
    /// The tick before which it ends.
    pub to: Option<Ticks>,
    /// What it says.
    pub kinds: Option<Kinds>,
    /// The partition, as written in the line; `-` for the module.
    pub partition: Option<String>,
    /// The process, `INIT` or `HANDLER`.
    pub process: Option<String>,
    /// The port of a message, or the channel by which it leaves the module.
    pub port: Option<String>,
}

impl Filter {
    /// Returns true if the line of this event is chosen.
    pub fn has(&self, event: &Event) -> bool
        ensures { result ≡ meant.is_chosen self.now event.now }
    {
        self.from.0 <= event.tick.0
            && is_before(self.to, event.tick.0)
            && is_of_kind(&self.kinds, &event.kind)
            && is_of_partition(&self.partition, &event.partition)
            && names_subject(&self.process, subject_in(&event.kind))
            && names_route(&self.port, route_in(&event.kind))
    }

    /// Returns true if a view with this filter reads the line of this event: if it is chosen, or if a
    /// partition that is asked for enters a mode. With a mode the stays of its processes are over,
    /// whatever else is asked for.
    pub fn shows(&self, event: &Event) -> bool
        ensures { result ≡ meant.is_viewed self.now event.now }
    {
        self.has(event)
            || (is_mode(&event.kind) && is_of_partition(&self.partition, &event.partition))
    }
}

fn is_mode(kind: &EventKind) -> bool
    ensures { result ≡ meant.is_mode kind.now }
{
    matches!(kind, EventKind::Mode(_))
}

/// Returns true if the partition is that which is asked for, if one is. The text `-` asks for the
/// module.
pub fn is_of_partition(asked: &Option<String>, partition: &Option<Name>) -> bool
    ensures { result ≡ meant.is_word asked.now (partition_text partition.now) }
{
    is_word(asked, partition_name(partition))
}

fn is_before(to: Option<Ticks>, tick: u64) -> bool
    ensures { result ≡ meant.is_before to tick }
{
    match to {
        Some(to) => tick < to.0,
        None => true,
    }
}

fn is_of_kind(kinds: &Option<Kinds>, kind: &EventKind) -> bool
    ensures { result ≡ meant.is_of_kind kinds.now kind.now }
{
    match kinds {
        Some(kinds) => kinds.has(kind),
        None => true,
    }
}

/// Returns true if the word is that which is asked for, if one is.
fn is_word(asked: &Option<String>, word: &str) -> bool
    ensures { result ≡ meant.is_word asked.now word.now }
{
    match asked {
        Some(asked) => asked.as_str().as_bytes() == word.as_bytes(),
        None => true,
    }
}

fn names_subject(asked: &Option<String>, who: Option<Subject>) -> bool
    ensures { result ≡ meant.names_subject asked.now who }
{
    match asked {
        Some(asked) => match &who {
            Some(who) => asked.as_str().as_bytes() == subject_word(who).as_bytes(),
            None => false,
        },
        None => true,
    }
}

fn names_route(asked: &Option<String>, route: Option<Name>) -> bool
    ensures { result ≡ meant.names_route asked.now route }
{
    match asked {
        Some(asked) => match &route {
            Some(route) => asked.as_str().as_bytes() == route.as_bytes(),
            None => false,
        },
        None => true,
    }
}

/// The partition as written in a line.
fn partition_name(partition: &Option<Name>) -> &str
    ensures { result.now ≡ partition_text partition.now }
{
    match partition {
        Some(name) => name.as_str(),
        None => "-",
    }
}

/// The process that a line is about.
pub fn subject_in(kind: &EventKind) -> Option<Subject>
    ensures { result ≡ meant.subject_in kind.now }
{
    match kind {
        EventKind::State(who, _) | EventKind::Return(who, _, _) | EventKind::Report(who, _) => {
            Some(*who)
        }
        EventKind::Error(_, who, _) => *who,
        _ => None,
    }
}

/// The port of a message, or the channel by which it leaves the module.
pub fn route_in(kind: &EventKind) -> Option<Name>
    ensures { result ≡ meant.route_in kind.now }
{
    match kind {
        EventKind::Move(name, _)
        | EventKind::Arrive(name, _)
        | EventKind::Lost(name, _)
        | EventKind::Out(name, _) => Some(*name),
        _ => None,
    }
}
