//! One line of a trace.

ghost use Rattle.std.specs.Prelude.{◌≡◌, IfOk, Ok};
ghost use Rattle.apex_types.specs.Line.{line_of};
ghost use Rattle.apex_types.specs.declared.event.Event.{Event};
ghost use Rattle.trace_text.specs.Reading.{event_in};
ghost use Rattle.trace_text.specs.Trace.{CanBeWritten, ends, happens_in, is_handled_in};

use crate::field::{partition_of, tick_of};
use crate::kind::kind_of;
use apex_types::{Event, EventKind, Name, Response, Service, Subject};
use text_lines::split_at;

/// The bytes are no line of a trace.
#[derive(Clone, Copy, Debug)]
pub struct LineFault;

/// The event whose line this is. The line ends with its line feed.
///
/// # Errors
///
/// No event that can be written has this line.
pub fn read_line(line: &[u8]) -> Result<Event, LineFault>
    ensures written { IfOk result (λ e. CanBeWritten e × (line_of e ≡ line.now)) }
    ensures read_back { (e : Event) → CanBeWritten e → line_of e ≡ line.now → result ≡ Ok e }
{
    let (body, behind) = split_at(b'\n', line);
    let Some(rest) = behind else {
        return Err(LineFault);
    };
    if !rest.is_empty() {
        return Err(LineFault);
    }
    match event_of(body) {
        Some(event) => Ok(event),
        None => Err(LineFault),
    }
}

/// The event whose line, without its line feed, this is.
pub fn event_of(body: &[u8]) -> Option<Event>
    ensures { result ≡ event_in body.now }
{
    let (tick, rest) = split_at(b' ', body);
    let tick = tick_of(tick)?;
    let (partition, rest) = split_at(b' ', rest?);
    let partition = partition_of(partition)?;
    let kind = kind_of(rest)?;
    if !happens_in(&kind, &partition) {
        return None;
    }
    Some(Event {
        tick,
        partition,
        kind,
    })
}

/// Returns true if this kind of event can happen in this partition, or in none.
fn happens_in(kind: &EventKind, partition: &Option<Name>) -> bool
    ensures { result ≡ happens_in kind.now partition.now }
{
    match kind {
        EventKind::Error(_, who, response) => is_handled_in(*response, who, partition),
        EventKind::Return(_, service, _) => ends(*service) && partition.is_some(),
        _ => partition.is_some(),
    }
}

/// Returns true if an error can have this response. A fault of the module belongs to no partition
/// and no process, and any other error to a partition.
fn is_handled_in(response: Response, who: &Option<Subject>, partition: &Option<Name>) -> bool
    ensures { result ≡ is_handled_in response who.now partition.now }
{
    match response {
        Response::Module(_) => partition.is_none() && who.is_none(),
        _ => partition.is_some(),
    }
}

/// STOP_SELF is the one service that never ends.
fn ends(service: Service) -> bool
    ensures { result ≡ ends service }
{
    service != Service::StopSelf
}
