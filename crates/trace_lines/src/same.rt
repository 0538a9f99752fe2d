//! Whether two lines are the same.

ghost use Rattle.std.specs.Prelude.{◌≡◌, ◌↔◌, IsTrue};
ghost use Rattle.apex_types.specs.declared.event.EventKind.TheVariants as event;

use apex_types::{
    ErrorKind, Event, EventKind, Mode, Name, ProcessState, Response, ReturnCode, Service, Subject,
    Words,
};
use trace_stays::is_same_partition;

/// Returns true if both are the same line.
pub fn is_same(one: &Event, other: &Event) -> bool
    ensures { IsTrue result ↔ (one.now ≡ other.now) }
{
    one.tick.0 == other.tick.0
        && is_same_partition(&one.partition, &other.partition)
        && is_same_kind(&one.kind, &other.kind)
}

/// Returns true if both say the same.
fn is_same_kind(one: &EventKind, other: &EventKind) -> bool
    ensures { IsTrue result ↔ (one.now ≡ other.now) }
{
    match one {
        EventKind::State(who, state) => is_state(other, who, *state),
        EventKind::Return(who, service, code) => is_return(other, who, *service, *code),
        EventKind::Mode(mode) => is_mode(other, *mode),
        EventKind::Error(error, who, response) => is_error(other, *error, who, *response),
        EventKind::Report(who, words) => is_report(other, who, words),
        EventKind::Move(port, words) => is_move(other, port, words),
        EventKind::Arrive(port, words) => is_arrival(other, port, words),
        EventKind::Lost(port, words) => is_loss(other, port, words),
        EventKind::Out(channel, words) => is_out(other, channel, words),
    }
}

fn is_state(kind: &EventKind, who: &Subject, state: ProcessState) -> bool
    ensures { IsTrue result ↔ (event.State who.now state ≡ kind.now) }
{
    match kind {
        EventKind::State(other, other_state) => {
            is_same_subject(who, other) && state == *other_state
        }
        _ => false,
    }
}

fn is_return(kind: &EventKind, who: &Subject, service: Service, code: ReturnCode) -> bool
    ensures { IsTrue result ↔ (event.Return who.now service code ≡ kind.now) }
{
    match kind {
        EventKind::Return(other, other_service, other_code) => {
            is_same_subject(who, other)
                && is_same_service(service, *other_service)
                && code == *other_code
        }
        _ => false,
    }
}

fn is_mode(kind: &EventKind, mode: Mode) -> bool
    ensures { IsTrue result ↔ (event.Mode mode ≡ kind.now) }
{
    match kind {
        EventKind::Mode(other) => mode == *other,
        _ => false,
    }
}

fn is_error(kind: &EventKind, error: ErrorKind, who: &Option<Subject>, response: Response) -> bool
    ensures { IsTrue result ↔ (event.Error error who.now response ≡ kind.now) }
{
    match kind {
        EventKind::Error(other_error, other, other_response) => {
            error == *other_error && is_same_culprit(who, other) && response == *other_response
        }
        _ => false,
    }
}

fn is_report(kind: &EventKind, who: &Subject, words: &Words) -> bool
    ensures { IsTrue result ↔ (event.Report who.now words.now ≡ kind.now) }
{
    match kind {
        EventKind::Report(other, other_words) => {
            is_same_subject(who, other) && are_same_words(words, other_words)
        }
        _ => false,
    }
}

fn is_move(kind: &EventKind, port: &Name, words: &Words) -> bool
    ensures { IsTrue result ↔ (event.Move port.now words.now ≡ kind.now) }
{
    match kind {
        EventKind::Move(other, other_words) => {
            is_same_name(port, other) && are_same_words(words, other_words)
        }
        _ => false,
    }
}

fn is_arrival(kind: &EventKind, port: &Name, words: &Words) -> bool
    ensures { IsTrue result ↔ (event.Arrive port.now words.now ≡ kind.now) }
{
    match kind {
        EventKind::Arrive(other, other_words) => {
            is_same_name(port, other) && are_same_words(words, other_words)
        }
        _ => false,
    }
}

fn is_loss(kind: &EventKind, port: &Name, words: &Words) -> bool
    ensures { IsTrue result ↔ (event.Lost port.now words.now ≡ kind.now) }
{
    match kind {
        EventKind::Lost(other, other_words) => {
            is_same_name(port, other) && are_same_words(words, other_words)
        }
        _ => false,
    }
}

fn is_out(kind: &EventKind, channel: &Name, words: &Words) -> bool
    ensures { IsTrue result ↔ (event.Out channel.now words.now ≡ kind.now) }
{
    match kind {
        EventKind::Out(other, other_words) => {
            is_same_name(channel, other) && are_same_words(words, other_words)
        }
        _ => false,
    }
}

fn is_same_name(one: &Name, other: &Name) -> bool
    ensures { IsTrue result ↔ (one.now ≡ other.now) }
{
    one.as_bytes() == other.as_bytes()
}

#[tactic(auto, using(crate::proofs::Words::same_items))]
fn are_same_words(one: &Words, other: &Words) -> bool
    ensures { IsTrue result ↔ (one.now ≡ other.now) }
{
    are_same(one.as_slice(), other.as_slice())
}

fn are_same(one: &[i64], other: &[i64]) -> bool
    ensures { IsTrue result ↔ (one.now ≡ other.now) }
{
    one == other
}

/// Returns true if both are the same service. No two have the same word.
fn is_same_service(one: Service, other: Service) -> bool
    ensures { IsTrue result ↔ (one ≡ other) }
{
    one.word().as_bytes() == other.word().as_bytes()
}

fn is_same_subject(one: &Subject, other: &Subject) -> bool
    ensures { IsTrue result ↔ (one.now ≡ other.now) }
{
    match (one, other) {
        (Subject::Init, Subject::Init) => true,
        (Subject::Handler, Subject::Handler) => true,
        (Subject::Process(one), Subject::Process(other)) => is_same_name(one, other),
        _ => false,
    }
}

fn is_same_culprit(one: &Option<Subject>, other: &Option<Subject>) -> bool
    ensures { IsTrue result ↔ (one.now ≡ other.now) }
{
    match (one, other) {
        (Some(one), Some(other)) => is_same_subject(one, other),
        (None, None) => true,
        _ => false,
    }
}
