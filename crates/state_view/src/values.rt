//! Words and values of rows.

ghost use Rattle.std.specs.Prelude.{◌≡◌};
ghost use Rattle.apex_types.specs.Line.{subject_text};
ghost use Rattle.state_rows.specs.Fields.{value_of};
ghost use Rattle.state_rows.specs.States as meaning;

use apex_types::{Discipline, Due, PortDirection, Subject};
use state_rows::Value;

/// The word of a subject.
pub(crate) fn subject_word(who: &Subject) -> &[u8]
    ensures { result.now ≡ subject_text who.now }
{
    match who {
        Subject::Init => b"INIT",
        Subject::Handler => b"HANDLER",
        Subject::Process(name) => name.as_bytes(),
    }
}

/// The word of a discipline.
pub(crate) fn discipline_word(discipline: Discipline) -> &'static [u8]
    ensures { result.now ≡ meaning.discipline_word discipline }
{
    match discipline {
        Discipline::Fifo => b"FIFO",
        Discipline::Priority => b"PRIORITY",
    }
}

/// The word of a direction.
pub(crate) fn direction_word(direction: PortDirection) -> &'static [u8]
    ensures { result.now ≡ meaning.direction_word direction }
{
    match direction {
        PortDirection::Source => b"SOURCE",
        PortDirection::Destination => b"DESTINATION",
    }
}

/// The number of the runner with a place: INIT and the handler have none.
#[tactic(auto, using(crate::proofs::Places::number_at))]
pub(crate) fn runner_number<'a>(place: usize) -> Value<'a>
    ensures { value_of result ≡ meaning.number_of (meaning.runner_at place) }
{
    match place {
        0 | 1 => Value::Nothing,
        _ => Value::Count(place as u64 - 1),
    }
}

/// What happens at a due time.
pub(crate) fn due_word<'a>(due: Option<Due>) -> Value<'a>
    ensures { value_of result ≡ meaning.due_word due }
{
    match due {
        None => Value::Nothing,
        Some(Due::Release(_)) => Value::Word(b"RELEASE"),
        Some(Due::Delay(_)) => Value::Word(b"DELAY"),
        Some(Due::TimeOut(_)) => Value::Word(b"TIME_OUT"),
    }
}

/// When it happens.
pub(crate) fn due_tick<'a>(due: Option<Due>) -> Value<'a>
    ensures { value_of result ≡ meaning.due_tick due }
{
    match due {
        None => Value::Nothing,
        Some(Due::Release(tick)) => Value::Count(tick.0),
        Some(Due::Delay(tick)) => Value::Count(tick.0),
        Some(Due::TimeOut(tick)) => Value::Count(tick.0),
    }
}
