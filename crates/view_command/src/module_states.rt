//! States of the module, which a page shows.

ghost use Rattle.std.specs.Prelude.{◌≡◌, IfErr, IfSome, None, OnOk, string_bytes};
ghost use Rattle.streams.specs.States.{Seen};
ghost use Rattle.trace_page.specs.States.{wrong_line};
ghost use Rattle.view_command.specs.Answers.{AreStatesRefused, IsRefusedByStates};
ghost use Rattle.view_command.specs.Orders.{asked_text};
ghost use Rattle.view_command.specs.States.{state};
ghost use Rattle.view_command.specs.Texts.{AreStatesAsked, AreStatesIn};
ghost use Rattle.view_command.specs.Windows.{AreBadStates};

use crate::opening::{Opened, of_reading, open_text};
use crate::refusal::Refusal;
use std::alloc::Global;
use std::io::Read;
use streams::Sources;
use trace_page::{StatesFault, states_text};

/// The states in the text of this name, as the script of a page reads them, if they are asked for.
pub fn states_asked<F: Sources>(
    alloc: Global,
    states: &Option<String>,
    sources: &mut F,
) -> Result<Option<Vec<u8>>, Refusal>
    ensures states { OnOk result (AreStatesAsked (F.texts sources.old) (asked_text states.now)) }
    ensures opened { OnOk result (F.unopened sources.new ≡ F.unopened sources.old) }
    ensures kept { F.texts sources.new ≡ F.texts sources.old }
    ensures refused { (out : Seen)
        → IfErr result
        (λ r. AreStatesRefused (F.texts sources.old) (asked_text states.now)
        (state (F.unopened sources.old) out) (state (F.unopened sources.new) out) r) }
{
    match states {
        Some(name) => Ok(Some(states_of(alloc, name.as_str(), sources)?)),
        None => Ok(None),
    }
}

/// The states in the text of this name.
fn states_of<F: Sources>(alloc: Global, name: &str, sources: &mut F) -> Result<Vec<u8>, Refusal>
    ensures states { OnOk result (AreStatesIn (F.texts sources.old) name.now) }
    ensures opened { OnOk result (F.unopened sources.new ≡ F.unopened sources.old) }
    ensures kept { F.texts sources.new ≡ F.texts sources.old }
    ensures refused { (out : Seen)
        → IfErr result
        (λ r. IsRefusedByStates (F.texts sources.old) name.now
        (state (F.unopened sources.old) out) (state (F.unopened sources.new) out) r) }
{
    let text = open_text(alloc, name, sources)?;
    read_states(alloc, text)
}

/// The states that a reader has.
fn read_states<R: Read + Drop>(alloc: Global, states: Opened<R>) -> Result<Vec<u8>, Refusal>
    ensures states { OnOk result
        (IfSome (R.remaining states.reader) (λ text. wrong_line text ≡ None)) }
    ensures refused { IfErr result
        (λ r. AreBadStates (R.remaining states.reader) (string_bytes states.name) r) }
{
    let Opened { name, mut reader } = states;
    let mut text = Vec::new(alloc);
    if let Err(error) = reader.read_to_end(&mut text) {
        return Err(of_reading(name, error.kind()));
    }
    match states_text(alloc, text.as_slice()) {
        Ok(shown) => Ok(shown),
        Err(StatesFault::Memory) => Err(Refusal::Memory),
        Err(StatesFault::Line(number)) => Err(Refusal::NoRow {
            number,
            states: name,
        }),
    }
}
