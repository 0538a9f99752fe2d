//! A whole text.

ghost use Rattle.std.specs.Prelude.{◌≡◌, List, length, IfOk, IfErr};
ghost use Rattle.apex_types.specs.declared.event.Event.{Event};
ghost use Rattle.trace_text.specs.Trace.{IsReadAs, IsRefusedAt};

use crate::reader::{TraceFault, TraceReader};

/// The number of lines of a trace.
///
/// # Errors
///
/// The text is no trace: the first line that is no line of a trace at its place.
pub fn check_trace(text: &[u8]) -> Result<u64, TraceFault>
    ensures trace { IfOk result
        (λ count. (events : List Event) × IsReadAs text.now events × (length events ≡ count)) }
    ensures no_trace { IfErr result (λ _. (events : List Event) → IsReadAs text.now events → ⊥) }
    ensures refused { IfErr result (λ fault. IsRefusedAt text.now fault.line) }
{
    let mut reader = TraceReader::new(text);
    while let Some(_event) = reader.next_event()? {}
    Ok(reader.lines())
}
