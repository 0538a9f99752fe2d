//! Texts that are opened by their names.

ghost use Rattle.std.specs.Prelude.{◌≡◌, ℕ, List, Option, IfErr, IfOk, OnOk, string_bytes};
ghost use Rattle.streams.specs.Contents.{Opens};
ghost use Rattle.view_command.specs.Faults.{IsUnopened, of_source};
ghost use Rattle.view_command.specs.Lines.{called};
ghost use Rattle.view_command.specs.Windows.{AreBadStates, IsBadTable};

use crate::refusal::Refusal;
use std::alloc::Global;
use std::io::ErrorKind;
use streams::{NameFault, Sources};

/// A text that is not read yet, and what it is called in the line of a refusal.
#[derive(Drop)]
pub struct Opened<R> {
    pub name: String,
    pub reader: R,
}

/// The text of this name.
pub fn open_text<F: Sources>(
    alloc: Global,
    name: &str,
    sources: &mut F,
) -> Result<Opened<F::Reader>, Refusal>
    ensures opened { IfOk result
        (λ text. Opens (F.texts sources.old) name.now (F.Reader.remaining text.reader)) }
    ensures called { IfOk result (λ text. string_bytes text.name ≡ called name.now) }
    ensures kept { F.texts sources.new ≡ F.texts sources.old }
    ensures noted { OnOk result (F.unopened sources.new ≡ F.unopened sources.old) }
    ensures refused { IfErr result
        (λ r. IsUnopened name.now (F.unopened sources.old) (F.unopened sources.new) r) }
{
    let shown = String::from_str(alloc, called(name))?;
    match sources.open(name) {
        Ok(reader) => Ok(Opened {
            name: shown,
            reader,
        }),
        Err(fault) => Err(of_source(shown, fault)),
    }
}

/// The refusal of a text that was not opened.
fn of_source(name: String, fault: NameFault) -> Refusal
    ensures { result ≡ of_source name fault }
{
    match fault {
        NameFault::Unavailable(_) => Refusal::Open(name),
        NameFault::Memory => Refusal::Memory,
    }
}

/// The refusal of a text that was not read to its end.
pub fn of_reading(name: String, kind: ErrorKind) -> Refusal
    ensures table { (text : Option (List ℕ)) → IsBadTable text (string_bytes name) result }
    ensures states { (text : Option (List ℕ)) → AreBadStates text (string_bytes name) result }
{
    match kind {
        ErrorKind::OutOfMemory => Refusal::Memory,
        _ => Refusal::Read(name),
    }
}

/// The name of a text in a line for a reader.
pub fn called(trace: &str) -> &str
    ensures { result.now ≡ called trace.now }
{
    if trace == "-" {
        "the standard input"
    } else {
        trace
    }
}
