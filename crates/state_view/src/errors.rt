//! The rows of the errors that wait for the handler.

ghost use Rattle.std.specs.Prelude.{◌≡◌, ◌<◌, ◌++◌, OnOk, option_map};
ghost use Rattle.state_rows.specs.Rows.{rows_in};
ghost use Rattle.state_rows.specs.States as meaning;
ghost use Rattle.state_view.specs.Chosen.{rows_if};

use crate::heading::Heading;
use crate::values::subject_word;
use apex_types::{Runner, WaitingError};
use health::Errors;
use process_table_base::ProcessTable;
use state_rows::{number, word, words};
use std::alloc::AllocError;

/// Appends the row of a waiting error with `place` others before it.
fn write_error(
    of: &Heading,
    processes: &ProcessTable,
    place: usize,
    error: &WaitingError,
    text: &mut Vec<u8>,
) -> Result<(), AllocError>
    requires { place < usize.MAX }
    ensures { OnOk result
        (text.new.items
        ≡ text.old.items
        ++ rows_in of.now.form (meaning.error_row of.now.name processes.now place error.now)) }
{
    let who = processes.subject(Runner::Process(error.process));
    let fields = [
        number("error", place as u64 + 1),
        word("kind", error.kind.word().as_bytes()),
        word("process", subject_word(&who)),
        words("message", error.words.as_slice()),
    ];
    of.row(&fields, text)
}

/// Appends the row of a waiting error with `place` others before it, if there is such an error.
fn write_if_any(
    of: &Heading,
    processes: &ProcessTable,
    place: usize,
    error: Option<&WaitingError>,
    text: &mut Vec<u8>,
) -> Result<(), AllocError>
    requires { place < usize.MAX }
    ensures { OnOk result
        (text.new.items
        ≡ text.old.items
        ++ rows_in of.now.form
        (rows_if (meaning.error_row of.now.name processes.now) place
        (option_map (λ error. error.now) error.entry))) }
{
    match error {
        Some(error) => write_error(of, processes, place, error, text),
        None => Ok(()),
    }
}

/// Appends the rows of the waiting errors.
pub(crate) fn write_errors(
    of: &Heading,
    processes: &ProcessTable,
    errors: &Errors,
    text: &mut Vec<u8>,
) -> Result<(), AllocError>
    ensures { OnOk result
        (text.new.items
        ≡ text.old.items
        ++ rows_in of.now.form
        (meaning.placed (meaning.error_row of.now.name processes.now) errors.now.waiting)) }
{
    for place in 0..errors.count() {
        write_if_any(of, processes, place, errors.waiting_after(place), text)?;
    }
    Ok(())
}
