//! The rows of lists: of the ready processes, of those that wait, and of messages.

ghost use Rattle.std.specs.Prelude.{◌≡◌, ◌<◌, ◌++◌, OnOk, option_map};
ghost use Rattle.state_rows.specs.Fields.{field_of};
ghost use Rattle.state_rows.specs.Rows.{rows_in};
ghost use Rattle.state_rows.specs.States as meaning;
ghost use Rattle.state_view.specs.Chosen.{rows_if};

use crate::heading::Heading;
use crate::values::subject_word;
use apex_types::{Entry, ListKey, Runner, Words};
use process_table_base::ProcessTable;
use state_rows::{Field, number, word, words};
use std::alloc::AllocError;

/// Appends the row of the entry of a ready process, which has `place` entries before it.
fn write_ready_entry(
    of: &Heading,
    processes: &ProcessTable,
    place: usize,
    entry: &Entry,
    text: &mut Vec<u8>,
) -> Result<(), AllocError>
    requires { place < usize.MAX }
    ensures { OnOk result
        (text.new.items
        ≡ text.old.items
        ++ rows_in of.now.form (meaning.ready_row of.now.name processes.now place entry.now)) }
{
    let who = processes.subject(Runner::Process(entry.process));
    let fields = [
        number("ready", place as u64 + 1),
        word("process", subject_word(&who)),
        number("priority", u64::from(entry.priority.0)),
    ];
    of.row(&fields, text)
}

/// Appends the rows of the ready processes.
#[tactic(auto, using(crate::proofs::Loops::more))]
pub(crate) fn write_ready(
    of: &Heading,
    processes: &ProcessTable,
    text: &mut Vec<u8>,
) -> Result<(), AllocError>
    ensures { OnOk result
        (text.new.items
        ≡ text.old.items
        ++ rows_in of.now.form
        (meaning.placed (meaning.ready_row of.now.name processes.now) processes.now.ready)) }
{
    let ready = processes.ready(*text.allocator())?;
    let entries = ready.as_slice();
    for (place, entry) in entries.iter().enumerate() {
        write_ready_entry(of, processes, place, entry, text)?;
    }
    Ok(())
}

/// Appends the row of one that waits at an object or a port, with `place` others before it.
fn write_waiter(
    of: &Heading,
    processes: &ProcessTable,
    object: Field<'_>,
    place: usize,
    entry: &Entry,
    text: &mut Vec<u8>,
) -> Result<(), AllocError>
    requires { place < usize.MAX }
    ensures { OnOk result
        (text.new.items
        ≡ text.old.items
        ++ rows_in of.now.form
        (meaning.waiter_row of.now.name processes.now (field_of object.entry) place entry.now)) }
{
    let who = processes.subject(Runner::Process(entry.process));
    let fields = [
        number("waiter", place as u64 + 1),
        object,
        word("process", subject_word(&who)),
        number("priority", u64::from(entry.priority.0)),
    ];
    of.row(&fields, text)
}

/// Appends the rows of those that wait in a list, which is that of an object or a port.
#[tactic(auto, using(crate::proofs::Loops::more))]
pub(crate) fn write_waiters(
    of: &Heading,
    processes: &ProcessTable,
    object: Field<'_>,
    list: ListKey,
    text: &mut Vec<u8>,
) -> Result<(), AllocError>
    ensures { OnOk result
        (text.new.items
        ≡ text.old.items
        ++ rows_in of.now.form
        (meaning.waiter_rows of.now.name processes.now (field_of object.entry) list)) }
{
    let waiting = processes.waiting(list);
    let entries = waiting.as_slice();
    for (place, entry) in entries.iter().enumerate() {
        write_waiter(of, processes, object, place, entry, text)?;
    }
    Ok(())
}

/// Appends the row of a message of an object or a port, with `place` others before it.
fn write_message(
    of: &Heading,
    object: Field<'_>,
    place: usize,
    message: &Words,
    text: &mut Vec<u8>,
) -> Result<(), AllocError>
    requires { place < usize.MAX }
    ensures { OnOk result
        (text.new.items
        ≡ text.old.items
        ++ rows_in of.now.form
        (meaning.message_row of.now.name (field_of object.entry) place message.now)) }
{
    let fields = [
        number("message", place as u64 + 1),
        object,
        words("values", message.as_slice()),
    ];
    of.row(&fields, text)
}

/// Appends the row of a message with `place` others before it, if there is such a message.
pub(crate) fn write_if_any(
    of: &Heading,
    object: Field<'_>,
    place: usize,
    message: Option<&Words>,
    text: &mut Vec<u8>,
) -> Result<(), AllocError>
    requires { place < usize.MAX }
    ensures { OnOk result
        (text.new.items
        ≡ text.old.items
        ++ rows_in of.now.form
        (rows_if (meaning.message_row of.now.name (field_of object.entry)) place
        (option_map (λ message. message.now) message.entry))) }
{
    match message {
        Some(message) => write_message(of, object, place, message, text),
        None => Ok(()),
    }
}
