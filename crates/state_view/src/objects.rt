//! The rows of the objects.

ghost use Rattle.std.specs.Prelude.{◌≡◌, ◌≤◌, ◌<◌, ◌+◌, ◌++◌, OnOk};
ghost use Rattle.apex_types.specs.Limits.{MOST_OBJECTS};
ghost use Rattle.state_rows.specs.Fields.{field_of};
ghost use Rattle.state_rows.specs.Rows.{row_in, rows_in};
ghost use Rattle.state_rows.specs.States as meaning;

use crate::heading::Heading;
use crate::lists::{write_if_any, write_waiters};
use crate::values::discipline_word;
use apex_types::ListKey;
use process_table_base::ProcessTable;
use state_rows::{Field, flag, number, word};
use std::alloc::AllocError;
use sync_objects_base::{ApexEvent, Blackboard, Buffer, Objects, Semaphore};

/// Appends the rows of the semaphore at a place.
fn write_semaphore(
    of: &Heading,
    processes: &ProcessTable,
    place: usize,
    semaphore: Semaphore,
    text: &mut Vec<u8>,
) -> Result<(), AllocError>
    requires { place < MOST_OBJECTS }
    ensures { OnOk result
        (text.new.items
        ≡ text.old.items
        ++ rows_in of.now.form
        (meaning.semaphore_rows of.now.name processes.now place semaphore)) }
{
    let object = number("semaphore", place as u64 + 1);
    let fields = [
        object,
        flag("created", semaphore.is_created()),
        number("value", u64::from(semaphore.value())),
        number("maximum", u64::from(semaphore.maximum())),
        word("discipline", discipline_word(semaphore.discipline())),
    ];
    of.row(&fields, text)?;
    write_waiters(of, processes, object, ListKey::Semaphore(place as u8), text)
}

/// Appends the rows of the semaphores.
#[tactic(auto, using(crate::proofs::Loops::more))]
fn write_semaphores(
    of: &Heading,
    processes: &ProcessTable,
    objects: &Objects,
    text: &mut Vec<u8>,
) -> Result<(), AllocError>
    ensures { OnOk result
        (text.new.items
        ≡ text.old.items
        ++ rows_in of.now.form
        (meaning.placed (meaning.semaphore_rows of.now.name processes.now)
        objects.now.semaphores)) }
{
    let all = objects.semaphores();
    for (place, semaphore) in all.iter().enumerate() {
        write_semaphore(of, processes, place, *semaphore, text)?;
    }
    Ok(())
}

/// Appends the rows of the event at a place.
fn write_event(
    of: &Heading,
    processes: &ProcessTable,
    place: usize,
    event: ApexEvent,
    text: &mut Vec<u8>,
) -> Result<(), AllocError>
    requires { place < MOST_OBJECTS }
    ensures { OnOk result
        (text.new.items
        ≡ text.old.items
        ++ rows_in of.now.form (meaning.event_rows of.now.name processes.now place event)) }
{
    let object = number("event", place as u64 + 1);
    let fields = [
        object,
        flag("created", event.is_created()),
        flag("up", event.is_up()),
    ];
    of.row(&fields, text)?;
    write_waiters(of, processes, object, ListKey::Event(place as u8), text)
}

/// Appends the rows of the events.
#[tactic(auto, using(crate::proofs::Loops::more))]
fn write_events(
    of: &Heading,
    processes: &ProcessTable,
    objects: &Objects,
    text: &mut Vec<u8>,
) -> Result<(), AllocError>
    ensures { OnOk result
        (text.new.items
        ≡ text.old.items
        ++ rows_in of.now.form
        (meaning.placed (meaning.event_rows of.now.name processes.now) objects.now.events)) }
{
    let all = objects.events();
    for (place, event) in all.iter().enumerate() {
        write_event(of, processes, place, *event, text)?;
    }
    Ok(())
}

/// Appends the row of the buffer with this number.
fn write_buffer_row(
    of: &Heading,
    object: Field<'_>,
    buffer: &Buffer,
    text: &mut Vec<u8>,
) -> Result<(), AllocError>
    ensures { OnOk result
        (text.new.items
        ≡ text.old.items
        ++ row_in of.now.form
        (meaning.buffer_row of.now.name (field_of object.entry) buffer.now)) }
{
    let status = buffer.status();
    let fields = [
        object,
        flag("created", status.created),
        number("words", u64::from(status.row.words)),
        number("depth", u64::from(status.row.depth)),
        word("discipline", discipline_word(status.row.discipline)),
        number("messages", u64::from(status.messages)),
    ];
    of.row(&fields, text)
}

/// Appends the rows of the messages of a buffer.
fn write_buffer_messages(
    of: &Heading,
    object: Field<'_>,
    buffer: &Buffer,
    text: &mut Vec<u8>,
) -> Result<(), AllocError>
    ensures { OnOk result
        (text.new.items
        ≡ text.old.items
        ++ rows_in of.now.form
        (meaning.message_rows of.now.name (field_of object.entry) buffer.now.messages)) }
{
    for place in 0..usize::from(buffer.status().messages) {
        write_if_any(of, object, place, buffer.message_after(place), text)?;
    }
    Ok(())
}

/// Appends the rows of the buffer at a place.
#[tactic(auto, using(crate::proofs::Loops::three))]
fn write_buffer(
    of: &Heading,
    processes: &ProcessTable,
    place: usize,
    buffer: &Buffer,
    text: &mut Vec<u8>,
) -> Result<(), AllocError>
    requires { place < MOST_OBJECTS }
    ensures { OnOk result
        (text.new.items
        ≡ text.old.items
        ++ rows_in of.now.form (meaning.buffer_rows of.now.name processes.now place buffer.now)) }
{
    let object = number("buffer", place as u64 + 1);
    write_buffer_row(of, object, buffer, text)?;
    write_buffer_messages(of, object, buffer, text)?;
    write_waiters(of, processes, object, ListKey::Buffer(place as u8), text)
}

/// Appends the rows of the buffers.
#[tactic(auto, using(crate::proofs::Loops::more))]
fn write_buffers(
    of: &Heading,
    processes: &ProcessTable,
    objects: &Objects,
    text: &mut Vec<u8>,
) -> Result<(), AllocError>
    ensures { OnOk result
        (text.new.items
        ≡ text.old.items
        ++ rows_in of.now.form
        (meaning.placed (meaning.buffer_rows of.now.name processes.now) objects.now.buffers)) }
{
    let all = objects.buffers();
    for (place, buffer) in all.iter().enumerate() {
        write_buffer(of, processes, place, buffer, text)?;
    }
    Ok(())
}

/// Appends the row of the blackboard with this number.
fn write_blackboard_row(
    of: &Heading,
    object: Field<'_>,
    blackboard: &Blackboard,
    text: &mut Vec<u8>,
) -> Result<(), AllocError>
    ensures { OnOk result
        (text.new.items
        ≡ text.old.items
        ++ row_in of.now.form
        (meaning.blackboard_row of.now.name (field_of object.entry) blackboard.now)) }
{
    let status = blackboard.status();
    let fields = [
        object,
        flag("created", status.created),
        number("words", u64::from(status.row.words)),
        number("messages", if status.occupied { 1 } else { 0 }),
    ];
    of.row(&fields, text)
}

/// Appends the row of the message that a blackboard displays, if any.
fn write_shown(
    of: &Heading,
    object: Field<'_>,
    blackboard: &Blackboard,
    text: &mut Vec<u8>,
) -> Result<(), AllocError>
    ensures { OnOk result
        (text.new.items
        ≡ text.old.items
        ++ rows_in of.now.form
        (meaning.message_rows of.now.name (field_of object.entry)
        (meaning.shown_messages blackboard.now.shown))) }
{
    let shown = blackboard.shown();
    write_if_any(of, object, 0, shown.as_ref(), text)
}

/// Appends the rows of a blackboard, with those that wait in its list.
fn write_blackboard(
    of: &Heading,
    processes: &ProcessTable,
    object: Field<'_>,
    list: ListKey,
    blackboard: &Blackboard,
    text: &mut Vec<u8>,
) -> Result<(), AllocError>
    ensures { OnOk result
        (text.new.items
        ≡ text.old.items
        ++ rows_in of.now.form
        (meaning.blackboard_parts of.now.name processes.now (field_of object.entry) list
        blackboard.now)) }
{
    write_blackboard_row(of, object, blackboard, text)?;
    write_shown(of, object, blackboard, text)?;
    write_waiters(of, processes, object, list, text)?;
    Ok(())
}

/// The list of those that wait at the blackboard at a place.
fn blackboard_list(place: usize) -> ListKey
    requires { place < MOST_OBJECTS }
    ensures { result ≡ ListKey.Blackboard place }
{
    ListKey::Blackboard(place as u8)
}

/// Appends the rows of the blackboard at a place.
fn write_blackboard_at(
    of: &Heading,
    processes: &ProcessTable,
    place: usize,
    blackboard: &Blackboard,
    text: &mut Vec<u8>,
) -> Result<(), AllocError>
    requires { place < MOST_OBJECTS }
    ensures { OnOk result
        (text.new.items
        ≡ text.old.items
        ++ rows_in of.now.form
        (meaning.blackboard_rows of.now.name processes.now place blackboard.now)) }
{
    let object = number("blackboard", place as u64 + 1);
    let list = blackboard_list(place);
    write_blackboard(of, processes, object, list, blackboard, text)
}

/// Appends the rows of the blackboards.
#[tactic(auto, using(crate::proofs::Loops::more))]
fn write_blackboards(
    of: &Heading,
    processes: &ProcessTable,
    objects: &Objects,
    text: &mut Vec<u8>,
) -> Result<(), AllocError>
    ensures { OnOk result
        (text.new.items
        ≡ text.old.items
        ++ rows_in of.now.form
        (meaning.placed (meaning.blackboard_rows of.now.name processes.now)
        objects.now.blackboards)) }
{
    let all = objects.blackboards();
    for (place, blackboard) in all.iter().enumerate() {
        write_blackboard_at(of, processes, place, blackboard, text)?;
    }
    Ok(())
}

/// Appends the rows of all objects.
pub(crate) fn write_objects(
    of: &Heading,
    processes: &ProcessTable,
    objects: &Objects,
    text: &mut Vec<u8>,
) -> Result<(), AllocError>
    ensures { OnOk result
        (text.new.items
        ≡ text.old.items
        ++ rows_in of.now.form (meaning.object_rows of.now.name processes.now objects.now)) }
{
    write_semaphores(of, processes, objects, text)?;
    write_events(of, processes, objects, text)?;
    write_buffers(of, processes, objects, text)?;
    write_blackboards(of, processes, objects, text)
}
