//! What a process waits for.

ghost use Rattle.std.specs.Prelude.{◌≡◌, ◌<◌, ◌++◌, OnOk, Some};
ghost use Rattle.apex_types.specs.ServiceShape.{service_word};
ghost use Rattle.apex_types.specs.declared.limits.TheConstants.{MOST_RUNNERS};
ghost use Rattle.state_rows.specs.Fields.{fields_of};
ghost use Rattle.state_rows.specs.Rows.{fields_in, head_in, rows_in};
ghost use Rattle.state_rows.specs.States as meaning;

use crate::heading::Heading;
use crate::values::{due_tick, due_word, subject_word};
use apex_types::{ArrayPlace, ProcessIndex, ProcessStatus, Runner, Service, Wait, Words};
use state_rows::{Field, Form, number, word, words, write_fields};
use std::alloc::AllocError;

/// The runner with a place among the records.
#[tactic(auto, using(crate::proofs::Places::process_at))]
pub(crate) fn runner_at(place: usize) -> Runner
    requires { place < MOST_RUNNERS }
    ensures { result ≡ meaning.runner_at place }
{
    match place {
        0 => Runner::Init,
        1 => Runner::Handler,
        _ => Runner::Process(ProcessIndex((place - 2) as u8)),
    }
}

/// Appends the beginning of the row of one that waits.
fn begin_waits<'a>(
    of: &Heading,
    row: &'a ProcessStatus,
    what: &'a [u8],
    text: &mut Vec<u8>,
) -> Result<(), AllocError>
    ensures { OnOk result
        (text.new.items
        ≡ text.old.items
        ++ (head_in of.now.form (Some of.now.name)
        ++ fields_in of.now.form (meaning.waits_fields row.now what.now))) }
{
    let fields = [
        word("waits", subject_word(&row.who)),
        Field {
            key: "due",
            value: due_word(row.due),
        },
        Field {
            key: "at",
            value: due_tick(row.due),
        },
        word("for", what),
    ];
    of.begin(&fields, text)
}

/// Appends the row of one that waits.
fn write_waits<'a>(
    of: &Heading,
    row: &'a ProcessStatus,
    what: &'a [u8],
    more: &[Field<'_>],
    text: &mut Vec<u8>,
) -> Result<(), AllocError>
    ensures { OnOk result
        (text.new.items
        ≡ text.old.items
        ++ rows_in of.now.form
        (meaning.waits_row of.now.name row.now what.now (fields_of more.now))) }
{
    begin_waits(of, row, what, text)?;
    of.end(more, text)
}

/// Appends the array of a receiver.
fn write_array(form: Form, array: Option<ArrayPlace>, text: &mut Vec<u8>) -> Result<(), AllocError>
    ensures { OnOk result
        (text.new.items ≡ text.old.items ++ fields_in form (meaning.array_fields array)) }
{
    match array {
        None => Ok(()),
        Some(array) => write_fields(form, &[words("array", &[array.base, array.size])], text),
    }
}

/// Appends the message of a sender.
fn write_given(
    form: Form,
    service: Service,
    message: &Words,
    text: &mut Vec<u8>,
) -> Result<(), AllocError>
    ensures { OnOk result
        (text.new.items
        ≡ text.old.items ++ fields_in form (meaning.given_fields service message.now)) }
{
    match service {
        Service::SendBuffer | Service::SendQueuingMessage => {
            write_fields(form, &[words("gives", message.as_slice())], text)
        }
        _ => Ok(()),
    }
}

/// Appends the row of one that waits for an object or a port.
fn write_waits_at(
    of: &Heading,
    row: &ProcessStatus,
    service: Service,
    array: Option<ArrayPlace>,
    message: &Words,
    text: &mut Vec<u8>,
) -> Result<(), AllocError>
    ensures { OnOk result
        (text.new.items
        ≡ text.old.items
        ++ rows_in of.now.form
        (meaning.waits_row of.now.name row.now (service_word service)
        (meaning.array_fields array ++ meaning.given_fields service message.now))) }
{
    begin_waits(of, row, service.word().as_bytes(), text)?;
    write_array(of.form, array, text)?;
    write_given(of.form, service, message, text)?;
    of.end(&[], text)
}

/// Appends what a process waits for, if it waits; it has handed in this message.
pub(crate) fn write_wait(
    of: &Heading,
    row: &ProcessStatus,
    message: &Words,
    text: &mut Vec<u8>,
) -> Result<(), AllocError>
    ensures { OnOk result
        (text.new.items
        ≡ text.old.items
        ++ rows_in of.now.form
        (meaning.wait_rows of.now.name row.now message.now row.now.wait)) }
{
    match row.wait {
        Wait::Nothing => Ok(()),
        Wait::NormalStart(delay) => {
            write_waits(of, row, b"NORMAL_START", &[number("delay", delay.0)], text)
        }
        Wait::FirstRelease => write_waits(of, row, b"FIRST_RELEASE", &[], text),
        Wait::Service(service) => write_waits(of, row, service.word().as_bytes(), &[], text),
        Wait::Object { service, array } => {
            write_waits_at(of, row, service, array, message, text)
        }
    }
}
