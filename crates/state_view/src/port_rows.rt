//! The rows of the ports.

ghost use Rattle.std.specs.Prelude.{◌≡◌, ◌<◌, ◌++◌, OnOk};
ghost use Rattle.apex_types.specs.Limits.{MOST_OBJECTS};
ghost use Rattle.state_rows.specs.Fields.{field_of};
ghost use Rattle.state_rows.specs.Rows.{fields_in, row_in, rows_in};
ghost use Rattle.state_rows.specs.States as meaning;

use crate::heading::Heading;
use crate::lists::{write_if_any, write_waiters};
use crate::values::{direction_word, discipline_word};
use apex_types::{Discipline, ListKey, PortKind};
use ports::{Port, Ports};
use process_table_base::ProcessTable;
use state_rows::{Field, end_row, flag, number, word, write_fields};
use std::alloc::AllocError;

/// The key of a port's number.
fn port_key(kind: PortKind) -> &'static str
    ensures { result.now ≡ meaning.port_key kind }
{
    match kind {
        PortKind::Sampling { .. } => "sampling",
        PortKind::Queuing { .. } => "queuing",
    }
}

/// Appends the fields of a sampling port with this refresh period.
fn write_sampling(
    of: &Heading,
    port: &Port,
    refresh: u64,
    text: &mut Vec<u8>,
) -> Result<(), AllocError>
    ensures { OnOk result
        (text.new.items
        ≡ text.old.items
        ++ fields_in of.now.form (meaning.kind_fields port.now (PortKind.Sampling refresh))) }
{
    let status = port.status();
    let fields = [
        number("refresh", refresh),
        number("arrival", port.arrival().0),
        flag("valid", status.valid),
        number("messages", u64::from(status.messages)),
    ];
    write_fields(of.form, &fields, text)
}

/// Appends the fields of a queuing port with this depth and discipline.
fn write_queuing(
    of: &Heading,
    port: &Port,
    depth: u8,
    discipline: Discipline,
    text: &mut Vec<u8>,
) -> Result<(), AllocError>
    ensures { OnOk result
        (text.new.items
        ≡ text.old.items
        ++ fields_in of.now.form
        (meaning.kind_fields port.now (PortKind.Queuing depth discipline))) }
{
    let status = port.status();
    let fields = [
        number("depth", u64::from(depth)),
        word("discipline", discipline_word(discipline)),
        flag("overflowed", port.overflowed()),
        number("messages", u64::from(status.messages)),
    ];
    write_fields(of.form, &fields, text)
}

/// Appends the fields of ports of a kind, which is that of this port.
fn write_kind(
    of: &Heading,
    port: &Port,
    kind: PortKind,
    text: &mut Vec<u8>,
) -> Result<(), AllocError>
    ensures { OnOk result
        (text.new.items
        ≡ text.old.items ++ fields_in of.now.form (meaning.kind_fields port.now kind)) }
{
    match kind {
        PortKind::Sampling { refresh } => write_sampling(of, port, refresh, text),
        PortKind::Queuing { depth, discipline } => {
            write_queuing(of, port, depth, discipline, text)
        }
    }
}

/// Appends the row of the port with this number.
fn write_port_row(
    of: &Heading,
    object: Field<'_>,
    port: &Port,
    text: &mut Vec<u8>,
) -> Result<(), AllocError>
    ensures { OnOk result
        (text.new.items
        ≡ text.old.items
        ++ row_in of.now.form (meaning.port_row of.now.name (field_of object.entry) port.now)) }
{
    let status = port.status();
    let fields = [
        object,
        word("port", status.row.name.as_bytes()),
        word("direction", direction_word(status.row.direction)),
        flag("created", status.created),
        number("words", u64::from(status.row.words)),
    ];
    of.begin(&fields, text)?;
    write_kind(of, port, status.row.kind, text)?;
    end_row(of.form, text)
}

/// Appends the rows of the messages of a port.
fn write_port_messages(
    of: &Heading,
    object: Field<'_>,
    port: &Port,
    text: &mut Vec<u8>,
) -> Result<(), AllocError>
    ensures { OnOk result
        (text.new.items
        ≡ text.old.items
        ++ rows_in of.now.form
        (meaning.message_rows of.now.name (field_of object.entry) port.now.messages)) }
{
    for place in 0..port.status().messages {
        let message = port.message_behind(place);
        write_if_any(of, object, usize::from(place), message.as_ref(), text)?;
    }
    Ok(())
}

/// Appends the rows of the port at a place.
#[tactic(auto, using(crate::proofs::Loops::three))]
fn write_port(
    of: &Heading,
    processes: &ProcessTable,
    place: usize,
    port: &Port,
    text: &mut Vec<u8>,
) -> Result<(), AllocError>
    requires { place < MOST_OBJECTS }
    ensures { OnOk result
        (text.new.items
        ≡ text.old.items
        ++ rows_in of.now.form (meaning.port_rows of.now.name processes.now place port.now)) }
{
    let object = number(port_key(port.status().row.kind), place as u64 + 1);
    write_port_row(of, object, port, text)?;
    write_port_messages(of, object, port, text)?;
    write_waiters(of, processes, object, ListKey::Port(place as u8), text)
}

/// Appends the rows of the ports.
#[tactic(auto, using(crate::proofs::Loops::more))]
pub(crate) fn write_ports(
    of: &Heading,
    processes: &ProcessTable,
    ports: &Ports,
    text: &mut Vec<u8>,
) -> Result<(), AllocError>
    ensures { OnOk result
        (text.new.items
        ≡ text.old.items
        ++ rows_in of.now.form
        (meaning.placed (meaning.port_rows of.now.name processes.now) ports.now.ports)) }
{
    let all = ports.all();
    for (place, port) in all.iter().enumerate() {
        write_port(of, processes, place, port, text)?;
    }
    Ok(())
}
