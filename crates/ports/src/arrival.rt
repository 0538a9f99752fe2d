//! The messages that arrive at ports, and the senders that wait for room.

ghost use Rattle.std.specs.Prelude.{◌≡◌, ◌<◌, ◌*◌, length, true, None, Some};
ghost use Rattle.apex_types.specs.Room.{HasRoom, Grows};
ghost use Rattle.apex_types.specs.Limits.{MOST_OBJECTS};
ghost use Rattle.kernel_meaning.specs.PortServices as meaning;
ghost use Rattle.kernel_meaning.specs.Objects.{is_sampling, port_at};
ghost use Rattle.kernel_meaning.specs.PortServices.{list};
ghost use Rattle.kernel_meaning.specs.Sharing.{both};
ghost use Rattle.kernel_meaning.specs.Made.{IsMade};
ghost use Rattle.kernel_meaning.specs.Sharing.{first_waiting};
ghost use Rattle.ports.specs.Status.{placed_port, port_status};
ghost use Rattle.process_table_base.specs.FoundView.{pair_of};
ghost use Rattle.process_table_base.specs.declared.rooms.TheConstants.{ACTIONS_TO_RELEASE_ALL, LINES_TO_RELEASE_ALL};

use crate::port::PortStatus;
use crate::ports::Ports;
use apex_types::{Entry, LineKind, ListKey, Moment, Out, ReturnCode, Words};
use process_table_base::{Found, ProcessTable};

/// Replaces the message of a sampling port, and its tick of arrival.
fn arrive_sampling(
    table: &ProcessTable,
    ports: &mut Ports,
    moment: Moment,
    place: u8,
    port: PortStatus,
    message: &Words,
    out: &mut Out,
)
    requires status { port ≡ port_status (placed_port ports.old place) }
    requires kind { is_sampling (placed_port ports.old place) ≡ true }
    requires room { HasRoom 1 0 out.old }
    ensures step { IsMade
        (meaning.arrives_sampling moment.at (both table.now ports.old) place
        (placed_port ports.old place) message.now)
        (both table.now ports.new) out.old out.new }
    ensures grows { Grows 1 0 out.old out.new }
{
    out.tell(LineKind::Arrive(port.row.name), message);
    ports.put_arrived(place, message, moment.at.now);
}

/// Without a waiting receiver: appends the message; if the port is full, the message is lost.
fn store(
    table: &ProcessTable,
    ports: &mut Ports,
    place: u8,
    port: PortStatus,
    message: &Words,
    out: &mut Out,
)
    requires status { port ≡ port_status (placed_port ports.old place) }
    requires room { HasRoom 1 0 out.old }
    ensures step { IsMade
        (meaning.arrives_queuing (both table.now ports.old) place (placed_port ports.old place)
        message.now None)
        (both table.now ports.new) out.old out.new }
    ensures grows { Grows 1 0 out.old out.new }
{
    if !port.is_full() {
        out.tell(LineKind::Arrive(port.row.name), message);
        ports.push_message(place, message);
    } else {
        out.tell(LineKind::Lost(port.row.name), message);
        ports.lose_message(place);
    }
}

/// Gives the message to a receiver that waits at the port.
fn hand_over(
    table: &mut ProcessTable,
    ports: &Ports,
    place: u8,
    port: PortStatus,
    receiver: &Found,
    message: &Words,
    out: &mut Out,
)
    requires status { port ≡ port_status (placed_port ports.now place) }
    requires room { HasRoom 3 2 out.old }
    ensures step { IsMade
        (meaning.arrives_queuing (both table.old ports.now) place (placed_port ports.now place)
        message.now (pair_of (Some receiver.now)))
        (both table.new ports.now) out.old out.new }
    ensures grows { Grows 3 2 out.old out.new }
{
    out.tell(LineKind::Arrive(port.row.name), message);
    table.give(receiver, message, out);
}

/// Gives the message to the first waiting receiver. Without one, appends it; if the port is full,
/// the message is lost.
fn arrive_queuing(
    table: &mut ProcessTable,
    ports: &mut Ports,
    place: u8,
    port: PortStatus,
    message: &Words,
    out: &mut Out,
)
    requires place { place < MOST_OBJECTS }
    requires status { port ≡ port_status (placed_port ports.old place) }
    requires room { HasRoom 3 2 out.old }
    ensures step { IsMade
        (meaning.arrives_queuing (both table.old ports.old) place (placed_port ports.old place)
        message.now (first_waiting table.old (list place)))
        (both table.new ports.new) out.old out.new }
    ensures grows { Grows 3 2 out.old out.new }
{
    match table.first_waiting(ListKey::Port(place)) {
        Some(receiver) => hand_over(table, ports, place, port, &receiver, message, out),
        None => store(table, ports, place, port, message, out),
    }
}

/// A message arrives at the port at `place`, created or not. It replaces the message of a sampling
/// port. Of a queuing port, the first waiting receiver takes it; without one, the port appends it;
/// if the port is full, the message is lost, which the port remembers. Without a port at `place`,
/// nothing happens.
pub fn arrive(
    table: &mut ProcessTable,
    ports: &mut Ports,
    moment: Moment,
    place: u8,
    message: &Words,
    out: &mut Out,
)
    requires { HasRoom 3 2 out.old }
    ensures step { IsMade (meaning.arrives moment.at (both table.old ports.old) place message.now)
        (both table.new ports.new) out.old out.new }
    ensures grows { Grows 3 2 out.old out.new }
{
    let Some(port) = ports.status(place) else {
        return;
    };
    if port.is_sampling() {
        arrive_sampling(table, ports, moment, place, port, message, out);
    } else {
        arrive_queuing(table, ports, place, port, message, out);
    }
}

/// Appends the message of a sender if there is room, and releases the sender.
fn admit_one(table: &mut ProcessTable, ports: &mut Ports, entry: Entry, place: u8, out: &mut Out)
    requires { HasRoom 2 1 out.old }
    ensures step { IsMade
        (meaning.enters_port (both table.old ports.old) place entry (port_at ports.old place))
        (both table.new ports.new) out.old out.new }
    ensures grows { Grows 2 1 out.old out.new }
{
    let Some(port) = ports.status(place) else {
        return;
    };
    if port.is_full() {
        return;
    }
    if let Some(sender) = table.numbered(entry.process) {
        ports.push_message(place, &table.handed_by(sender.runner));
        table.release(&sender, ReturnCode::NoError, out);
    }
}

/// Admits each of these senders in turn.
fn admit_each(
    table: &mut ProcessTable,
    ports: &mut Ports,
    entries: &[Entry],
    place: u8,
    out: &mut Out,
)
    requires { HasRoom (2 * length entries.now) (length entries.now) out.old }
    ensures step { IsMade (meaning.all_enter entries.now place (both table.old ports.old))
        (both table.new ports.new) out.old out.new }
    ensures grows { Grows (2 * length entries.now) (length entries.now) out.old out.new }
{
    if let Some((entry, rest)) = entries.split_first() {
        admit_one(table, ports, *entry, place, out);
        admit_each(table, ports, rest, place, out);
    }
}

/// Admits the senders that wait at the port at `place` in their order, while there is room.
#[tactic(auto, using(crate::proofs::Entering::entering))]
pub fn admit(table: &mut ProcessTable, ports: &mut Ports, place: u8, out: &mut Out)
    requires { HasRoom LINES_TO_RELEASE_ALL ACTIONS_TO_RELEASE_ALL out.old }
    ensures step { IsMade (meaning.admits (both table.old ports.old) place)
        (both table.new ports.new) out.old out.new }
    ensures grows { Grows LINES_TO_RELEASE_ALL ACTIONS_TO_RELEASE_ALL out.old out.new }
{
    if place < ports.count() {
        let entries = table.waiting(ListKey::Port(place));
        admit_each(table, ports, entries.as_slice(), place, out);
    }
}
