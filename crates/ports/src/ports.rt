//! The ports of a partition, and the few ways to change them.

ghost use Rattle.std.specs.Prelude.{◌≡◌, ◌<◌, ◌≤◌, ◌^◌, [], length, map, option_map, slice_get, true, false, IfOk, IfSome, IsNone, OnSome, None, Some};
ghost use Rattle.apex_types.specs.Room.{HasRoom, Grows};
ghost use Rattle.apex_types.specs.Limits.{MOST_OBJECTS, MOST_TICKS};
ghost use Rattle.kernel_meaning.specs.Objects.{numbered_in};
ghost use Rattle.kernel_meaning.specs.Objects as meaning;
ghost use Rattle.kernel_meaning.specs.PortServices as services;
ghost use Rattle.kernel_meaning.specs.Made.{IsMade};
ghost use Rattle.ports.specs.Bounds.{AreShort};
ghost use Rattle.ports.specs.Held.{message_behind};
ghost use Rattle.ports.specs.Status.{placed_port, port_of_status, port_status, port_with_status, without_first};

use crate::port::{Port, PortStatus};
use apex_types::{LineKind, Moment, Out, PortRow, Ticks, Words};
use std::alloc::{AllocError, Global};
use std::marker::Model;
use sync_objects_base::place_of;

/// The ports of a partition, with the messages that they hold. A contract sees them as the ports of
/// the definitions.
#[derive(Drop)]
pub struct Ports {
    ports: Vec<Port>,
}

impl Model for Ports {
    ghost use Rattle.kernel_meaning.specs.Objects as meaning;

    ghost Value = { meaning.Ports };

    ghost use Rattle.ports.specs.View.{ports_of, AreFew};

    ghost view = { ports_of };

    ghost invariant = { AreFew };
}

fn fresh_ports(alloc: Global, rows: &[PortRow]) -> Result<Vec<Port>, AllocError>
    requires { AreShort rows.now }
    ensures { IfOk result (λ all. all.items ≡ map meaning.fresh_port rows.now) }
{
    let mut all = Vec::with_capacity(alloc, rows.len())?;
    for row in rows {
        all.push(Port::fresh(alloc, *row)?)?;
    }
    Ok(all)
}

fn clear_ports(all: &mut Vec<Port>)
    ensures { all.new.items ≡ map meaning.cleared_port all.old.items }
{
    for port in all.iter_mut() {
        port.clear();
    }
}

impl Ports {
    /// Makes the ports of these rows, none of them created, with memory for their messages.
    /// `AllocError`: out of memory.
    pub fn new(alloc: Global, rows: &[PortRow]) -> Result<Ports, AllocError>
        requires few { length rows.now ≤ MOST_OBJECTS }
        requires short { AreShort rows.now }
        ensures { IfOk result (λ ports. ports ≡ meaning.fresh_ports rows.now) }
    {
        Ok(Ports {
            ports: fresh_ports(alloc, rows)?,
        })
    }

    /// Resets all ports: none is created, and all are empty.
    pub fn clear(&mut self)
        ensures { self.new ≡ meaning.cleared_ports self.old }
    {
        clear_ports(&mut self.ports);
    }

    /// The ports, in the order of the module table.
    pub fn all(&self) -> &[Port]
        ensures all { result.now ≡ self.now.ports }
        ensures few { length result.now ≤ MOST_OBJECTS }
    {
        &self.ports
    }

    /// The number of ports.
    pub fn count(&self) -> u8
        ensures count { result ≡ length self.now.ports }
        ensures few { result ≤ MOST_OBJECTS }
    {
        self.ports.len() as u8
    }

    /// The status of the port at `place`, if there is such a port.
    pub(crate) fn status(&self, place: u8) -> Option<PortStatus>
        ensures found { meaning.port_at self.now place ≡ port_with_status self.now place result }
        ensures status { IfSome result (λ port. port ≡ port_status (placed_port self.now place)) }
        ensures within { IfSome result (λ port. place < MOST_OBJECTS) }
    {
        match self.ports.get(usize::from(place)) {
            Some(port) => Some(port.status()),
            None => None,
        }
    }

    /// Whether the port at `place` is a source; `None` if there is no such port.
    pub fn is_source(&self, place: u8) -> Option<bool>
        ensures { result ≡ option_map meaning.is_source (slice_get self.now.ports place) }
    {
        match self.ports.get(usize::from(place)) {
            Some(port) => Some(port.status().is_source()),
            None => None,
        }
    }

    /// How many messages the port at `place` holds; `None` if there is no such port.
    pub fn message_count(&self, place: u8) -> Option<u8>
        ensures { result ≡ option_map (λ x. length x.messages) (slice_get self.now.ports place) }
    {
        match self.ports.get(usize::from(place)) {
            Some(port) => Some(port.status().messages),
            None => None,
        }
    }

    /// A copy of the message that has `before` messages before it in the port at `place`, if there
    /// is such a port and message.
    pub fn message_behind(&self, place: u8, before: u8) -> Option<Words>
        ensures { result ≡ message_behind before (slice_get self.now.ports place) }
    {
        let port = self.ports.get(usize::from(place))?;
        port.message_behind(before)
    }

    /// The place and the status of the port with number `id`.
    #[tactic(auto, using(crate::proofs::Finding::finding))]
    fn numbered(&self, id: i64) -> Option<(u8, PortStatus)>
        ensures found { numbered_in self.now.ports id ≡ port_of_status self.now result }
        ensures status { IfSome result
            (λ found. found.1 ≡ port_status (placed_port self.now found.0)) }
        ensures within { IfSome result (λ found. found.0 < MOST_OBJECTS) }
        ensures short { IfSome result (λ found. meaning.refresh_of found.1.row.kind ≤ MOST_TICKS) }
    {
        let place = place_of(&self.ports, id)?;
        Some((place as u8, self.ports[place].status()))
    }

    /// The place and the status of the sampling port with number `id`.
    pub(crate) fn sampling(&self, id: i64) -> Option<(u8, PortStatus)>
        ensures found { meaning.sampling self.now id ≡ port_of_status self.now result }
        ensures status { IfSome result
            (λ found. found.1 ≡ port_status (placed_port self.now found.0)) }
        ensures within { IfSome result (λ found. found.0 < MOST_OBJECTS) }
        ensures short { IfSome result (λ found. meaning.refresh_of found.1.row.kind ≤ MOST_TICKS) }
        ensures kind { IfSome result
            (λ found. meaning.is_sampling (placed_port self.now found.0) ≡ true) }
    {
        let (place, port) = self.numbered(id)?;
        if port.is_sampling() {
            Some((place, port))
        } else {
            None
        }
    }

    /// The place and the status of the queuing port with number `id`.
    pub(crate) fn queuing(&self, id: i64) -> Option<(u8, PortStatus)>
        ensures found { meaning.queuing self.now id ≡ port_of_status self.now result }
        ensures status { IfSome result
            (λ found. found.1 ≡ port_status (placed_port self.now found.0)) }
        ensures within { IfSome result (λ found. found.0 < MOST_OBJECTS) }
    {
        let (place, port) = self.numbered(id)?;
        if port.is_sampling() {
            None
        } else {
            Some((place, port))
        }
    }

    /// Creates the port at `place`.
    pub(crate) fn create(&mut self, place: u8)
        ensures { self.new
            ≡ meaning.put_port self.old place
            (record (placed_port self.old place) { created = true }) }
    {
        if let Some(port) = self.ports.get_mut(usize::from(place)) {
            port.create();
        }
    }

    /// Replaces the message of a sampling port.
    #[tactic(auto, using(crate::proofs::Depth::depths))]
    pub(crate) fn put_sample(&mut self, place: u8, message: &Words)
        requires { meaning.is_sampling (placed_port self.old place) ≡ true }
        ensures { self.new
            ≡ meaning.put_port self.old place
            (meaning.with_sample (placed_port self.old place) message.now) }
    {
        if let Some(port) = self.ports.get_mut(usize::from(place)) {
            port.put_sample(message);
        }
    }

    /// Replaces the message of a sampling port with one that arrives in the tick `now`.
    #[tactic(auto, using(crate::proofs::Depth::depths))]
    pub(crate) fn put_arrived(&mut self, place: u8, message: &Words, now: Ticks)
        requires { meaning.is_sampling (placed_port self.old place) ≡ true }
        ensures { self.new
            ≡ meaning.put_port self.old place
            (record (meaning.with_sample (placed_port self.old place) message.now)
            { arrival = now }) }
    {
        if let Some(port) = self.ports.get_mut(usize::from(place)) {
            port.put_sample(message);
            port.set_arrival(now);
        }
    }

    /// Reads the message of a sampling port: a copy, and whether it is valid, which the port
    /// remembers.
    pub(crate) fn read_message(&mut self, place: u8, moment: Moment) -> Option<(Words, bool)>
        ensures none { IsNone result → slice_get (placed_port self.old place).messages 0 ≡ None }
        ensures first { IfSome result
            (λ read. slice_get (placed_port self.old place).messages 0 ≡ Some read.0) }
        ensures valid { IfSome result
            (λ read. read.1 ≡ services.is_valid moment.at (placed_port self.old place)) }
        ensures empty { IsNone result → self.new ≡ self.old }
        ensures rest { IfSome result
            (λ read. self.new
            ≡ meaning.put_port self.old place
            (record (placed_port self.old place) { valid = read.1 })) }
    {
        let port = self.ports.get_mut(usize::from(place))?;
        let message = port.first()?;
        let valid = port.is_valid(moment);
        port.set_valid(valid);
        Some((message, valid))
    }

    /// Appends a message to a port.
    pub(crate) fn push_message(&mut self, place: u8, message: &Words)
        requires { let x = placed_port self.old place in
            length x.messages < meaning.depth_of x.row.kind }
        ensures { self.new
            ≡ meaning.put_port self.old place
            (meaning.with_message (placed_port self.old place) message.now) }
    {
        if let Some(port) = self.ports.get_mut(usize::from(place)) {
            port.push(message);
        }
    }

    /// Records that a port lost a message.
    pub(crate) fn lose_message(&mut self, place: u8)
        ensures { self.new
            ≡ meaning.put_port self.old place
            (record (placed_port self.old place) { overflowed = true }) }
    {
        if let Some(port) = self.ports.get_mut(usize::from(place)) {
            port.set_overflowed(true);
        }
    }

    /// Takes the first message of a port. Returns it, and whether a message was lost before, which
    /// the port forgets.
    pub(crate) fn receive_message(&mut self, place: u8) -> Option<(Words, bool)>
        ensures none { IsNone result → slice_get (placed_port self.old place).messages 0 ≡ None }
        ensures first { IfSome result
            (λ read. slice_get (placed_port self.old place).messages 0 ≡ Some read.0) }
        ensures overflowed { IfSome result
            (λ read. read.1 ≡ (placed_port self.old place).overflowed) }
        ensures empty { IsNone result → self.new ≡ self.old }
        ensures rest { OnSome result
            (self.new
            ≡ meaning.put_port self.old place
            (record (without_first (placed_port self.old place)) { overflowed = false })) }
    {
        let port = self.ports.get_mut(usize::from(place))?;
        let message = port.pop()?;
        let overflowed = port.overflowed();
        port.set_overflowed(false);
        Some((message, overflowed))
    }

    /// Removes the messages of a port, and forgets that a message was lost.
    pub(crate) fn empty(&mut self, place: u8)
        ensures { self.new
            ≡ meaning.put_port self.old place
            (record (placed_port self.old place) { messages = []; overflowed = false }) }
    {
        if let Some(port) = self.ports.get_mut(usize::from(place)) {
            port.empty();
            port.set_overflowed(false);
        }
    }

    /// Takes the first message of a port.
    fn take_first(&mut self, place: u8) -> Option<Words>
        ensures first { result ≡ slice_get (placed_port self.old place).messages 0 }
        ensures empty { IsNone result → self.new ≡ self.old }
        ensures rest { OnSome result
            (self.new
            ≡ meaning.put_port self.old place (without_first (placed_port self.old place))) }
    {
        let port = self.ports.get_mut(usize::from(place))?;
        port.pop()
    }

    /// Takes the first message from the port at `place`, if it holds one.
    #[tactic(auto, using(crate::proofs::Moving::moving))]
    pub fn move_one(&mut self, place: u8, out: &mut Out) -> Option<Words>
        requires { HasRoom 1 0 out.old }
        ensures message { result ≡ services.first_message (meaning.port_at self.old place) }
        ensures step { IsMade (services.leaves self.old place) self.new out.old out.new }
        ensures grows { Grows 1 0 out.old out.new }
    {
        let port = self.status(place)?;
        let message = self.take_first(place)?;
        out.tell(LineKind::Move(port.row.name), &message);
        Some(message)
    }
}
