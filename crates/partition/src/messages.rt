//! The messages that arrive at a partition and leave it.

ghost use Rattle.std.specs.Prelude.{◌≡◌, ◌≤◌, ◌<◌, ◌-◌, ◌+◌, ◌++◌, ◌^◌, [], length, option_map};
ghost use Rattle.apex_types.specs.Room.{HasRoom, Grows};
ghost use Rattle.kernel_meaning.specs.PortServices as arrival;
ghost use Rattle.module_meaning.specs.Table.{at_number};
ghost use Rattle.kernel_meaning.specs.Kernel.{of_ports, of_ports_alone, with_ports};
ghost use Rattle.kernel_meaning.specs.Partition as meaning;
ghost use Rattle.kernel_meaning.specs.Objects.{port_at, is_source};
ghost use Rattle.kernel_meaning.specs.Made.{IsMade};
ghost use Rattle.partition.specs.Members.{member_of, IsMoved, IsTold};
ghost use Rattle.ports.specs.Held.{message_behind};
ghost use Rattle.process_table_base.specs.declared.rooms.TheConstants.{ACTIONS_TO_RELEASE_ALL, LINES_TO_RELEASE_ALL};

use crate::kernel::Kernel;
use crate::partition::Partition;
use apex_types::{EventLog, LineKind, Moment, Name, Out, PortId, Words};
use partition_base::Executor;
use ports::{admit, arrive};

/// The place of a port among its partition's ports.
fn place_of(port: PortId) -> u8
    ensures { result ≡ meaning.place_of_port port }
{
    port.0.saturating_sub(1)
}

impl Kernel {
    /// A message arrives at a port.
    fn arrive(&mut self, moment: Moment, port: PortId, message: &Words, out: &mut Out)
        requires { HasRoom 3 2 out.old }
        ensures step { IsMade
            (of_ports self.old
            (arrival.arrives moment.at (with_ports self.old) (meaning.place_of_port port) message.now))
            self.new out.old out.new }
        ensures grows { Grows 3 2 out.old out.new }
    {
        let table = &mut self.processes;
        arrive(table, &mut self.ports, moment, place_of(port), message, out);
    }

    /// The first message of a port leaves it, if it holds one.
    fn move_one(&mut self, port: PortId, out: &mut Out) -> Option<Words>
        requires { HasRoom 1 0 out.old }
        ensures message { result
            ≡ arrival.first_message (port_at self.old.ports (meaning.place_of_port port)) }
        ensures step { IsMade
            (of_ports_alone self.old (arrival.leaves self.old.ports (meaning.place_of_port port)))
            self.new out.old out.new }
        ensures grows { Grows 1 0 out.old out.new }
    {
        self.ports.move_one(place_of(port), out)
    }

    /// The senders that wait at a port enter it in their order, while there is room.
    fn admit(&mut self, port: PortId, out: &mut Out)
        requires { HasRoom LINES_TO_RELEASE_ALL ACTIONS_TO_RELEASE_ALL out.old }
        ensures step { IsMade
            (of_ports self.old (arrival.admits (with_ports self.old) (meaning.place_of_port port)))
            self.new out.old out.new }
        ensures grows { Grows LINES_TO_RELEASE_ALL ACTIONS_TO_RELEASE_ALL out.old out.new }
    {
        admit(&mut self.processes, &mut self.ports, place_of(port), out);
    }

    /// The number of ports of the partition.
    pub fn port_count(&self) -> u8
        ensures { result ≡ length self.now.ports.ports }
    {
        self.ports.count()
    }

    /// Whether the port is a source; `None` if there is no port of this number.
    pub fn is_source(&self, port: PortId) -> Option<bool>
        ensures { result ≡ option_map is_source (at_number self.now.ports.ports port.0) }
    {
        let place = port.place()?;
        self.ports.is_source(place)
    }

    /// How many messages the port holds; `None` if there is no port of this number.
    pub fn message_count(&self, port: PortId) -> Option<u8>
        ensures { result
            ≡ option_map (λ x. length x.messages) (at_number self.now.ports.ports port.0) }
    {
        let place = port.place()?;
        self.ports.message_count(place)
    }

    /// A copy of the message of the port that has `before` messages before it, if there is such a
    /// port and message.
    pub fn message_behind(&self, port: PortId, before: u8) -> Option<Words>
        ensures { result ≡ message_behind before (at_number self.now.ports.ports port.0) }
    {
        let place = port.place()?;
        self.ports.message_behind(place, before)
    }
}

impl<E: Executor> Partition<E> {
    /// A message arrives at a destination port (ARINC 653 Part 1, interpartition communication).
    pub fn arrive<L: EventLog>(
        &mut self,
        mem: &mut E::Mem,
        moment: Moment,
        port: PortId,
        message: &Words,
        log: &mut L,
    )
        requires fits { E.laid mem.old ≡ E.layout self.old.executor }
        requires empty { L.held log.old ≡ [] }
        ensures fits { E.laid mem.new ≡ E.layout self.new.executor }
        ensures moved { let x = member_of E.Executor self.old mem.old in
            IsMoved (meaning.arrives moment.at port message.now x) x
            (member_of E.Executor self.new mem.new) (IsTold L.EventLog log.old log.new) }
    {
        let name = self.kernel.name();
        self.out.clear();
        self.kernel.arrive(moment, port, message, &mut self.out);
        self.finish(mem, name, moment, log);
    }

    /// The first message of a source port leaves it, if it holds one (ARINC 653 Part 1, interpartition
    /// communication).
    pub fn move_one<L: EventLog>(
        &mut self,
        mem: &mut E::Mem,
        moment: Moment,
        port: PortId,
        log: &mut L,
    ) -> Option<Words>
        requires fits { E.laid mem.old ≡ E.layout self.old.executor }
        requires empty { L.held log.old ≡ [] }
        ensures fits { E.laid mem.new ≡ E.layout self.new.executor }
        ensures message { result ≡ meaning.leaving port (member_of E.Executor self.old mem.old) }
        ensures moved { let x = member_of E.Executor self.old mem.old in
            IsMoved (meaning.leaves moment.at port x) x (member_of E.Executor self.new mem.new)
            (IsTold L.EventLog log.old log.new) }
    {
        let name = self.kernel.name();
        self.out.clear();
        let message = self.kernel.move_one(port, &mut self.out);
        self.finish(mem, name, moment, log);
        message
    }

    /// The senders that wait at a source port enter it in their order, while there is room (ARINC
    /// 653 Part 1, interpartition communication).
    pub fn admit<L: EventLog>(
        &mut self,
        mem: &mut E::Mem,
        moment: Moment,
        port: PortId,
        log: &mut L,
    )
        requires fits { E.laid mem.old ≡ E.layout self.old.executor }
        requires empty { L.held log.old ≡ [] }
        ensures fits { E.laid mem.new ≡ E.layout self.new.executor }
        ensures moved { let x = member_of E.Executor self.old mem.old in
            IsMoved (meaning.admits moment.at port x) x (member_of E.Executor self.new mem.new)
            (IsTold L.EventLog log.old log.new) }
    {
        let name = self.kernel.name();
        self.out.clear();
        self.kernel.admit(port, &mut self.out);
        self.finish(mem, name, moment, log);
    }

    /// Writes the line of a message of the partition that leaves the module by a channel.
    pub fn go_out<L: EventLog>(
        &self,
        mem: &E::Mem,
        moment: Moment,
        channel: Name,
        message: &Words,
        log: &mut L,
    )
        requires room { 0 < L.room log.old }
        ensures moved { let x = member_of E.Executor self.now mem.now in
            IsMoved (meaning.goes_out moment.at channel message.now x) x x
            (IsTold L.EventLog log.old log.new) }
    {
        let name = Some(self.kernel.name());
        log.tell(moment.at.now, &name, &LineKind::Out(channel), message);
    }
}
