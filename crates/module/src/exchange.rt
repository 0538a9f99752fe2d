//! The messages between the partitions and with the devices, written line by line.

ghost use Rattle.std.specs.Prelude.{◌≡◌, length, option_map, slice_get};
ghost use Rattle.module_meaning.specs.Table.{at_number};
ghost use Rattle.module_meaning.specs.Module as meaning;
ghost use Rattle.kernel_meaning.specs.Partition.{messages_to_move};
ghost use Rattle.image.specs.Items.{channel_of, channels_of};
ghost use Rattle.lone_partition.specs.Outputs.{sent_of};
ghost use Rattle.module.specs.Views.{members_in};
ghost use Rattle.lone_partition.specs.Written.{IsMade};

use crate::member::Members;
use apex_types::{ChannelEnd, Moment, PartitionId, PortId, Sink, Words, copied};
use lone_partition::{Output, PartitionStep, channel_from};
use partition::Kernel;
use partition_base::Executor;
use regions::PartitionMem;
use window_table::ChannelRow;

impl<E: Executor<Mem = PartitionMem>> Members<E> {
    /// Delivers a message of a channel to one of its ends.
    #[tactic(auto, using(crate::proofs::Written::nothing))]
    fn deliver<S: Sink>(
        &mut self,
        moment: Moment,
        channel: &ChannelRow,
        message: &Words,
        end: ChannelEnd,
        output: &mut Output<'_, S>,
    )
        ensures { IsMade
            (meaning.delivers moment.at (channel_of channel.now) message.now channel.now.source end
            (members_in E.Executor self.old))
            (members_in E.Executor self.new) (sent_of S.Sink output.old)
            (sent_of S.Sink output.new) }
    {
        match (end, channel.source) {
            (ChannelEnd::Port(partition, port), _) => {
                let step = PartitionStep::Arrive(port, copied(message));
                self.step(partition, moment, &step, output);
            }
            (ChannelEnd::Device, ChannelEnd::Port(partition, _)) => {
                let step = PartitionStep::GoOut(channel.name, copied(message));
                self.step(partition, moment, &step, output);
            }
            (ChannelEnd::Device, ChannelEnd::Device) => {}
        }
    }

    /// Delivers a message of a channel to each of these ends in turn.
    #[tactic(auto, using(crate::proofs::Written::nothing))]
    fn deliver_all<S: Sink>(
        &mut self,
        moment: Moment,
        channel: &ChannelRow,
        message: &Words,
        ends: &[ChannelEnd],
        output: &mut Output<'_, S>,
    )
        ensures { IsMade
            (meaning.delivers_all moment.at (channel_of channel.now) message.now ends.now
            (members_in E.Executor self.old))
            (members_in E.Executor self.new) (sent_of S.Sink output.old)
            (sent_of S.Sink output.new) }
    {
        for end in ends {
            self.deliver(moment, channel, message, *end, output);
        }
    }

    /// Sends a message to all destinations of a channel, in their order; without a channel it goes
    /// nowhere.
    #[tactic(auto, using(crate::proofs::Written::nothing))]
    pub fn go_by<S: Sink>(
        &mut self,
        moment: Moment,
        message: &Words,
        channel: Option<&ChannelRow>,
        output: &mut Output<'_, S>,
    )
        ensures { IsMade
            (meaning.goes_by moment.at message.now
            (option_map (λ c. channel_of c.now) channel.entry) (members_in E.Executor self.old))
            (members_in E.Executor self.new) (sent_of S.Sink output.old)
            (sent_of S.Sink output.new) }
    {
        if let Some(channel) = channel {
            let ends = channel.destinations.as_slice();
            self.deliver_all(moment, channel, message, ends, output);
        }
    }

    /// The first message of a port leaves it, and goes by its channel.
    fn move_message<S: Sink>(
        &mut self,
        channels: &[ChannelRow],
        moment: Moment,
        partition: PartitionId,
        port: PortId,
        output: &mut Output<'_, S>,
    )
        ensures { IsMade
            (meaning.moves_message (channels_of channels.now) moment.at partition port
            (members_in E.Executor self.old))
            (members_in E.Executor self.new) (sent_of S.Sink output.old)
            (sent_of S.Sink output.new) }
    {
        if let Some(message) = self.leave(partition, moment, port, output) {
            let channel = channel_from(channels, partition, port);
            self.go_by(moment, &message, channel, output);
        }
    }

    /// Moves `count` messages of a port, one after another.
    #[tactic(auto, using(crate::proofs::Written::nothing))]
    fn move_messages<S: Sink>(
        &mut self,
        count: u8,
        channels: &[ChannelRow],
        moment: Moment,
        partition: PartitionId,
        port: PortId,
        output: &mut Output<'_, S>,
    )
        ensures { IsMade
            (meaning.moves_messages count (channels_of channels.now) moment.at partition port
            (members_in E.Executor self.old))
            (members_in E.Executor self.new) (sent_of S.Sink output.old)
            (sent_of S.Sink output.new) }
    {
        for _ in 0..count {
            self.move_message(channels, moment, partition, port, output);
        }
    }

    /// The kernel of the partition at `place`; `None` if there is no such partition.
    fn kernel_at(&self, place: usize) -> Option<&Kernel>
        ensures { option_map (λ k. k.now) result
            ≡ option_map (λ x. x.world.kernel) (slice_get (members_in E.Executor self.now) place) }
    {
        if place >= self.partitions.len() {
            return None;
        }
        Some(self.partitions[place].kernel())
    }

    /// The kernel of the partition with this number; `None` if there is no such partition.
    pub fn kernel(&self, number: PartitionId) -> Option<&Kernel>
        ensures { option_map (λ k. k.now) result
            ≡ option_map (λ x. x.world.kernel)
            (at_number (members_in E.Executor self.now) number.0) }
    {
        let place = number.place()?;
        self.kernel_at(usize::from(place))
    }

    /// How many messages a source port holds; `None` if it is no source port.
    #[tactic(auto, using(crate::proofs::Members::seen))]
    pub fn messages_to_move(&self, partition: PartitionId, port: PortId) -> Option<u8>
        ensures { result
            ≡ messages_to_move
            (at_number (meaning.ports_from (members_in E.Executor self.now) partition.0) port.0) }
    {
        let kernel = self.kernel(partition)?;
        match kernel.is_source(port) {
            Some(true) => kernel.message_count(port),
            _ => None,
        }
    }

    /// All messages that a source port holds, the oldest first; then the senders that wait for room in
    /// it.
    #[tactic(auto, using(crate::proofs::Written::nothing))]
    fn move_port<S: Sink>(
        &mut self,
        channels: &[ChannelRow],
        moment: Moment,
        partition: PartitionId,
        port: PortId,
        output: &mut Output<'_, S>,
    )
        ensures { IsMade
            (meaning.moves_port (channels_of channels.now) moment.at partition port
            (members_in E.Executor self.old))
            (members_in E.Executor self.new) (sent_of S.Sink output.old)
            (sent_of S.Sink output.new) }
    {
        let Some(count) = self.messages_to_move(partition, port) else {
            return;
        };
        self.move_messages(count, channels, moment, partition, port, output);
        self.step(partition, moment, &PartitionStep::Admit(port), output);
    }

    /// Moves the messages of the first `count` ports of a partition, in number order.
    #[inline(never)]
    #[tactic(auto, using(crate::proofs::Written::nothing))]
    fn move_ports<S: Sink>(
        &mut self,
        count: u8,
        channels: &[ChannelRow],
        moment: Moment,
        partition: PartitionId,
        output: &mut Output<'_, S>,
    )
        ensures { IsMade
            (meaning.moves_ports count 1 (channels_of channels.now) moment.at partition
            (members_in E.Executor self.old))
            (members_in E.Executor self.new) (sent_of S.Sink output.old)
            (sent_of S.Sink output.new) }
    {
        for place in 0..count {
            let port = PortId(place + 1);
            self.move_port(channels, moment, partition, port, output);
        }
    }

    /// How many ports a partition has; 0 if there is no such partition.
    #[tactic(auto, using(crate::proofs::Members::seen))]
    pub fn port_count(&self, partition: PartitionId) -> u8
        ensures { result
            ≡ length (meaning.ports_from (members_in E.Executor self.now) partition.0) }
    {
        match self.kernel(partition) {
            Some(kernel) => kernel.port_count(),
            None => 0,
        }
    }

    /// If a window has ended, moves the messages of the source ports of its partition, in number
    /// order.
    #[tactic(auto, using(crate::proofs::Written::nothing))]
    pub fn move_ended<S: Sink>(
        &mut self,
        channels: &[ChannelRow],
        moment: Moment,
        ended: Option<PartitionId>,
        output: &mut Output<'_, S>,
    )
        ensures { IsMade
            (meaning.moves_ended (channels_of channels.now) moment.at
            (members_in E.Executor self.old) (option_map (λ p. p.0) ended))
            (members_in E.Executor self.new) (sent_of S.Sink output.old)
            (sent_of S.Sink output.new) }
    {
        let Some(partition) = ended else {
            return;
        };
        let count = self.port_count(partition);
        if count > 0 {
            self.move_ports(count, channels, moment, partition, output);
        }
    }
}
