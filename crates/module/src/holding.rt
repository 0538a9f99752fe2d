//! The messages that the source ports of the partitions hold for one of them, before they move.

ghost use Rattle.std.specs.Prelude.{◌≡◌, ◌≤◌, length, option_map};
ghost use Rattle.module_meaning.specs.Table.{at_number};
ghost use Rattle.module_meaning.specs.Module as meaning;
ghost use Rattle.image.specs.Items.{channel_of, channels_of};
ghost use Rattle.isolation.specs.Brought.{held_ended, held_ports};
ghost use Rattle.ports.specs.Held.{message_behind};
ghost use Rattle.module.specs.Collecting.{AreCollected, brought_found, held_found};
ghost use Rattle.module.specs.Views.{members_in};

use crate::bringing::bring_by;
use crate::collected::Collected;
use crate::inputs_fault::InputsFault;
use crate::member::Members;
use apex_types::{PartitionId, PortId, Ticks, Words};
use lone_partition::channel_from;
use partition_base::Executor;
use regions::PartitionMem;
use window_table::ChannelRow;

impl<E: Executor<Mem = PartitionMem>> Members<E> {
    /// A copy of the message of a port that has `before` messages before it, if there is such a
    /// message.
    #[tactic(auto, using(crate::proofs::Members::seen))]
    fn message_behind(&self, from: PartitionId, port: PortId, before: u8) -> Option<Words>
        ensures { result
            ≡ message_behind before
            (at_number (meaning.ports_from (members_in E.Executor self.now) from.0) port.0) }
    {
        let kernel = self.kernel(from)?;
        kernel.message_behind(port, before)
    }

    /// Brings the message of a port that has `before` messages before it, if there is such a
    /// message, by the port's channel.
    #[tactic(auto, using(crate::proofs::Collecting::collecting))]
    fn bring_message(
        &self,
        channel: Option<&ChannelRow>,
        from: PartitionId,
        port: PortId,
        before: u8,
        now: Ticks,
        watched: PartitionId,
        inputs: &mut Collected,
    ) -> Result<(), InputsFault>
        ensures { AreCollected now.0
            (brought_found watched.0 (option_map (λ c. channel_of c.now) channel.entry)
            (message_behind before
            (at_number (meaning.ports_from (members_in E.Executor self.now) from.0) port.0)))
            inputs.old.lines.items inputs.new.lines.items result }
    {
        match self.message_behind(from, port, before) {
            Some(message) => bring_by(channel, &message, now, watched, inputs),
            None => Ok(()),
        }
    }

    /// Brings all messages that a source port holds, the oldest first.
    fn bring_port(
        &self,
        channels: &[ChannelRow],
        from: PartitionId,
        port: PortId,
        now: Ticks,
        watched: PartitionId,
        inputs: &mut Collected,
    ) -> Result<(), InputsFault>
        ensures { AreCollected now.0
            (held_found (channels_of channels.now) watched.0 from port.0
            (at_number (meaning.ports_from (members_in E.Executor self.now) from.0) port.0))
            inputs.old.lines.items inputs.new.lines.items result }
    {
        let Some(count) = self.messages_to_move(from, port) else {
            return Ok(());
        };
        let channel = channel_from(channels, from, port);
        for before in 0..count {
            self.bring_message(channel, from, port, before, now, watched, inputs)?;
        }
        Ok(())
    }

    /// Brings the messages of the first `count` ports of a partition, in number order.
    fn bring_ports(
        &self,
        count: u8,
        channels: &[ChannelRow],
        from: PartitionId,
        now: Ticks,
        watched: PartitionId,
        inputs: &mut Collected,
    ) -> Result<(), InputsFault>
        requires { count ≡ length (meaning.ports_from (members_in E.Executor self.now) from.0) }
        ensures { AreCollected now.0
            (held_ports (channels_of channels.now) watched.0 from 1
            (meaning.ports_from (members_in E.Executor self.now) from.0))
            inputs.old.lines.items inputs.new.lines.items result }
    {
        for place in 0..count {
            let port = PortId(place + 1);
            self.bring_port(channels, from, port, now, watched, inputs)?;
        }
        Ok(())
    }

    /// Brings what the source ports of the partition whose window has ended hold, if a window has
    /// ended, in number order.
    #[tactic(auto, using(crate::proofs::Collecting::collecting))]
    pub fn bring_ended(
        &self,
        channels: &[ChannelRow],
        ended: Option<PartitionId>,
        now: Ticks,
        watched: PartitionId,
        inputs: &mut Collected,
    ) -> Result<(), InputsFault>
        ensures { AreCollected now.0
            (held_ended (channels_of channels.now) watched.0 (members_in E.Executor self.now)
            (option_map (λ p. p.0) ended))
            inputs.old.lines.items inputs.new.lines.items result }
    {
        let Some(from) = ended else {
            return Ok(());
        };
        let count = self.port_count(from);
        self.bring_ports(count, channels, from, now, watched, inputs)
    }
}
