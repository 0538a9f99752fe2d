//! The inputs that messages and devices bring one partition.

ghost use Rattle.std.specs.Prelude.{◌≡◌, ◌∷◌, [], option_map};
ghost use Rattle.image.specs.Items.{channel_of};
ghost use Rattle.isolation.specs.Brought.{brought_by, brought_in, brought_in_all, brought_to, is_shutdown, shuts_down};
ghost use Rattle.module.specs.Collecting.{AreCollected};
ghost use Rattle.module.specs.Views.{plan_of};

use crate::collected::Collected;
use crate::inputs_fault::InputsFault;
use apex_types::{
    ChannelEnd, DeviceInput, DeviceLine, ModuleAction, PartitionId, Ticks, Words, copied,
};
use image::Image;
use isolation::Input;
use window_table::ChannelRow;

/// Brings a message to this end, if it is a port of the watched partition.
#[tactic(auto, using(crate::proofs::Collecting::collecting))]
fn bring_to(
    end: ChannelEnd,
    message: &Words,
    now: Ticks,
    watched: PartitionId,
    inputs: &mut Collected,
) -> Result<(), InputsFault>
    ensures { AreCollected now.0 (brought_to watched.0 message.now (end ∷ []))
        inputs.old.lines.items inputs.new.lines.items result }
{
    let ChannelEnd::Port(partition, port) = end else {
        return Ok(());
    };
    if partition != watched {
        return Ok(());
    }
    inputs.push(now, Input::Arrive(port, copied(message)))
}

/// Brings a message to each of these ends in turn.
fn bring_to_all(
    ends: &[ChannelEnd],
    message: &Words,
    now: Ticks,
    watched: PartitionId,
    inputs: &mut Collected,
) -> Result<(), InputsFault>
    ensures { AreCollected now.0 (brought_to watched.0 message.now ends.now)
        inputs.old.lines.items inputs.new.lines.items result }
{
    for end in ends {
        bring_to(*end, message, now, watched, inputs)?;
    }
    Ok(())
}

/// Brings a message of a channel; without a channel it goes nowhere.
#[tactic(auto, using(crate::proofs::Collecting::collecting))]
pub fn bring_by(
    channel: Option<&ChannelRow>,
    message: &Words,
    now: Ticks,
    watched: PartitionId,
    inputs: &mut Collected,
) -> Result<(), InputsFault>
    ensures { AreCollected now.0
        (brought_by watched.0 message.now (option_map (λ c. channel_of c.now) channel.entry))
        inputs.old.lines.items inputs.new.lines.items result }
{
    match channel {
        Some(channel) => {
            let ends = channel.destinations.as_slice();
            bring_to_all(ends, message, now, watched, inputs)
        }
        None => Ok(()),
    }
}

/// Collects what an input of a device brings the watched partition.
#[tactic(auto, using(crate::proofs::Written::channels, crate::proofs::Collecting::collecting))]
fn bring_in(
    plan: &Image,
    input: &DeviceInput,
    now: Ticks,
    watched: PartitionId,
    inputs: &mut Collected,
) -> Result<(), InputsFault>
    ensures { AreCollected now.0 (brought_in (plan_of plan.now) watched.0 input.now)
        inputs.old.lines.items inputs.new.lines.items result }
{
    match input {
        DeviceInput::Message(channel, message) => {
            let channel = plan.channels.get(usize::from(channel.0));
            bring_by(channel, message, now, watched, inputs)
        }
        DeviceInput::PartitionFault(partition) => {
            if *partition == watched {
                inputs.push(now, Input::PartitionFault)
            } else {
                Ok(())
            }
        }
        DeviceInput::ModuleFault => inputs.push(now, Input::ModuleFault),
    }
}

fn is_shutdown(action: ModuleAction) -> bool
    ensures { result ≡ is_shutdown action }
{
    match action {
        ModuleAction::Shutdown => true,
        ModuleAction::Ignore | ModuleAction::Reset => false,
    }
}

/// Whether an input of a device shuts the module down.
fn shuts_down(fault: ModuleAction, input: &DeviceInput) -> bool
    ensures { result ≡ shuts_down fault input.now }
{
    match input {
        DeviceInput::ModuleFault => is_shutdown(fault),
        DeviceInput::Message(_, _) | DeviceInput::PartitionFault(_) => false,
    }
}

/// Collects what the device lines of a tick bring the watched partition, one after another, until
/// one of them shuts the module down.
pub fn bring_in_all(
    plan: &Image,
    lines: &[DeviceLine],
    now: Ticks,
    watched: PartitionId,
    inputs: &mut Collected,
) -> Result<(), InputsFault>
    ensures { AreCollected now.0 (brought_in_all (plan_of plan.now) watched.0 lines.now)
        inputs.old.lines.items inputs.new.lines.items result }
{
    for line in lines {
        bring_in(plan, &line.input, now, watched, inputs)?;
        if shuts_down(plan.fault, &line.input) {
            return Ok(());
        }
    }
    Ok(())
}
