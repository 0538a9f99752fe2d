//! The meanings of single bytes.

ghost use Rattle.std.specs.Prelude.{◌≡◌};
ghost use Rattle.machine_meaning.specs.ImageReading.{choice_at, module_action_of, partition_action_of, discipline_of, direction_of, truth_of};
ghost use Rattle.image.specs.Views.{Gives};

use crate::fault::ImageFault;
use crate::reading::numbers::byte_at;
use apex_types::{Discipline, ModuleAction, PartitionAction, PortDirection};

fn module_action_of(byte: u8) -> Option<ModuleAction>
    ensures { result ≡ module_action_of byte }
{
    match byte {
        0 => Some(ModuleAction::Ignore),
        1 => Some(ModuleAction::Shutdown),
        2 => Some(ModuleAction::Reset),
        _ => None,
    }
}

fn partition_action_of(byte: u8) -> Option<PartitionAction>
    ensures { result ≡ partition_action_of byte }
{
    match byte {
        0 => Some(PartitionAction::Ignore),
        1 => Some(PartitionAction::Idle),
        2 => Some(PartitionAction::WarmStart),
        3 => Some(PartitionAction::ColdStart),
        _ => None,
    }
}

fn discipline_of(byte: u8) -> Option<Discipline>
    ensures { result ≡ discipline_of byte }
{
    match byte {
        0 => Some(Discipline::Fifo),
        1 => Some(Discipline::Priority),
        _ => None,
    }
}

fn direction_of(byte: u8) -> Option<PortDirection>
    ensures { result ≡ direction_of byte }
{
    match byte {
        0 => Some(PortDirection::Source),
        1 => Some(PortDirection::Destination),
        _ => None,
    }
}

fn truth_of(byte: u8) -> Option<bool>
    ensures { result ≡ truth_of byte }
{
    match byte {
        0 => Some(false),
        1 => Some(true),
        _ => None,
    }
}

#[tactic(auto, unfolding(machine_meaning::specs::ImageReading::choice_at))]
pub fn module_action_at(bytes: &[u8]) -> Result<(ModuleAction, &[u8]), ImageFault>
    ensures { Gives (λ x. (x.0, x.1.now)) result (choice_at module_action_of bytes.now) }
{
    let (byte, rest) = byte_at(bytes)?;
    match module_action_of(byte) {
        Some(action) => Ok((action, rest)),
        None => Err(ImageFault::Limit),
    }
}

#[tactic(auto, unfolding(machine_meaning::specs::ImageReading::choice_at))]
pub fn partition_action_at(bytes: &[u8]) -> Result<(PartitionAction, &[u8]), ImageFault>
    ensures { Gives (λ x. (x.0, x.1.now)) result (choice_at partition_action_of bytes.now) }
{
    let (byte, rest) = byte_at(bytes)?;
    match partition_action_of(byte) {
        Some(action) => Ok((action, rest)),
        None => Err(ImageFault::Limit),
    }
}

#[tactic(auto, unfolding(machine_meaning::specs::ImageReading::choice_at))]
pub fn discipline_at(bytes: &[u8]) -> Result<(Discipline, &[u8]), ImageFault>
    ensures { Gives (λ x. (x.0, x.1.now)) result (choice_at discipline_of bytes.now) }
{
    let (byte, rest) = byte_at(bytes)?;
    match discipline_of(byte) {
        Some(discipline) => Ok((discipline, rest)),
        None => Err(ImageFault::Limit),
    }
}

#[tactic(auto, unfolding(machine_meaning::specs::ImageReading::choice_at))]
pub fn direction_at(bytes: &[u8]) -> Result<(PortDirection, &[u8]), ImageFault>
    ensures { Gives (λ x. (x.0, x.1.now)) result (choice_at direction_of bytes.now) }
{
    let (byte, rest) = byte_at(bytes)?;
    match direction_of(byte) {
        Some(direction) => Ok((direction, rest)),
        None => Err(ImageFault::Limit),
    }
}

#[tactic(auto, unfolding(machine_meaning::specs::ImageReading::choice_at))]
pub fn truth_at(bytes: &[u8]) -> Result<(bool, &[u8]), ImageFault>
    ensures { Gives (λ x. (x.0, x.1.now)) result (choice_at truth_of bytes.now) }
{
    let (byte, rest) = byte_at(bytes)?;
    match truth_of(byte) {
        Some(truth) => Ok((truth, rest)),
        None => Err(ImageFault::Limit),
    }
}
