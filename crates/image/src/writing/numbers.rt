//! Numbers, names and choices.

ghost use Rattle.std.specs.Prelude.{◌≡◌, ◌++◌, OnOk};
ghost use Rattle.machine_meaning.specs.ImageSpelling.{name, u32, module_action, partition_action, discipline, direction, duration};

use apex_types::{Discipline, ModuleAction, Name, PartitionAction, PortDirection};
use std::alloc::AllocError;

#[tactic(auto, unfolding(machine_meaning::specs::ImageSpelling::name))]
pub fn put_name(out: &mut Vec<u8>, text: &Name) -> Result<(), AllocError>
    ensures { OnOk result (out.new.items ≡ out.old.items ++ name text.now) }
{
    let bytes = text.as_bytes();
    out.push(bytes.len() as u8)?;
    out.extend_from_slice(bytes)
}

/// The four low bytes of a count: the lists of an image are shorter than 2^32.
pub fn put_count(out: &mut Vec<u8>, count: usize) -> Result<(), AllocError>
    ensures { OnOk result (out.new.items ≡ out.old.items ++ u32 count) }
{
    let [first, second, third, fourth, ..] = count.to_le_bytes();
    out.extend_from_slice(&[first, second, third, fourth])
}

/// The ticks of a duration, -1 for none.
#[tactic(auto, unfolding(machine_meaning::specs::ImageSpelling::duration))]
pub fn put_duration(out: &mut Vec<u8>, ticks: Option<u64>) -> Result<(), AllocError>
    ensures { OnOk result (out.new.items ≡ out.old.items ++ duration ticks) }
{
    match ticks {
        Some(number) => out.extend_from_slice(&number.to_le_bytes()),
        None => out.extend_from_slice(&(-1i64).to_le_bytes()),
    }
}

pub fn number_of_module_action(action: ModuleAction) -> u8
    ensures { result ≡ module_action action }
{
    match action {
        ModuleAction::Ignore => 0,
        ModuleAction::Shutdown => 1,
        ModuleAction::Reset => 2,
    }
}

pub fn number_of_partition_action(action: PartitionAction) -> u8
    ensures { result ≡ partition_action action }
{
    match action {
        PartitionAction::Ignore => 0,
        PartitionAction::Idle => 1,
        PartitionAction::WarmStart => 2,
        PartitionAction::ColdStart => 3,
    }
}

pub fn number_of_discipline(order: Discipline) -> u8
    ensures { result ≡ discipline order }
{
    match order {
        Discipline::Fifo => 0,
        Discipline::Priority => 1,
    }
}

pub fn number_of_direction(way: PortDirection) -> u8
    ensures { result ≡ direction way }
{
    match way {
        PortDirection::Source => 0,
        PortDirection::Destination => 1,
    }
}
