//! The words of a module table.

ghost use Rattle.std.specs.Prelude.{◌≡◌};
ghost use Rattle.module_meaning.specs.TableRules.{direction_of, discipline_of, module_action_of, partition_action_of};

use apex_types::{Discipline, ModuleAction, PartitionAction, PortDirection};

/// The direction of a port.
#[tactic(auto, unfolding(module_meaning::specs::TableRules::direction_of))]
pub fn direction(word: &str) -> Option<PortDirection>
    ensures { result ≡ direction_of word.now }
{
    match word {
        "SOURCE" => Some(PortDirection::Source),
        "DESTINATION" => Some(PortDirection::Destination),
        _ => None,
    }
}

/// The order in which those who wait for a queue are released.
#[tactic(auto, unfolding(module_meaning::specs::TableRules::discipline_of))]
pub fn discipline(word: &str) -> Option<Discipline>
    ensures { result ≡ discipline_of word.now }
{
    match word {
        "FIFO" => Some(Discipline::Fifo),
        "PRIORITY" => Some(Discipline::Priority),
        _ => None,
    }
}

/// The action of a word for a module fault.
#[tactic(auto, unfolding(module_meaning::specs::TableRules::module_action_of))]
pub fn module_action(word: &str) -> Option<ModuleAction>
    ensures { result ≡ module_action_of word.now }
{
    match word {
        "IGNORE" => Some(ModuleAction::Ignore),
        "SHUTDOWN" => Some(ModuleAction::Shutdown),
        "RESET" => Some(ModuleAction::Reset),
        _ => None,
    }
}

/// The action of a word for an error of partition level.
#[tactic(auto, unfolding(module_meaning::specs::TableRules::partition_action_of))]
pub fn partition_action(word: &str) -> Option<PartitionAction>
    ensures { result ≡ partition_action_of word.now }
{
    match word {
        "IGNORE" => Some(PartitionAction::Ignore),
        "IDLE" => Some(PartitionAction::Idle),
        "WARM_START" => Some(PartitionAction::WarmStart),
        "COLD_START" => Some(PartitionAction::ColdStart),
        _ => None,
    }
}
