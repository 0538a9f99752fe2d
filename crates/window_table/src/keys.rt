//! The keys of a module table.

ghost use Rattle.std.specs.Prelude.{◌≡◌, ◌∷◌, [], codes};
ghost use Rattle.module_meaning.specs.TableRules.{is_table_key, is_partition_key, is_window_key, is_error_name, is_cost_key, is_one_of};

use apex_types::COST_KEYS;

/// A part of a module table, by the keys that it may have.
#[derive(Clone, Copy)]
pub enum Part {
    Table,
    Partition,
    SamplingPort,
    QueuingPort,
    Health,
    Window,
    Channel,
    Cost,
}

impl Part {
    ghost use Rattle.std.specs.Prelude.{◌≡◌};
    ghost use Rattle.window_table.specs.Keys.{is_key};

    /// Returns true if a key is one of the part's keys.
    pub fn has_key(self, key: &str) -> bool
        ensures { result ≡ is_key self key.now }
    {
        match self {
            Part::Table => is_table_key(key),
            Part::Partition => is_partition_key(key),
            Part::SamplingPort => is_port_key(key) || key == "refresh",
            Part::QueuingPort => is_port_key(key) || matches!(key, "depth" | "discipline"),
            Part::Health => is_error_name(key),
            Part::Window => is_window_key(key),
            Part::Channel => matches!(key, "name" | "source" | "destinations"),
            Part::Cost => is_cost_key(key),
        }
    }
}

fn is_table_key(key: &str) -> bool
    ensures { result ≡ is_table_key key.now }
{
    matches!(
        key,
        "frame" | "fault" | "cost" | "partition" | "window" | "channel"
    )
}

fn is_partition_key(key: &str) -> bool
    ensures { result ≡ is_partition_key key.now }
{
    matches!(key, "name" | "period" | "duration" | "hm" | "port")
}

fn is_port_key(key: &str) -> bool
    ensures { result
        ≡ is_one_of (codes "name" ∷ codes "kind" ∷ codes "direction" ∷ codes "words" ∷ []) key.now }
{
    matches!(key, "name" | "kind" | "direction" | "words")
}

fn is_window_key(key: &str) -> bool
    ensures { result ≡ is_window_key key.now }
{
    matches!(key, "partition" | "offset" | "length" | "release")
}

fn is_error_name(key: &str) -> bool
    ensures { result ≡ is_error_name key.now }
{
    matches!(
        key,
        "DEADLINE_MISSED"
            | "APPLICATION_ERROR"
            | "NUMERIC_ERROR"
            | "ILLEGAL_REQUEST"
            | "STACK_OVERFLOW"
            | "MEMORY_VIOLATION"
            | "HARDWARE_FAULT"
    )
}

/// The keys of the costs, in their order.
pub const COST_NAMES: [&str; COST_KEYS] = [
    "literal", "scalar", "array", "add", "mul", "div", "logic", "branch", "jump", "call", "return",
    "create", "message", "service", "end",
];

fn is_cost_key(key: &str) -> bool
    ensures { result ≡ is_cost_key key.now }
{
    matches!(
        key,
        "literal"
            | "scalar"
            | "array"
            | "add"
            | "mul"
            | "div"
            | "logic"
            | "branch"
            | "jump"
            | "call"
            | "return"
            | "create"
            | "message"
            | "service"
            | "end"
    )
}
