//! The keys of each part of a table, with the types of their values.

ghost use Rattle.std.specs.Prelude.{◌≡◌, map, option_copied};
ghost use Rattle.table_findings.specs.Fields as spec;

/// A part of a table, by the keys that it may have. A port whose kind is not known may have those of
/// both kinds.
#[derive(Clone, Copy)]
pub enum Part {
    Module,
    Costs,
    Partition,
    Health,
    SamplingPort,
    QueuingPort,
    Port,
    Window,
    Channel,
}

static MODULE_KEYS: [&str; 6] = ["frame", "fault", "partition", "window", "cost", "channel"];

static MODULE_NEEDED: [&str; 4] = ["frame", "fault", "partition", "window"];

static COST_KEYS: [&str; 15] = [
    "literal", "scalar", "array", "add", "mul", "div", "logic", "branch", "jump", "call", "return",
    "create", "message", "service", "end",
];

static PARTITION_KEYS: [&str; 5] = ["name", "period", "duration", "hm", "port"];

static PARTITION_NEEDED: [&str; 4] = ["name", "period", "duration", "hm"];

static HEALTH_KEYS: [&str; 7] = [
    "DEADLINE_MISSED",
    "APPLICATION_ERROR",
    "NUMERIC_ERROR",
    "ILLEGAL_REQUEST",
    "STACK_OVERFLOW",
    "MEMORY_VIOLATION",
    "HARDWARE_FAULT",
];

static SAMPLING_KEYS: [&str; 5] = ["name", "kind", "direction", "words", "refresh"];

static QUEUING_KEYS: [&str; 6] = ["name", "kind", "direction", "words", "depth", "discipline"];

static PORT_KEYS: [&str; 7] = [
    "name",
    "kind",
    "direction",
    "words",
    "refresh",
    "depth",
    "discipline",
];

static PORT_NEEDED: [&str; 4] = ["name", "kind", "direction", "words"];

static WINDOW_KEYS: [&str; 4] = ["partition", "offset", "length", "release"];

static CHANNEL_KEYS: [&str; 3] = ["name", "source", "destinations"];

impl Part {
    /// The keys that the part may have.
    pub fn keys(self) -> &'static [&'static str]
        ensures { map (λ key. key.now) result.now ≡ spec.keys self }
    {
        match self {
            Part::Module => &MODULE_KEYS,
            Part::Costs => &COST_KEYS,
            Part::Partition => &PARTITION_KEYS,
            Part::Health => &HEALTH_KEYS,
            Part::SamplingPort => &SAMPLING_KEYS,
            Part::QueuingPort => &QUEUING_KEYS,
            Part::Port => &PORT_KEYS,
            Part::Window => &WINDOW_KEYS,
            Part::Channel => &CHANNEL_KEYS,
        }
    }

    /// The keys that have to be there.
    pub fn needed(self) -> &'static [&'static str]
        ensures { map (λ key. key.now) result.now ≡ spec.needed self }
    {
        match self {
            Part::Module => &MODULE_NEEDED,
            Part::Partition => &PARTITION_NEEDED,
            Part::Port => &PORT_NEEDED,
            Part::Costs => &COST_KEYS,
            Part::Health => &HEALTH_KEYS,
            Part::SamplingPort => &SAMPLING_KEYS,
            Part::QueuingPort => &QUEUING_KEYS,
            Part::Window => &WINDOW_KEYS,
            Part::Channel => &CHANNEL_KEYS,
        }
    }

    /// The type of the value at a key, as TOML names it, if the part may have the key.
    pub fn wanted(self, key: &str) -> Option<&'static str>
        ensures { option_copied result ≡ spec.wanted self key.now }
    {
        match self {
            Part::Module => module_type(key),
            Part::Costs => cost_type(key),
            Part::Partition => partition_type(key),
            Part::Health => health_type(key),
            Part::SamplingPort => sampling_type(key),
            Part::QueuingPort => queuing_type(key),
            Part::Port => port_type(key),
            Part::Window => window_type(key),
            Part::Channel => channel_type(key),
        }
    }
}

fn module_type(key: &str) -> Option<&'static str>
    ensures { option_copied result ≡ spec.module_type key.now }
{
    match key {
        "frame" => Some("integer"),
        "fault" => Some("string"),
        "partition" | "window" | "channel" => Some("array"),
        "cost" => Some("table"),
        _ => None,
    }
}

fn cost_type(key: &str) -> Option<&'static str>
    ensures { option_copied result ≡ spec.cost_type key.now }
{
    match key {
        "literal"
        | "scalar"
        | "array"
        | "add"
        | "mul"
        | "div"
        | "logic"
        | "branch"
        | "jump"
        | "call"
        | "return"
        | "create"
        | "message"
        | "service"
        | "end" => Some("integer"),
        _ => None,
    }
}

fn partition_type(key: &str) -> Option<&'static str>
    ensures { option_copied result ≡ spec.partition_type key.now }
{
    match key {
        "name" => Some("string"),
        "period" | "duration" => Some("integer"),
        "hm" => Some("table"),
        "port" => Some("array"),
        _ => None,
    }
}

fn health_type(key: &str) -> Option<&'static str>
    ensures { option_copied result ≡ spec.health_type key.now }
{
    match key {
        "DEADLINE_MISSED"
        | "APPLICATION_ERROR"
        | "NUMERIC_ERROR"
        | "ILLEGAL_REQUEST"
        | "STACK_OVERFLOW"
        | "MEMORY_VIOLATION"
        | "HARDWARE_FAULT" => Some("string"),
        _ => None,
    }
}

/// The type of what ports of both kinds have.
fn common_type(key: &str) -> Option<&'static str>
    ensures { option_copied result ≡ spec.common_type key.now }
{
    match key {
        "name" | "kind" | "direction" => Some("string"),
        "words" => Some("integer"),
        _ => None,
    }
}

fn sampling_type(key: &str) -> Option<&'static str>
    ensures { option_copied result ≡ spec.sampling_type key.now }
{
    match key {
        "refresh" => Some("integer"),
        _ => common_type(key),
    }
}

fn queuing_type(key: &str) -> Option<&'static str>
    ensures { option_copied result ≡ spec.queuing_type key.now }
{
    match key {
        "depth" => Some("integer"),
        "discipline" => Some("string"),
        _ => common_type(key),
    }
}

fn port_type(key: &str) -> Option<&'static str>
    ensures { option_copied result ≡ spec.port_type key.now }
{
    match key {
        "refresh" => Some("integer"),
        _ => queuing_type(key),
    }
}

fn window_type(key: &str) -> Option<&'static str>
    ensures { option_copied result ≡ spec.window_type key.now }
{
    match key {
        "partition" => Some("string"),
        "offset" | "length" => Some("integer"),
        "release" => Some("boolean"),
        _ => None,
    }
}

fn channel_type(key: &str) -> Option<&'static str>
    ensures { option_copied result ≡ spec.channel_type key.now }
{
    match key {
        "name" | "source" => Some("string"),
        "destinations" => Some("array"),
        _ => None,
    }
}
