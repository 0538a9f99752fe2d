//! The stored first module: one partition, whose one process reports the time.

/// The module table.
pub const TABLE: &str = "\
frame = 128
fault = \"IGNORE\"

[[partition]]
name = \"a\"
period = 128
duration = 128

[partition.hm]
DEADLINE_MISSED = \"IGNORE\"
APPLICATION_ERROR = \"IGNORE\"
NUMERIC_ERROR = \"IGNORE\"
ILLEGAL_REQUEST = \"IGNORE\"
STACK_OVERFLOW = \"IGNORE\"
MEMORY_VIOLATION = \"IGNORE\"
HARDWARE_FAULT = \"IGNORE\"

[[window]]
partition = \"a\"
offset = 0
length = 128
release = true
";

/// The source text of its partition.
pub const SOURCE: &str = "\
array m[2];

init stack 16 {
    local r;
    local i;
    CREATE_PROCESS(p) -> r, i;
    START(i) -> r;
    SET_PARTITION_MODE(3) -> r;
}

process p priority 5 period -1 capacity -1 stack 16 {
    local r;
    local t;
    work 3;
    GET_TIME() -> r, t;
    m[0] := t;
    m[1] := 7;
    REPORT_APPLICATION_MESSAGE(m, 2) -> r;
}
";

/// The ticks that it runs.
pub const TICKS: u64 = 128;
