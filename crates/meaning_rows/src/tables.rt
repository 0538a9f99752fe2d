//! Module tables from their texts.

ghost use Rattle.std.specs.Prelude.{◌≡◌, ◌∷◌, [], Some, Ok, codes, map};
ghost use Rattle.meaning_rows.specs.Rows.{lines, plain_partition, plain_table, refused_table, release_window, single_table, text_of_module, verdict_of_table};

/// Tables that are accepted, and one that breaks each rule.
fn tables_are_judged()
    ensures single { verdict_of_table (codes "frame = 128\nfault = \"IGNORE\"\n[[partition]]\nname = \"a\"\nperiod = 128\nduration = 128\nhm = { DEADLINE_MISSED = \"IGNORE\", APPLICATION_ERROR = \"IGNORE\", NUMERIC_ERROR = \"IGNORE\", ILLEGAL_REQUEST = \"IGNORE\", STACK_OVERFLOW = \"IGNORE\", MEMORY_VIOLATION = \"IGNORE\", HARDWARE_FAULT = \"IGNORE\" }\n[[window]]\npartition = \"a\"\noffset = 0\nlength = 128\nrelease = true\n") ≡ Some (Ok (single_table (codes "a") 128)) }
    ensures refused { map refused_table (
        codes "frame = " ∷
        codes "frame = 8\nfault = \"IGNORE\"\n[[partition]]\nname = \"a\"\nperiod = 8\nduration = 8\nhm = { DEADLINE_MISSED = \"IGNORE\", APPLICATION_ERROR = \"IGNORE\", NUMERIC_ERROR = \"IGNORE\", ILLEGAL_REQUEST = \"IGNORE\", STACK_OVERFLOW = \"IGNORE\", MEMORY_VIOLATION = \"IGNORE\", HARDWARE_FAULT = \"IGNORE\" }\n[[window]]\npartition = \"a\"\noffset = 0\nlength = 8\nrelease = true\nmore = 1\n" ∷
        codes "frame = 8\nfault = \"IGNORE\"\n[[partition]]\nname = \"a\"\nperiod = 8\nduration = 8\nhm = { DEADLINE_MISSED = \"IGNORE\", APPLICATION_ERROR = \"IGNORE\", NUMERIC_ERROR = \"IGNORE\", ILLEGAL_REQUEST = \"IGNORE\", STACK_OVERFLOW = \"IGNORE\", MEMORY_VIOLATION = \"IGNORE\", HARDWARE_FAULT = \"IGNORE\" }\n[[window]]\npartition = \"a\"\noffset = 0\nlength = 8\nrelease = \"yes\"\n" ∷
        codes "frame = 0\nfault = \"IGNORE\"\n[[partition]]\nname = \"a\"\nperiod = 8\nduration = 8\nhm = { DEADLINE_MISSED = \"IGNORE\", APPLICATION_ERROR = \"IGNORE\", NUMERIC_ERROR = \"IGNORE\", ILLEGAL_REQUEST = \"IGNORE\", STACK_OVERFLOW = \"IGNORE\", MEMORY_VIOLATION = \"IGNORE\", HARDWARE_FAULT = \"IGNORE\" }\n[[window]]\npartition = \"a\"\noffset = 0\nlength = 8\nrelease = true\n" ∷
        codes "frame = 8\nfault = \"IGNORE\"\n[[partition]]\nname = \"A\"\nperiod = 8\nduration = 8\nhm = { DEADLINE_MISSED = \"IGNORE\", APPLICATION_ERROR = \"IGNORE\", NUMERIC_ERROR = \"IGNORE\", ILLEGAL_REQUEST = \"IGNORE\", STACK_OVERFLOW = \"IGNORE\", MEMORY_VIOLATION = \"IGNORE\", HARDWARE_FAULT = \"IGNORE\" }\n[[window]]\npartition = \"a\"\noffset = 0\nlength = 8\nrelease = true\n" ∷
        codes "frame = 8\nfault = \"IGNORE\"\n[[partition]]\nname = \"a\"\nperiod = 8\nduration = 8\nhm = { DEADLINE_MISSED = \"IGNORE\", APPLICATION_ERROR = \"IGNORE\", NUMERIC_ERROR = \"IGNORE\", ILLEGAL_REQUEST = \"IGNORE\", STACK_OVERFLOW = \"IGNORE\", MEMORY_VIOLATION = \"IGNORE\", HARDWARE_FAULT = \"IGNORE\" }\n[[window]]\npartition = \"b\"\noffset = 0\nlength = 8\nrelease = true\n" ∷
        codes "frame = 8\nfault = \"IGNORE\"\n[[partition]]\nname = \"a\"\nperiod = 8\nduration = 4\nhm = { DEADLINE_MISSED = \"IGNORE\", APPLICATION_ERROR = \"IGNORE\", NUMERIC_ERROR = \"IGNORE\", ILLEGAL_REQUEST = \"IGNORE\", STACK_OVERFLOW = \"IGNORE\", MEMORY_VIOLATION = \"IGNORE\", HARDWARE_FAULT = \"IGNORE\" }\n[[partition]]\nname = \"a\"\nperiod = 8\nduration = 4\nhm = { DEADLINE_MISSED = \"IGNORE\", APPLICATION_ERROR = \"IGNORE\", NUMERIC_ERROR = \"IGNORE\", ILLEGAL_REQUEST = \"IGNORE\", STACK_OVERFLOW = \"IGNORE\", MEMORY_VIOLATION = \"IGNORE\", HARDWARE_FAULT = \"IGNORE\" }\n[[window]]\npartition = \"a\"\noffset = 0\nlength = 8\nrelease = true\n" ∷
        codes "frame = 8\nfault = \"IGNORE\"\n[[partition]]\nname = \"a\"\nperiod = 8\nduration = 8\nhm = { DEADLINE_MISSED = \"IGNORE\", APPLICATION_ERROR = \"IGNORE\", NUMERIC_ERROR = \"IGNORE\", ILLEGAL_REQUEST = \"IGNORE\", STACK_OVERFLOW = \"IGNORE\", MEMORY_VIOLATION = \"IGNORE\", HARDWARE_FAULT = \"IGNORE\" }\n[[window]]\npartition = \"a\"\noffset = 0\nlength = 5\nrelease = true\n[[window]]\npartition = \"a\"\noffset = 4\nlength = 4\nrelease = true\n" ∷
        codes "frame = 8\nfault = \"IGNORE\"\n[[partition]]\nname = \"a\"\nperiod = 8\nduration = 8\nhm = { DEADLINE_MISSED = \"IGNORE\", APPLICATION_ERROR = \"IGNORE\", NUMERIC_ERROR = \"IGNORE\", ILLEGAL_REQUEST = \"IGNORE\", STACK_OVERFLOW = \"IGNORE\", MEMORY_VIOLATION = \"IGNORE\", HARDWARE_FAULT = \"IGNORE\" }\n[[window]]\npartition = \"a\"\noffset = 0\nlength = 9\nrelease = true\n" ∷
        codes "frame = 8\nfault = \"IGNORE\"\n[[partition]]\nname = \"a\"\nperiod = 3\nduration = 1\nhm = { DEADLINE_MISSED = \"IGNORE\", APPLICATION_ERROR = \"IGNORE\", NUMERIC_ERROR = \"IGNORE\", ILLEGAL_REQUEST = \"IGNORE\", STACK_OVERFLOW = \"IGNORE\", MEMORY_VIOLATION = \"IGNORE\", HARDWARE_FAULT = \"IGNORE\" }\n[[window]]\npartition = \"a\"\noffset = 0\nlength = 8\nrelease = true\n" ∷
        codes "frame = 8\nfault = \"IGNORE\"\n[[partition]]\nname = \"a\"\nperiod = 8\nduration = 8\nhm = { DEADLINE_MISSED = \"IGNORE\", APPLICATION_ERROR = \"IGNORE\", NUMERIC_ERROR = \"IGNORE\", ILLEGAL_REQUEST = \"IGNORE\", STACK_OVERFLOW = \"IGNORE\", MEMORY_VIOLATION = \"IGNORE\", HARDWARE_FAULT = \"IGNORE\" }\n[[window]]\npartition = \"a\"\noffset = 0\nlength = 7\nrelease = true\n" ∷
        codes "frame = 8\nfault = \"IGNORE\"\n[[partition]]\nname = \"a\"\nperiod = 8\nduration = 8\nhm = { DEADLINE_MISSED = \"IGNORE\", APPLICATION_ERROR = \"IGNORE\", NUMERIC_ERROR = \"IGNORE\", ILLEGAL_REQUEST = \"IGNORE\", STACK_OVERFLOW = \"IGNORE\", MEMORY_VIOLATION = \"IGNORE\", HARDWARE_FAULT = \"IGNORE\" }\n[[window]]\npartition = \"a\"\noffset = 0\nlength = 8\nrelease = false\n" ∷
        codes "frame = 8\nfault = \"IGNORE\"\n[[partition]]\nname = \"a\"\nperiod = 8\nduration = 8\nhm = { DEADLINE_MISSED = \"IGNORE\", APPLICATION_ERROR = \"IGNORE\", NUMERIC_ERROR = \"IGNORE\", ILLEGAL_REQUEST = \"IGNORE\", STACK_OVERFLOW = \"IGNORE\", MEMORY_VIOLATION = \"IGNORE\", HARDWARE_FAULT = \"IGNORE\" }\n[[partition.port]]\nname = \"o\"\nkind = \"SAMPLING\"\ndirection = \"SOURCE\"\nwords = 1\nrefresh = 0\n[[window]]\npartition = \"a\"\noffset = 0\nlength = 8\nrelease = true\n[[channel]]\nname = \"c\"\nsource = \"a.o\"\ndestinations = [\"a.o\"]\n" ∷
        codes "frame = 8\nfault = \"IGNORE\"\n[[partition]]\nname = \"a\"\nperiod = 8\nduration = 8\nhm = { DEADLINE_MISSED = \"IGNORE\", APPLICATION_ERROR = \"IGNORE\", NUMERIC_ERROR = \"IGNORE\", ILLEGAL_REQUEST = \"IGNORE\", STACK_OVERFLOW = \"IGNORE\", MEMORY_VIOLATION = \"IGNORE\", HARDWARE_FAULT = \"HALT\" }\n[[window]]\npartition = \"a\"\noffset = 0\nlength = 8\nrelease = true\n" ∷
        codes "frame = 8\nfault = \"HALT\"\n[[partition]]\nname = \"a\"\nperiod = 8\nduration = 8\nhm = { DEADLINE_MISSED = \"IGNORE\", APPLICATION_ERROR = \"IGNORE\", NUMERIC_ERROR = \"IGNORE\", ILLEGAL_REQUEST = \"IGNORE\", STACK_OVERFLOW = \"IGNORE\", MEMORY_VIOLATION = \"IGNORE\", HARDWARE_FAULT = \"IGNORE\" }\n[[window]]\npartition = \"a\"\noffset = 0\nlength = 8\nrelease = true\n" ∷
        codes "frame = 8\nfault = \"IGNORE\"\n[[partition]]\nname = \"a\"\nperiod = 8\nduration = 8\nhm = { DEADLINE_MISSED = \"IGNORE\", APPLICATION_ERROR = \"IGNORE\", NUMERIC_ERROR = \"IGNORE\", ILLEGAL_REQUEST = \"IGNORE\", STACK_OVERFLOW = \"IGNORE\", MEMORY_VIOLATION = \"IGNORE\", HARDWARE_FAULT = \"IGNORE\" }\n[[window]]\npartition = \"a\"\noffset = 0\nlength = 4\nrelease = true\n[[window]]\npartition = \"a\"\noffset = 4\nlength = 4\nrelease = true\n" ∷
        []) ≡ 1 ∷ 2 ∷ 2 ∷ 3 ∷ 3 ∷ 4 ∷ 4 ∷ 5 ∷ 5 ∷ 6 ∷ 7 ∷ 8 ∷ 9 ∷ 10 ∷ 10 ∷ 0 ∷ [] }
{}

/// From the texts of a table and its sources to the text of the trace.
fn modules_run()
    ensures reporting { text_of_module (codes "frame = 128\nfault = \"IGNORE\"\n[[partition]]\nname = \"a\"\nperiod = 128\nduration = 128\nhm = { DEADLINE_MISSED = \"IGNORE\", APPLICATION_ERROR = \"IGNORE\", NUMERIC_ERROR = \"IGNORE\", ILLEGAL_REQUEST = \"IGNORE\", STACK_OVERFLOW = \"IGNORE\", MEMORY_VIOLATION = \"IGNORE\", HARDWARE_FAULT = \"IGNORE\" }\n[[window]]\npartition = \"a\"\noffset = 0\nlength = 128\nrelease = true\n") (codes "array m[2]; init stack 16 { local r; local i; CREATE_PROCESS(p) -> r, i; START(i) -> r; SET_PARTITION_MODE(3) -> r; } process p priority 5 period -1 capacity -1 stack 16 { local r; local t; work 3; GET_TIME() -> r, t; m[0] := t; m[1] := 7; REPORT_APPLICATION_MESSAGE(m, 2) -> r; }" ∷ []) 128 ≡ Some (lines (
        codes "0000000000000 a MODE COLD_START" ∷
        codes "0000000000000 a STATE INIT READY" ∷
        codes "0000000000000 a STATE INIT RUNNING" ∷
        codes "0000000000008 a RET INIT CREATE_PROCESS 0" ∷
        codes "0000000000015 a RET INIT START 0" ∷
        codes "0000000000015 a STATE p WAITING" ∷
        codes "0000000000021 a RET INIT SET_PARTITION_MODE 0" ∷
        codes "0000000000021 a STATE INIT DORMANT" ∷
        codes "0000000000021 a MODE NORMAL" ∷
        codes "0000000000021 a STATE p READY" ∷
        codes "0000000000022 a STATE p RUNNING" ∷
        codes "0000000000028 a RET p GET_TIME 0" ∷
        codes "0000000000047 a RET p REPORT_APPLICATION_MESSAGE 0" ∷
        codes "0000000000047 a REPORT p 28 7" ∷
        codes "0000000000052 a STATE p DORMANT" ∷
        [])) }
    ensures two_partitions { text_of_module (codes "frame = 16\nfault = \"IGNORE\"\n[[partition]]\nname = \"a\"\nperiod = 16\nduration = 8\nhm = { DEADLINE_MISSED = \"IGNORE\", APPLICATION_ERROR = \"IGNORE\", NUMERIC_ERROR = \"IGNORE\", ILLEGAL_REQUEST = \"IGNORE\", STACK_OVERFLOW = \"IGNORE\", MEMORY_VIOLATION = \"IGNORE\", HARDWARE_FAULT = \"IGNORE\" }\n[[partition]]\nname = \"b\"\nperiod = 16\nduration = 8\nhm = { DEADLINE_MISSED = \"IGNORE\", APPLICATION_ERROR = \"IGNORE\", NUMERIC_ERROR = \"IGNORE\", ILLEGAL_REQUEST = \"IGNORE\", STACK_OVERFLOW = \"IGNORE\", MEMORY_VIOLATION = \"IGNORE\", HARDWARE_FAULT = \"IGNORE\" }\n[[window]]\npartition = \"a\"\noffset = 0\nlength = 8\nrelease = true\n[[window]]\npartition = \"b\"\noffset = 8\nlength = 8\nrelease = true\n") (codes "init stack 16 { local r; SET_PARTITION_MODE(3) -> r; }" ∷ codes "init stack 16 { local r; SET_PARTITION_MODE(3) -> r; }" ∷ []) 16 ≡ Some (lines (
        codes "0000000000000 a MODE COLD_START" ∷
        codes "0000000000000 a STATE INIT READY" ∷
        codes "0000000000000 b MODE COLD_START" ∷
        codes "0000000000000 b STATE INIT READY" ∷
        codes "0000000000000 a STATE INIT RUNNING" ∷
        codes "0000000000004 a RET INIT SET_PARTITION_MODE 0" ∷
        codes "0000000000004 a STATE INIT DORMANT" ∷
        codes "0000000000004 a MODE NORMAL" ∷
        codes "0000000000008 b STATE INIT RUNNING" ∷
        codes "0000000000012 b RET INIT SET_PARTITION_MODE 0" ∷
        codes "0000000000012 b STATE INIT DORMANT" ∷
        codes "0000000000012 b MODE NORMAL" ∷
        [])) }
{}
