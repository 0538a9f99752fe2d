//! Sources and the texts of their traces.

ghost use Rattle.std.specs.Prelude.{◌≡◌, ◌∷◌, [], Some, codes};
ghost use Rattle.meaning_rows.specs.Rows.{lines, plain_partition, plain_table, release_window, single_table, text_of_sources};

/// A process is created, started and runs to its end, or waits for a tick.
fn one_process()
    ensures reports { text_of_sources (single_table (codes "a") 128) (codes "array m[2]; init stack 16 { local r; local i; CREATE_PROCESS(p) -> r, i; START(i) -> r; SET_PARTITION_MODE(3) -> r; } process p priority 5 period -1 capacity -1 stack 16 { local r; local t; work 3; GET_TIME() -> r, t; m[0] := t; m[1] := 7; REPORT_APPLICATION_MESSAGE(m, 2) -> r; }" ∷ []) 128 ≡ Some (lines (
        codes "0000000000000 a MODE COLD_START" ∷
        codes "0000000000000 a STATE INIT READY" ∷
        codes "0000000000000 a STATE INIT RUNNING" ∷
        codes "0000000000008 a RET INIT CREATE_PROCESS 0" ∷
        codes "0000000000015 a RET INIT START 0" ∷
        codes "0000000000015 a STATE p WAITING" ∷
        codes "0000000000021 a RET INIT SET_PARTITION_MODE 0" ∷
        codes "0000000000021 a STATE INIT DORMANT" ∷
        codes "0000000000021 a MODE NORMAL" ∷
        codes "0000000000021 a STATE p READY" ∷
        codes "0000000000022 a STATE p RUNNING" ∷
        codes "0000000000028 a RET p GET_TIME 0" ∷
        codes "0000000000047 a RET p REPORT_APPLICATION_MESSAGE 0" ∷
        codes "0000000000047 a REPORT p 28 7" ∷
        codes "0000000000052 a STATE p DORMANT" ∷
        [])) }
    ensures sleeps { text_of_sources (single_table (codes "a") 128) (codes "init stack 16 { local r; local i; CREATE_PROCESS(p) -> r, i; START(i) -> r; SET_PARTITION_MODE(3) -> r; } process p priority 5 period -1 capacity -1 stack 16 { local r; TIMED_WAIT(1) -> r; }" ∷ []) 40 ≡ Some (lines (
        codes "0000000000000 a MODE COLD_START" ∷
        codes "0000000000000 a STATE INIT READY" ∷
        codes "0000000000000 a STATE INIT RUNNING" ∷
        codes "0000000000008 a RET INIT CREATE_PROCESS 0" ∷
        codes "0000000000015 a RET INIT START 0" ∷
        codes "0000000000015 a STATE p WAITING" ∷
        codes "0000000000021 a RET INIT SET_PARTITION_MODE 0" ∷
        codes "0000000000021 a STATE INIT DORMANT" ∷
        codes "0000000000021 a MODE NORMAL" ∷
        codes "0000000000021 a STATE p READY" ∷
        codes "0000000000022 a STATE p RUNNING" ∷
        codes "0000000000026 a STATE p WAITING" ∷
        codes "0000000000027 a RET p TIMED_WAIT 0" ∷
        codes "0000000000027 a STATE p READY" ∷
        codes "0000000000027 a STATE p RUNNING" ∷
        codes "0000000000031 a STATE p DORMANT" ∷
        [])) }
{}

/// INIT without processes: it sets the mode, or it ends without.
fn init_alone()
    ensures sets_the_mode { text_of_sources (single_table (codes "a") 128) (codes "init stack 16 { local r; SET_PARTITION_MODE(3) -> r; }" ∷ []) 128 ≡ Some (lines (
        codes "0000000000000 a MODE COLD_START" ∷
        codes "0000000000000 a STATE INIT READY" ∷
        codes "0000000000000 a STATE INIT RUNNING" ∷
        codes "0000000000004 a RET INIT SET_PARTITION_MODE 0" ∷
        codes "0000000000004 a STATE INIT DORMANT" ∷
        codes "0000000000004 a MODE NORMAL" ∷
        [])) }
    ensures ends { text_of_sources (single_table (codes "a") 128) (codes "init stack 16 { work 2; }" ∷ []) 128 ≡ Some (lines (
        codes "0000000000000 a MODE COLD_START" ∷
        codes "0000000000000 a STATE INIT READY" ∷
        codes "0000000000000 a STATE INIT RUNNING" ∷
        codes "0000000000005 a MODE IDLE" ∷
        [])) }
{}

/// Expressions, branches and loops take the ticks of their constructs.
fn constructs()
    ensures sums { text_of_sources (single_table (codes "a") 128) (codes "var x = 1; init stack 16 { local r; local t; x := 2 + 3 * x; GET_TIME() -> r, t; }" ∷ []) 128 ≡ Some (lines (
        codes "0000000000000 a MODE COLD_START" ∷
        codes "0000000000000 a STATE INIT READY" ∷
        codes "0000000000000 a STATE INIT RUNNING" ∷
        codes "0000000000010 a RET INIT GET_TIME 0" ∷
        codes "0000000000016 a MODE IDLE" ∷
        [])) }
    ensures loops { text_of_sources (single_table (codes "a") 128) (codes "init stack 16 { local r; local t; local i; while i < 3 { i := i + 1; } GET_TIME() -> r, t; }" ∷ []) 128 ≡ Some (lines (
        codes "0000000000000 a MODE COLD_START" ∷
        codes "0000000000000 a STATE INIT READY" ∷
        codes "0000000000000 a STATE INIT RUNNING" ∷
        codes "0000000000034 a RET INIT GET_TIME 0" ∷
        codes "0000000000040 a MODE IDLE" ∷
        [])) }
    ensures first_block { text_of_sources (single_table (codes "a") 128) (codes "var x = 1; var y; init stack 16 { local r; local t; if x { y := 1; } else { y := 2; } GET_TIME() -> r, t; }" ∷ []) 128 ≡ Some (lines (
        codes "0000000000000 a MODE COLD_START" ∷
        codes "0000000000000 a STATE INIT READY" ∷
        codes "0000000000000 a STATE INIT RUNNING" ∷
        codes "0000000000008 a RET INIT GET_TIME 0" ∷
        codes "0000000000014 a MODE IDLE" ∷
        [])) }
    ensures other_block { text_of_sources (single_table (codes "a") 128) (codes "var x; var y; init stack 16 { local r; local t; if x { y := 1; } else { y := 2; } GET_TIME() -> r, t; }" ∷ []) 128 ≡ Some (lines (
        codes "0000000000000 a MODE COLD_START" ∷
        codes "0000000000000 a STATE INIT READY" ∷
        codes "0000000000000 a STATE INIT RUNNING" ∷
        codes "0000000000007 a RET INIT GET_TIME 0" ∷
        codes "0000000000013 a MODE IDLE" ∷
        [])) }
{}

/// The values of expressions and procedures.
fn values()
    ensures divides { text_of_sources (single_table (codes "a") 128) (codes "array m[5]; init stack 32 { local r; local x; m[0] := (0 - 7) / 2; m[1] := (0 - 7) % 2; m[2] := (0 - 9223372036854775807 - 1) % (0 - 1); m[3] := 7 / -2; m[4] := 7 % -2; REPORT_APPLICATION_MESSAGE(m, 5) -> r; }" ∷ []) 128 ≡ Some (lines (
        codes "0000000000000 a MODE COLD_START" ∷
        codes "0000000000000 a STATE INIT READY" ∷
        codes "0000000000000 a STATE INIT RUNNING" ∷
        codes "0000000000065 a RET INIT REPORT_APPLICATION_MESSAGE 0" ∷
        codes "0000000000065 a REPORT INIT -3 -1 0 -3 1" ∷
        codes "0000000000070 a MODE IDLE" ∷
        [])) }
    ensures ranks { text_of_sources (single_table (codes "a") 128) (codes "array m[13]; init stack 32 { local r; local x; m[0] := 2 - 3 - 4; m[1] := 1 + 2 * 3; m[2] := 100 / 10 / 2; m[3] := -3 * 2; m[4] := not 1 = 0; m[5] := 1 or 0 and 0; m[6] := 1 < 2 and 2 >= 3; m[7] := 2 + 3 <> 5; m[8] := - -5 - 1; m[9] := not not 7; m[10] := 17 % 5 * 2; m[11] := 1 + 1 <= 2; m[12] := 3 > 2; REPORT_APPLICATION_MESSAGE(m, 13) -> r; }" ∷ []) 256 ≡ Some (lines (
        codes "0000000000000 a MODE COLD_START" ∷
        codes "0000000000000 a STATE INIT READY" ∷
        codes "0000000000000 a STATE INIT RUNNING" ∷
        codes "0000000000120 a RET INIT REPORT_APPLICATION_MESSAGE 0" ∷
        codes "0000000000120 a REPORT INIT -5 7 5 -6 1 1 0 0 4 1 4 1 1" ∷
        codes "0000000000125 a MODE IDLE" ∷
        [])) }
    ensures calls { text_of_sources (single_table (codes "a") 128) (codes "array m[4]; proc gcd(a, b) { local t; while b <> 0 { t := a % b; a := b; b := t; } return a; } proc none() { m[3] := 9; } init stack 64 { local r; local i; while i < 3 { if i = 1 { m[i] := gcd(12 * i, gcd(18, 27)); } else { m[i] := i - 10; } i := i + 1; } r := none() + m[3]; REPORT_APPLICATION_MESSAGE(m, m[3] - 5) -> r; }" ∷ []) 256 ≡ Some (lines (
        codes "0000000000000 a MODE COLD_START" ∷
        codes "0000000000000 a STATE INIT READY" ∷
        codes "0000000000000 a STATE INIT RUNNING" ∷
        codes "0000000000192 a RET INIT REPORT_APPLICATION_MESSAGE 0" ∷
        codes "0000000000192 a REPORT INIT -10 3 -8 9" ∷
        codes "0000000000197 a MODE IDLE" ∷
        [])) }
{}

/// Calls that are refused, and INIT that sets the idle mode.
fn services()
    ensures { text_of_sources (single_table (codes "a") 128) (codes "array m[2]; init stack 16 { local r; REPORT_APPLICATION_MESSAGE(m, 3) -> r; REPORT_APPLICATION_MESSAGE(m, 0) -> r; m[0] := r; REPORT_APPLICATION_MESSAGE(m, 1) -> r; SET_PARTITION_MODE(4) -> r; SET_PARTITION_MODE(2) -> r; TIMED_WAIT(1) -> r; SET_PARTITION_MODE(0) -> r; }" ∷ []) 128 ≡ Some (lines (
        codes "0000000000000 a MODE COLD_START" ∷
        codes "0000000000000 a STATE INIT READY" ∷
        codes "0000000000000 a STATE INIT RUNNING" ∷
        codes "0000000000008 a RET INIT REPORT_APPLICATION_MESSAGE 3" ∷
        codes "0000000000018 a RET INIT REPORT_APPLICATION_MESSAGE 3" ∷
        codes "0000000000032 a RET INIT REPORT_APPLICATION_MESSAGE 0" ∷
        codes "0000000000032 a REPORT INIT 3" ∷
        codes "0000000000038 a RET INIT SET_PARTITION_MODE 3" ∷
        codes "0000000000044 a RET INIT SET_PARTITION_MODE 5" ∷
        codes "0000000000050 a RET INIT TIMED_WAIT 5" ∷
        codes "0000000000056 a RET INIT SET_PARTITION_MODE 0" ∷
        codes "0000000000056 a MODE IDLE" ∷
        [])) }
{}

/// A process takes the processor within another's expression.
fn preemption()
    ensures { text_of_sources (single_table (codes "a") 128) (codes "var g; array m[1]; init stack 16 { local r; local i; CREATE_PROCESS(lo) -> r, i; START(i) -> r; CREATE_PROCESS(hi) -> r, i; START(i) -> r; SET_PARTITION_MODE(3) -> r; } process lo priority 5 period -1 capacity -1 stack 16 { local r; m[0] := g + g; REPORT_APPLICATION_MESSAGE(m, 1) -> r; } process hi priority 9 period -1 capacity -1 stack 16 { local r; TIMED_WAIT(3) -> r; g := 7; }" ∷ []) 128 ≡ Some (lines (
        codes "0000000000000 a MODE COLD_START" ∷
        codes "0000000000000 a STATE INIT READY" ∷
        codes "0000000000000 a STATE INIT RUNNING" ∷
        codes "0000000000008 a RET INIT CREATE_PROCESS 0" ∷
        codes "0000000000015 a RET INIT START 0" ∷
        codes "0000000000015 a STATE lo WAITING" ∷
        codes "0000000000025 a RET INIT CREATE_PROCESS 0" ∷
        codes "0000000000032 a RET INIT START 0" ∷
        codes "0000000000032 a STATE hi WAITING" ∷
        codes "0000000000038 a RET INIT SET_PARTITION_MODE 0" ∷
        codes "0000000000038 a STATE INIT DORMANT" ∷
        codes "0000000000038 a MODE NORMAL" ∷
        codes "0000000000038 a STATE lo READY" ∷
        codes "0000000000038 a STATE hi READY" ∷
        codes "0000000000039 a STATE hi RUNNING" ∷
        codes "0000000000043 a STATE hi WAITING" ∷
        codes "0000000000044 a STATE lo RUNNING" ∷
        codes "0000000000046 a RET hi TIMED_WAIT 0" ∷
        codes "0000000000046 a STATE hi READY" ∷
        codes "0000000000046 a STATE lo READY" ∷
        codes "0000000000046 a STATE hi RUNNING" ∷
        codes "0000000000052 a STATE hi DORMANT" ∷
        codes "0000000000053 a STATE lo RUNNING" ∷
        codes "0000000000065 a RET lo REPORT_APPLICATION_MESSAGE 0" ∷
        codes "0000000000065 a REPORT lo 7" ∷
        codes "0000000000070 a STATE lo DORMANT" ∷
        [])) }
{}

/// Two partitions run in their windows.
fn windows()
    ensures { text_of_sources (plain_table 16 (plain_partition (codes "a") 16 8 ∷ plain_partition (codes "b") 16 8 ∷ []) (release_window 1 0 8 ∷ release_window 2 8 8 ∷ [])) (codes "init stack 16 { local r; SET_PARTITION_MODE(3) -> r; }" ∷ codes "init stack 16 { local r; SET_PARTITION_MODE(3) -> r; }" ∷ []) 16 ≡ Some (lines (
        codes "0000000000000 a MODE COLD_START" ∷
        codes "0000000000000 a STATE INIT READY" ∷
        codes "0000000000000 b MODE COLD_START" ∷
        codes "0000000000000 b STATE INIT READY" ∷
        codes "0000000000000 a STATE INIT RUNNING" ∷
        codes "0000000000004 a RET INIT SET_PARTITION_MODE 0" ∷
        codes "0000000000004 a STATE INIT DORMANT" ∷
        codes "0000000000004 a MODE NORMAL" ∷
        codes "0000000000008 b STATE INIT RUNNING" ∷
        codes "0000000000012 b RET INIT SET_PARTITION_MODE 0" ∷
        codes "0000000000012 b STATE INIT DORMANT" ∷
        codes "0000000000012 b MODE NORMAL" ∷
        [])) }
{}

/// A process with a fault becomes dormant, INIT leaves the partition idle.
fn faults()
    ensures overflows { text_of_sources (single_table (codes "a") 128) (codes "init stack 16 { local r; local i; CREATE_PROCESS(p) -> r, i; START(i) -> r; SET_PARTITION_MODE(3) -> r; } process p priority 5 period -1 capacity -1 stack 16 { local x; x := (0 - 9223372036854775807 - 1) / (0 - 1); }" ∷ []) 128 ≡ Some (lines (
        codes "0000000000000 a MODE COLD_START" ∷
        codes "0000000000000 a STATE INIT READY" ∷
        codes "0000000000000 a STATE INIT RUNNING" ∷
        codes "0000000000008 a RET INIT CREATE_PROCESS 0" ∷
        codes "0000000000015 a RET INIT START 0" ∷
        codes "0000000000015 a STATE p WAITING" ∷
        codes "0000000000021 a RET INIT SET_PARTITION_MODE 0" ∷
        codes "0000000000021 a STATE INIT DORMANT" ∷
        codes "0000000000021 a MODE NORMAL" ∷
        codes "0000000000021 a STATE p READY" ∷
        codes "0000000000022 a STATE p RUNNING" ∷
        codes "0000000000033 a STATE p DORMANT" ∷
        codes "0000000000033 a HM NUMERIC_ERROR p PARTITION IGNORE" ∷
        [])) }
    ensures calls_too_deep { text_of_sources (single_table (codes "a") 128) (codes "proc f(n) { return f(n + 1); } init stack 16 { local r; local i; CREATE_PROCESS(p) -> r, i; START(i) -> r; SET_PARTITION_MODE(3) -> r; } process p priority 5 period -1 capacity -1 stack 17 { local x; x := f(0); }" ∷ []) 128 ≡ Some (lines (
        codes "0000000000000 a MODE COLD_START" ∷
        codes "0000000000000 a STATE INIT READY" ∷
        codes "0000000000000 a STATE INIT RUNNING" ∷
        codes "0000000000008 a RET INIT CREATE_PROCESS 0" ∷
        codes "0000000000015 a RET INIT START 0" ∷
        codes "0000000000015 a STATE p WAITING" ∷
        codes "0000000000021 a RET INIT SET_PARTITION_MODE 0" ∷
        codes "0000000000021 a STATE INIT DORMANT" ∷
        codes "0000000000021 a MODE NORMAL" ∷
        codes "0000000000021 a STATE p READY" ∷
        codes "0000000000022 a STATE p RUNNING" ∷
        codes "0000000000049 a STATE p DORMANT" ∷
        codes "0000000000049 a HM STACK_OVERFLOW p PARTITION IGNORE" ∷
        [])) }
    ensures stores_outside { text_of_sources (single_table (codes "a") 128) (codes "array m[2]; init stack 16 { local r; local i; while 1 { m[i] := i; i := i + 1; } }" ∷ []) 128 ≡ Some (lines (
        codes "0000000000000 a MODE COLD_START" ∷
        codes "0000000000000 a STATE INIT READY" ∷
        codes "0000000000000 a STATE INIT RUNNING" ∷
        codes "0000000000027 a STATE INIT DORMANT" ∷
        codes "0000000000027 a HM MEMORY_VIOLATION INIT PARTITION IGNORE" ∷
        codes "0000000000027 a MODE IDLE" ∷
        [])) }
{}
