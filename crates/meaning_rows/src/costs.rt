//! The instructions, the frame and the cost of each body of a source.

ghost use Rattle.std.specs.Prelude.{◌≡◌, ◌∷◌, [], Some, codes, option_map};
ghost use Rattle.meaning_rows.specs.Rows.{costs_of, plain_partition, program_of};

/// INIT, the processes and the procedures, one after the other.
fn bodies_cost()
    ensures smallest { option_map costs_of (program_of (plain_partition (codes "a") 128 128) (codes "init stack 16 { local r; SET_PARTITION_MODE(3) -> r; }")) ≡ Some ((4, 4, 10) ∷ []) }
    ensures reporting { option_map costs_of (program_of (plain_partition (codes "a") 128 128) (codes "array m[2]; init stack 16 { local r; local i; CREATE_PROCESS(p) -> r, i; START(i) -> r; SET_PARTITION_MODE(3) -> r; } process p priority 5 period -1 capacity -1 stack 16 { local r; local t; work 3; GET_TIME() -> r, t; m[0] := t; m[1] := 7; REPORT_APPLICATION_MESSAGE(m, 2) -> r; }")) ≡ Some ((11, 6, 27) ∷ (16, 7, 31) ∷ []) }
    ensures sums { option_map costs_of (program_of (plain_partition (codes "a") 128 128) (codes "var x = 1; init stack 16 { local r; local t; x := 2 + 3 * x; GET_TIME() -> r, t; }")) ≡ Some ((10, 7, 17) ∷ []) }
    ensures loops { option_map costs_of (program_of (plain_partition (codes "a") 128 128) (codes "init stack 16 { local r; local t; local i; while i < 3 { i := i + 1; } GET_TIME() -> r, t; }")) ≡ Some ((13, 7, 19) ∷ []) }
    ensures two_processes { option_map costs_of (program_of (plain_partition (codes "a") 128 128) (codes "var g; array m[1]; init stack 16 { local r; local i; CREATE_PROCESS(lo) -> r, i; START(i) -> r; CREATE_PROCESS(hi) -> r, i; START(i) -> r; SET_PARTITION_MODE(3) -> r; } process lo priority 5 period -1 capacity -1 stack 16 { local r; m[0] := g + g; REPORT_APPLICATION_MESSAGE(m, 1) -> r; } process hi priority 9 period -1 capacity -1 stack 16 { local r; TIMED_WAIT(3) -> r; g := 7; }")) ≡ Some ((18, 6, 44) ∷ (11, 6, 20) ∷ (6, 4, 12) ∷ []) }
    ensures recursive { option_map costs_of (program_of (plain_partition (codes "a") 128 128) (codes "proc f(n) { return f(n + 1); } init stack 16 { local r; local i; CREATE_PROCESS(p) -> r, i; START(i) -> r; SET_PARTITION_MODE(3) -> r; } process p priority 5 period -1 capacity -1 stack 17 { local x; x := f(0); }")) ≡ Some ((11, 6, 27) ∷ (4, 4, 9) ∷ (7, 5, 11) ∷ []) }
    ensures dividing { option_map costs_of (program_of (plain_partition (codes "a") 128 128) (codes "init stack 16 { local r; local i; CREATE_PROCESS(p) -> r, i; START(i) -> r; SET_PARTITION_MODE(3) -> r; } process p priority 5 period -1 capacity -1 stack 16 { local x; x := (0 - 9223372036854775807 - 1) / (0 - 1); }")) ≡ Some ((11, 6, 27) ∷ (11, 6, 17) ∷ []) }
{}
