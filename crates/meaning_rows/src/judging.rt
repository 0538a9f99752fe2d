//! Sources that are refused, by the number of the refusal, and sources that are accepted.

ghost use Rattle.std.specs.Prelude.{◌≡◌, ◌∷◌, [], codes, map, replicate};
ghost use Rattle.meaning_rows.specs.Rows.{plain_partition, refusal_number};

/// No tree, then names, kinds, limits and periods; 0 where none of these holds.
fn sources_are_judged()
    ensures accepted { map (refusal_number (plain_partition (codes "a") 128 128)) (
        codes "init stack 16 { local r; SET_PARTITION_MODE(3) -> r; } " ∷
        codes "init stack 4096 { local r; r := (((((((((((((((((((((((((((((((((((((((((((((((((((((((((((((((1))))))))))))))))))))))))))))))))))))))))))))))))))))))))))))))); }" ∷
        codes "# a comment; init\ninit stack 16 { local r; SET_PARTITION_MODE(3) -> r; } " ∷
        codes "init stack 16 { local r; SET_PARTITION_MODE(3) -> r; } process p priority 5period -1 capacity -1 stack 16 { }" ∷
        codes "var x = 9223372036854775807; array m[3] = -9223372036854775807 0 1; init stack 16 { local r; SET_PARTITION_MODE(3) -> r; } " ∷
        codes "proc f(a, b) { return a; } init stack 16 { local r; r := f(1, f(2, 3)); }" ∷
        codes "init stack 16 { local r; SET_PARTITION_MODE(3) -> r; } process p priority 239 period 256 capacity 1099511627776 stack 4096 { }" ∷
        codes "init stack 16 { local r; GET_TIME() -> r, r; }" ∷
        []) ≡ replicate 8 0 }
    ensures no_tree { map (refusal_number (plain_partition (codes "a") 128 128)) (
        codes "" ∷
        codes "init" ∷
        codes "init stack 16 { work 2 }" ∷
        codes "init stack 16 { local r; SET_PARTITION_MODE(3) -> r; } x" ∷
        codes "init stack16 { }" ∷
        codes "init stack 16 { local r; r := 1 < 2 < 3; }" ∷
        codes "init stack 16 { local r; r := 1 < = 2; }" ∷
        codes "init stack 16 { local r; r := set_time; r := ; }" ∷
        codes "init stack 4096 { local r; r := ((((((((((((((((((((((((((((((((((((((((((((((((((((((((((((((((1)))))))))))))))))))))))))))))))))))))))))))))))))))))))))))))))); }" ∷
        codes "init stack 16 { local r; GET_TIMES() -> r; }" ∷
        codes "handler stack 16 { } init stack 16 { local r; SET_PARTITION_MODE(3) -> r; } " ∷
        codes "init stack 16 { local r; work 1; local i; }" ∷
        codes "process p priority 5 period -1 capacity -1 stack 16 { }init stack 16 { local r; SET_PARTITION_MODE(3) -> r; } " ∷
        codes "init stack 16 { local x; x := 1; } else" ∷
        []) ≡ replicate 14 2 }
    ensures by_name { map (refusal_number (plain_partition (codes "a") 128 128)) (
        codes "init stack 16 { x := 1; }" ∷
        codes "var x; var x; init stack 16 { local r; SET_PARTITION_MODE(3) -> r; } " ∷
        codes "var r; init stack 16 { local r; SET_PARTITION_MODE(3) -> r; } " ∷
        codes "proc f(f) { } init stack 16 { local r; SET_PARTITION_MODE(3) -> r; } " ∷
        codes "proc f(a, a) { } init stack 16 { local r; SET_PARTITION_MODE(3) -> r; } " ∷
        codes "var p; init stack 16 { local r; SET_PARTITION_MODE(3) -> r; } process p priority 5 period -1 capacity -1 stack 16 { }" ∷
        codes "init stack 16 { local r; r := f(); r[0] := 1; x := 1; }" ∷
        codes "init stack 16 { local r; START(q) -> r; work 0; }" ∷
        []) ≡ replicate 8 3 }
    ensures by_kind { map (refusal_number (plain_partition (codes "a") 128 128)) (
        codes "array m[2]; init stack 16 { local r; r := m; }" ∷
        codes "var x; init stack 16 { local r; r := x[0]; }" ∷
        codes "init stack 16 { local r; GET_TIME() -> r; }" ∷
        codes "init stack 16 { local r; STOP_SELF() -> r; }" ∷
        codes "init stack 16 { return 1; }" ∷
        codes "proc f(a) { } init stack 16 { local r; r := f(); }" ∷
        codes "init stack 16 { local r; SET_PARTITION_MODE(3) -> r; } process p priority 5 period -1 capacity -1 stack 16 { local r; START((p)) -> r; }" ∷
        codes "event e; init stack 16 { local r; local i; CREATE_BUFFER(e) -> r, i; }" ∷
        codes "array m[2]; init stack 16 { local r; REPORT_APPLICATION_MESSAGE((m), 1) -> r; work 0; }" ∷
        codes "init stack 16 { local r; SET_PARTITION_MODE(3, 3) -> r; }" ∷
        []) ≡ replicate 10 4 }
    ensures by_limit { map (refusal_number (plain_partition (codes "a") 128 128)) (
        codes "var x = -9223372036854775808; init stack 16 { local r; SET_PARTITION_MODE(3) -> r; } " ∷
        codes "init stack 15 { }" ∷
        codes "init stack 4097 { }" ∷
        codes "init stack 16 { work 0; }" ∷
        codes "init stack 16 { work 1000001; }" ∷
        codes "init stack 16 { local r; SET_PARTITION_MODE(3) -> r; } process p priority 0 period -1 capacity -1 stack 16 { }" ∷
        codes "init stack 16 { local r; SET_PARTITION_MODE(3) -> r; } process p priority 240 period -1 capacity -1 stack 16 { }" ∷
        codes "init stack 16 { local r; SET_PARTITION_MODE(3) -> r; } process p priority 5 period 0 capacity -1 stack 16 { }" ∷
        codes "init stack 16 { local r; SET_PARTITION_MODE(3) -> r; } process p priority 5 period -2 capacity -1 stack 16 { }" ∷
        codes "init stack 16 { local r; SET_PARTITION_MODE(3) -> r; } process p priority 5 period -1 capacity 1099511627777 stack 16 { }" ∷
        codes "array m[1] = 1 2; init stack 16 { local r; SET_PARTITION_MODE(3) -> r; } " ∷
        codes "array m[65537]; init stack 16 { local r; SET_PARTITION_MODE(3) -> r; } " ∷
        codes "var abcdefghijklmnopqrstuvwxyzabcde; init stack 16 { local r; SET_PARTITION_MODE(3) -> r; } " ∷
        codes "semaphore s 2 1 fifo; init stack 16 { local r; SET_PARTITION_MODE(3) -> r; } " ∷
        codes "semaphore s 0 0 fifo; init stack 16 { local r; SET_PARTITION_MODE(3) -> r; } " ∷
        codes "buffer b 65 1 fifo; init stack 16 { local r; SET_PARTITION_MODE(3) -> r; } " ∷
        codes "blackboard b 0; init stack 16 { local r; SET_PARTITION_MODE(3) -> r; } " ∷
        codes "init stack 16 { local a0; local a1; local a2; local a3; local a4; local a5; local a6; local a7; local a8; local a9; local a10; local a11; local a12; local a13; local a14; }" ∷
        codes "proc f(a, b, c, d, e, g, h, i, j) { } init stack 16 { local r; SET_PARTITION_MODE(3) -> r; } " ∷
        codes "event e0; event e1; event e2; event e3; event e4; event e5; event e6; event e7; event e8; event e9; event e10; event e11; event e12; event e13; event e14; event e15; event e16; init stack 16 { local r; SET_PARTITION_MODE(3) -> r; } " ∷
        []) ≡ replicate 20 5 }
    ensures by_period { map (refusal_number (plain_partition (codes "a") 128 128)) (
        codes "init stack 16 { local r; SET_PARTITION_MODE(3) -> r; } process p priority 5 period 100 capacity -1 stack 16 { }" ∷
        codes "init stack 16 { local r; SET_PARTITION_MODE(3) -> r; } process p priority 5 period 192 capacity -1 stack 16 { }" ∷
        []) ≡ replicate 2 6 }
{}
