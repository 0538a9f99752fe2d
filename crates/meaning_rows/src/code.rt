//! Literal code, also code that no source compiles to: the tick of its error, if it has one.

ghost use Rattle.std.specs.Prelude.{◌≡◌, ◌∷◌, [], Some, None, pos, negsuc, map};
ghost use Rattle.apex_types.specs.declared.codes.ErrorKind.TheVariants.{IllegalRequest, MemoryViolation, NumericError, StackOverflow};
ghost use Rattle.meaning_rows.specs.Rows.{coded, error_of_code};

/// Each error comes in the last tick of its instruction.
fn instructions_fail()
    ensures words { map (error_of_code []) (
        (coded 99 0 (pos 0) ∷ []) ∷
        (coded 0 0 (pos 0) ∷ []) ∷
        (coded 32 0 (pos 0) ∷ []) ∷
        (coded 1 1 (pos 3) ∷ []) ∷
        (coded 2 0 (pos 1) ∷ []) ∷
        (coded 8 1 (pos 0) ∷ []) ∷
        (coded 27 1 (pos 5) ∷ []) ∷
        (coded 28 5 (pos 1) ∷ []) ∷
        (coded 29 0 (pos 1) ∷ []) ∷
        (coded 31 1 (pos 1) ∷ []) ∷
        (coded 1 0 (pos 3) ∷ coded 29 0 (pos 0) ∷ []) ∷
        []) ≡ Some (0, IllegalRequest) ∷ Some (0, IllegalRequest) ∷ Some (0, IllegalRequest) ∷ Some (0, IllegalRequest) ∷ Some (0, IllegalRequest) ∷ Some (0, IllegalRequest) ∷ Some (0, IllegalRequest) ∷ Some (0, IllegalRequest) ∷ Some (0, IllegalRequest) ∷ Some (0, IllegalRequest) ∷ None ∷ [] }
    ensures operands { map (error_of_code []) (
        (coded 8 0 (pos 0) ∷ coded 8 0 (pos 0) ∷ []) ∷
        (coded 3 0 (pos 0) ∷ coded 3 0 (pos 0) ∷ coded 3 9 (pos 0) ∷ []) ∷
        (coded 13 0 (pos 0) ∷ coded 29 0 (pos 0) ∷ []) ∷
        (coded 3 0 (pos 0) ∷ coded 3 0 (pos 0) ∷ coded 6 9 (pos 9) ∷ []) ∷
        (coded 3 0 (pos 0) ∷ coded 7 0 (pos 4) ∷ []) ∷
        (coded 3 0 (pos 0) ∷ coded 3 0 (pos 0) ∷ coded 24 0 (pos 0) ∷ []) ∷
        (coded 3 0 (pos 0) ∷ coded 3 0 (pos 0) ∷ coded 26 0 (pos 0) ∷ []) ∷
        (coded 28 22 (pos 0) ∷ []) ∷
        (coded 3 0 (pos 0) ∷ coded 31 1 (pos 0) ∷ []) ∷
        []) ≡ Some (1, IllegalRequest) ∷ Some (2, IllegalRequest) ∷ None ∷ Some (3, IllegalRequest) ∷ Some (2, IllegalRequest) ∷ Some (2, IllegalRequest) ∷ Some (3, IllegalRequest) ∷ Some (5, IllegalRequest) ∷ Some (2, IllegalRequest) ∷ [] }
    ensures addresses { map (error_of_code []) (
        (coded 2 4 (pos 0) ∷ []) ∷
        (coded 3 4 (pos 0) ∷ []) ∷
        (coded 4 16 (pos 0) ∷ []) ∷
        (coded 5 16 (pos 0) ∷ []) ∷
        (coded 2 3 (pos 0) ∷ coded 5 15 (pos 0) ∷ coded 29 0 (pos 0) ∷ []) ∷
        (coded 1 0 (pos 4) ∷ coded 6 0 (pos 4) ∷ []) ∷
        (coded 1 0 (pos 0) ∷ coded 6 2 (pos 3) ∷ []) ∷
        (coded 1 0 (negsuc 0) ∷ coded 6 0 (pos 4) ∷ []) ∷
        (coded 1 0 (pos 0) ∷ coded 6 0 (negsuc 0) ∷ []) ∷
        (coded 1 0 (pos 3) ∷ coded 6 0 (pos 4) ∷ coded 29 0 (pos 0) ∷ []) ∷
        (coded 1 0 (pos 2) ∷ coded 1 0 (pos 0) ∷ coded 7 3 (pos 2) ∷ []) ∷
        (coded 1 0 (pos 0) ∷ coded 1 0 (pos 5) ∷ coded 1 0 (pos 1) ∷ coded 28 54 (pos 0) ∷ []) ∷
        (coded 1 0 (pos 5) ∷ coded 1 0 (pos 1) ∷ coded 1 0 (pos 1) ∷ coded 28 54 (pos 0) ∷ []) ∷
        (coded 1 0 (negsuc 0) ∷ coded 1 0 (pos 1) ∷ coded 1 0 (pos 1) ∷ coded 28 54 (pos 0) ∷ []) ∷
        []) ≡ Some (0, MemoryViolation) ∷ Some (0, MemoryViolation) ∷ Some (0, MemoryViolation) ∷ Some (0, MemoryViolation) ∷ None ∷ Some (2, MemoryViolation) ∷ Some (2, MemoryViolation) ∷ Some (2, MemoryViolation) ∷ Some (2, MemoryViolation) ∷ None ∷ Some (3, MemoryViolation) ∷ Some (8, MemoryViolation) ∷ Some (8, MemoryViolation) ∷ Some (8, MemoryViolation) ∷ [] }
    ensures regions { map (error_of_code []) (
        (coded 30 3 (pos 0) ∷ []) ∷
        (coded 31 3 (pos 0) ∷ []) ∷
        (coded 30 0 (pos 0) ∷ []) ∷
        (coded 31 0 (pos 0) ∷ []) ∷
        (coded 1 0 (pos 4) ∷ coded 30 1 (pos 0) ∷ []) ∷
        (coded 1 0 (pos 3) ∷ coded 30 1 (pos 0) ∷ coded 29 0 (pos 0) ∷ []) ∷
        (coded 1 0 (pos 16) ∷ coded 30 2 (pos 0) ∷ []) ∷
        (coded 1 0 (pos 15) ∷ coded 30 2 (pos 0) ∷ coded 29 0 (pos 0) ∷ []) ∷
        (coded 1 0 (pos 4) ∷ coded 1 0 (pos 0) ∷ coded 31 1 (pos 0) ∷ []) ∷
        (coded 1 0 (pos 16) ∷ coded 1 0 (pos 0) ∷ coded 31 2 (pos 0) ∷ []) ∷
        (coded 1 0 (negsuc 0) ∷ coded 30 1 (pos 0) ∷ []) ∷
        []) ≡ Some (1, IllegalRequest) ∷ Some (1, IllegalRequest) ∷ Some (1, MemoryViolation) ∷ Some (1, MemoryViolation) ∷ Some (2, MemoryViolation) ∷ None ∷ Some (2, MemoryViolation) ∷ None ∷ Some (3, MemoryViolation) ∷ Some (3, MemoryViolation) ∷ Some (2, MemoryViolation) ∷ [] }
    ensures numbers { map (error_of_code []) (
        (coded 1 0 (pos 1) ∷ coded 1 0 (pos 0) ∷ coded 11 0 (pos 0) ∷ []) ∷
        (coded 1 0 (pos 1) ∷ coded 1 0 (pos 0) ∷ coded 12 0 (pos 0) ∷ []) ∷
        (coded 1 0 (negsuc 9223372036854775807) ∷ coded 13 0 (pos 0) ∷ []) ∷
        (coded 1 0 (negsuc 9223372036854775807) ∷ coded 1 0 (negsuc 0) ∷ coded 11 0 (pos 0) ∷ []) ∷
        (coded 1 0 (negsuc 9223372036854775807) ∷ coded 1 0 (negsuc 0) ∷ coded 12 0 (pos 0) ∷ coded 29 0 (pos 0) ∷ []) ∷
        (coded 1 0 (pos 9223372036854775807) ∷ coded 1 0 (pos 1) ∷ coded 8 0 (pos 0) ∷ []) ∷
        (coded 1 0 (negsuc 9223372036854775807) ∷ coded 1 0 (pos 1) ∷ coded 9 0 (pos 0) ∷ []) ∷
        (coded 1 0 (pos 4611686018427387904) ∷ coded 1 0 (pos 2) ∷ coded 10 0 (pos 0) ∷ []) ∷
        (coded 1 0 (pos 4611686018427387904) ∷ coded 1 0 (negsuc 1) ∷ coded 10 0 (pos 0) ∷ coded 29 0 (pos 0) ∷ []) ∷
        []) ≡ Some (5, NumericError) ∷ Some (5, NumericError) ∷ Some (1, NumericError) ∷ Some (5, NumericError) ∷ None ∷ Some (2, NumericError) ∷ Some (2, NumericError) ∷ Some (3, NumericError) ∷ None ∷ [] }
    ensures room { map (error_of_code []) (
        (coded 1 0 (pos 1) ∷ coded 1 0 (pos 1) ∷ coded 1 0 (pos 1) ∷ coded 1 0 (pos 1) ∷ coded 1 0 (pos 1) ∷ coded 1 0 (pos 1) ∷ coded 1 0 (pos 1) ∷ coded 1 0 (pos 1) ∷ coded 1 0 (pos 1) ∷ coded 1 0 (pos 1) ∷ coded 1 0 (pos 1) ∷ coded 1 0 (pos 1) ∷ coded 1 0 (pos 1) ∷ coded 1 0 (pos 1) ∷ coded 1 0 (pos 1) ∷ []) ∷
        (coded 1 0 (pos 1) ∷ coded 1 0 (pos 1) ∷ coded 1 0 (pos 1) ∷ coded 1 0 (pos 1) ∷ coded 1 0 (pos 1) ∷ coded 1 0 (pos 1) ∷ coded 1 0 (pos 1) ∷ coded 1 0 (pos 1) ∷ coded 1 0 (pos 1) ∷ coded 1 0 (pos 1) ∷ coded 1 0 (pos 1) ∷ coded 1 0 (pos 1) ∷ coded 1 0 (pos 1) ∷ coded 1 0 (pos 1) ∷ coded 4 16 (pos 0) ∷ []) ∷
        (coded 1 0 (pos 1) ∷ coded 1 0 (pos 1) ∷ coded 1 0 (pos 1) ∷ coded 1 0 (pos 1) ∷ coded 1 0 (pos 1) ∷ coded 1 0 (pos 1) ∷ coded 1 0 (pos 1) ∷ coded 1 0 (pos 1) ∷ coded 1 0 (pos 1) ∷ coded 1 0 (pos 1) ∷ coded 1 0 (pos 1) ∷ coded 1 0 (pos 1) ∷ coded 1 0 (pos 1) ∷ coded 1 0 (pos 1) ∷ coded 4 0 (pos 0) ∷ []) ∷
        (coded 1 0 (pos 1) ∷ coded 1 0 (pos 1) ∷ coded 1 0 (pos 1) ∷ coded 1 0 (pos 1) ∷ coded 1 0 (pos 1) ∷ coded 1 0 (pos 1) ∷ coded 1 0 (pos 1) ∷ coded 1 0 (pos 1) ∷ coded 1 0 (pos 1) ∷ coded 1 0 (pos 1) ∷ coded 1 0 (pos 1) ∷ coded 1 0 (pos 1) ∷ coded 1 0 (pos 1) ∷ coded 1 0 (pos 1) ∷ coded 2 0 (pos 0) ∷ []) ∷
        (coded 1 0 (pos 1) ∷ coded 1 0 (pos 1) ∷ coded 1 0 (pos 1) ∷ coded 1 0 (pos 1) ∷ coded 1 0 (pos 1) ∷ coded 1 0 (pos 1) ∷ coded 1 0 (pos 1) ∷ coded 1 0 (pos 1) ∷ coded 1 0 (pos 1) ∷ coded 1 0 (pos 1) ∷ coded 1 0 (pos 1) ∷ coded 1 0 (pos 1) ∷ coded 1 0 (pos 1) ∷ coded 28 19 (pos 0) ∷ []) ∷
        (coded 1 0 (pos 1) ∷ coded 1 0 (pos 1) ∷ coded 1 0 (pos 1) ∷ coded 1 0 (pos 1) ∷ coded 1 0 (pos 1) ∷ coded 1 0 (pos 1) ∷ coded 1 0 (pos 1) ∷ coded 1 0 (pos 1) ∷ coded 1 0 (pos 1) ∷ coded 1 0 (pos 1) ∷ coded 1 0 (pos 1) ∷ coded 1 0 (pos 1) ∷ coded 28 19 (pos 0) ∷ coded 5 0 (pos 0) ∷ coded 5 0 (pos 0) ∷ coded 29 0 (pos 0) ∷ []) ∷
        []) ≡ Some (14, StackOverflow) ∷ Some (14, MemoryViolation) ∷ Some (14, StackOverflow) ∷ Some (14, StackOverflow) ∷ Some (16, StackOverflow) ∷ None ∷ [] }
    ensures jumps { map (error_of_code []) (
        (coded 23 1 (pos 0) ∷ []) ∷
        (coded 24 5 (pos 0) ∷ []) ∷
        (coded 1 0 (pos 1) ∷ coded 24 5 (pos 0) ∷ coded 29 0 (pos 0) ∷ []) ∷
        (coded 26 0 (pos 0) ∷ []) ∷
        (coded 26 15 (pos 0) ∷ []) ∷
        (coded 1 0 (negsuc 0) ∷ coded 1 0 (pos 0) ∷ coded 1 0 (pos 7) ∷ coded 26 2 (pos 0) ∷ []) ∷
        (coded 1 0 (pos 65537) ∷ coded 1 0 (pos 0) ∷ coded 1 0 (pos 7) ∷ coded 26 2 (pos 0) ∷ []) ∷
        (coded 1 0 (pos 65536) ∷ coded 1 0 (pos 0) ∷ coded 1 0 (pos 7) ∷ coded 26 2 (pos 0) ∷ []) ∷
        (coded 1 0 (pos 0) ∷ coded 1 0 (pos 1) ∷ coded 1 0 (pos 7) ∷ coded 26 2 (pos 0) ∷ []) ∷
        (coded 1 0 (pos 0) ∷ coded 1 0 (negsuc 0) ∷ coded 1 0 (pos 7) ∷ coded 26 2 (pos 0) ∷ []) ∷
        (coded 27 0 (pos 0) ∷ []) ∷
        (coded 27 0 (negsuc 0) ∷ []) ∷
        (coded 27 0 (pos 1000001) ∷ []) ∷
        (coded 27 0 (pos 7) ∷ coded 2 4 (pos 0) ∷ []) ∷
        (coded 28 0 (pos 0) ∷ []) ∷
        (coded 28 58 (pos 0) ∷ []) ∷
        (coded 25 0 (pos 0) ∷ []) ∷
        []) ≡ Some (1, MemoryViolation) ∷ Some (1, MemoryViolation) ∷ None ∷ None ∷ Some (1, MemoryViolation) ∷ Some (4, MemoryViolation) ∷ Some (4, MemoryViolation) ∷ Some (5, MemoryViolation) ∷ Some (4, MemoryViolation) ∷ Some (4, MemoryViolation) ∷ Some (0, IllegalRequest) ∷ Some (0, IllegalRequest) ∷ Some (0, IllegalRequest) ∷ Some (7, MemoryViolation) ∷ Some (0, IllegalRequest) ∷ Some (0, IllegalRequest) ∷ Some (2, IllegalRequest) ∷ [] }
{}

/// A call needs its routine, its parameters and its frame.
fn calls_fail()
    ensures too_few_parameters { map (error_of_code (record { entry = 1; parameters = 3; slots = 3; frame = 5 } ∷ [])) (
        (coded 25 0 (pos 0) ∷ coded 1 0 (pos 0) ∷ coded 26 0 (pos 0) ∷ []) ∷
        []) ≡ Some (2, IllegalRequest) ∷ [] }
    ensures too_little_room { map (error_of_code (record { entry = 1; parameters = 0; slots = 0; frame = 15 } ∷ [])) (
        (coded 25 0 (pos 0) ∷ coded 1 0 (pos 0) ∷ coded 26 0 (pos 0) ∷ []) ∷
        []) ≡ Some (2, StackOverflow) ∷ [] }
    ensures exact_room { map (error_of_code (record { entry = 2; parameters = 0; slots = 0; frame = 14 } ∷ [])) (
        (coded 25 0 (pos 0) ∷ coded 29 0 (pos 0) ∷ coded 1 0 (pos 0) ∷ coded 26 0 (pos 0) ∷ []) ∷
        (coded 25 0 (pos 0) ∷ coded 2 4 (pos 0) ∷ coded 1 0 (pos 9) ∷ coded 26 0 (pos 0) ∷ []) ∷
        (coded 25 1 (pos 0) ∷ coded 29 0 (pos 0) ∷ []) ∷
        []) ≡ None ∷ Some (6, MemoryViolation) ∷ Some (2, IllegalRequest) ∷ [] }
    ensures one_parameter { map (error_of_code (record { entry = 2; parameters = 1; slots = 1; frame = 12 } ∷ [])) (
        (coded 25 0 (pos 0) ∷ coded 29 0 (pos 0) ∷ coded 4 0 (pos 0) ∷ coded 26 1 (pos 0) ∷ []) ∷
        []) ≡ None ∷ [] }
{}
