//! Programs that the checker accepts are fit for the compiler and for an image.

ghost use Rattle.std.specs.Prelude.{◌≡◌, ℕ, ◌*◌, ◌≤◌, List, length, Ok, Some, All, FitsSigned};
ghost use Rattle.std.specs.Int.{w64};
ghost use Rattle.apex_types.specs.Versions.{third_limits};
ghost use Rattle.apex_types.specs.declared.cost.Costs.{Costs};
ghost use Rattle.apex_types.specs.Limits.{MOST_INSTRUCTIONS, MOST_PORTS, MOST_SOURCE_BYTES};
ghost use Rattle.apex_types.specs.declared.row.PortRow.{PortRow};
ghost use Rattle.pal_meaning.specs.Syntax as written;
ghost use Rattle.pal_meaning.specs.Program as program;
ghost use Rattle.pal_meaning.specs.WellFormed.{verdict};
ghost use Rattle.compiling_laws.specs.Bounds.{AreCostsHeld};
ghost use Rattle.compiling_laws.specs.Fits.{Fits};
ghost use Rattle.compiling_laws.specs.Resolved.{resolved};
ghost use Rattle.pal_meaning.specs.Grammar.{IsWritten};
ghost use Rattle.pal_meaning.specs.Grammar.{words_of};
ghost use Rattle.pal_meaning.specs.Program.{size_of};
ghost use Rattle.compiling_laws.specs.CompiledCode.{section_of};
ghost use Rattle.machine_meaning.specs.ImageLimits.{IsSection};

/// An accepted program keeps the bounds on which its compiled code depends, if that code is not too
/// long.
pub fn accepted_program_fits()
    ensures { (ports : List PortRow) (period : ℕ) (p : written.Program) (r : program.Program)
        → verdict ports period p ≡ Ok r → size_of r ≤ MOST_INSTRUCTIONS → Fits r }
{}

/// An accepted program has at most twice as many constructs as its text has bytes. If that text may
/// be a source, the sizes, costs and frames of its bodies have 64 bits, for all costs of
/// constructs.
pub fn accepted_program_is_short()
    ensures size { (ports : List PortRow) (period : ℕ) (text : List ℕ) (p : written.Program)
        (r : program.Program)
        → IsWritten (words_of text) p → verdict ports period p ≡ Ok r
        → size_of r ≤ 2 * length text }
    ensures costs { (costs : Costs) (ports : List PortRow) (period : ℕ) (text : List ℕ)
        (p : written.Program) (r : program.Program) → IsWritten (words_of text) p
        → length text ≤ MOST_SOURCE_BYTES → verdict ports period p ≡ Ok r → AreCostsHeld costs r }
{}

/// An accepted program with words as its data becomes a section that an image may have, in a
/// partition of that period.
pub fn accepted_section_is_lawful()
    ensures { (ports : List PortRow) (period : ℕ) (p : written.Program) (r : program.Program)
        → verdict ports period p ≡ Ok r → size_of r ≤ MOST_INSTRUCTIONS
        → All (FitsSigned w64) r.initial → IsSection third_limits period (section_of r) }
{}

/// An accepted program is resolved as `Resolved` says, without limits. So none of the cases is met
/// in which `Resolve` gives 0 for what is wrong, or stops counting. The 0 that stays is the number
/// of a port that the partition lacks. The partition has as many ports as a table may give it.
pub fn accepted_program_resolves_exactly()
    ensures { (ports : List PortRow) (period : ℕ) (p : written.Program) (r : program.Program)
        → length ports ≤ MOST_PORTS → verdict ports period p ≡ Ok r
        → resolved ports p ≡ Some r }
{}
