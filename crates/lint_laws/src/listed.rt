//! What is found in an accepted source, and every run of it.
//!
//! Where it is found that nothing starts a process, there is no such law. A procedure may write the
//! variable that START takes, and lint does not look into procedures for that.

ghost use Rattle.std.specs.Prelude.{◌≡◌, ℕ, List, Some, []};
ghost use Rattle.apex_types.specs.declared.device.DeviceLine.{DeviceLine};
ghost use Rattle.module_meaning.specs.Accepted.{IsModule};
ghost use Rattle.module_meaning.specs.SourceMeaning.{source_trace};
ghost use Rattle.module_meaning.specs.Table.{Partition, Table, at_number};
ghost use Rattle.pal_meaning.specs.Grammar.{IsProgramOf};
ghost use Rattle.pal_meaning.specs.Program.{Program};
ghost use Rattle.pal_meaning.specs.Syntax as written;
ghost use Rattle.lint.specs.Findings.{findings};
ghost use Rattle.lint.specs.Lives.{found};
ghost use Rattle.lint.specs.declared.finding.FindingKind.TheVariants as finding;
ghost use Rattle.lint_laws.specs.Among.{IsListed};
ghost use Rattle.lint_laws.specs.Creation.{NeverHasState};
ghost use Rattle.lint_laws.specs.NormalMode.{NeverNormal};

/// Where it is found in an accepted source that INIT does not enter NORMAL, its partition never
/// enters it: no line of any run says `MODE NORMAL` of this partition, whatever the devices send.
pub fn partition_never_enters_normal()
    ensures { (table : List ℕ) (sources : List (List ℕ)) (t : Table) (programs : List Program)
        (devices : List DeviceLine) (n p : ℕ) (row : Partition) (source : List ℕ)
        (tree : written.Program)
        → IsModule table sources t programs
        → at_number t.partitions p ≡ Some row
        → at_number sources p ≡ Some source
        → IsProgramOf source tree
        → IsListed (found finding.NeverNormal []) (findings t.partitions row.ports tree)
        → NeverNormal row.name (source_trace t programs devices n) }
{}

/// Where it is found in an accepted source that nothing creates a process, this process never has a
/// state, not even DORMANT: no line of any run says one, whatever the devices send.
pub fn process_never_has_a_state()
    ensures { (table : List ℕ) (sources : List (List ℕ)) (t : Table) (programs : List Program)
        (devices : List DeviceLine) (n p number : ℕ) (row : Partition) (source : List ℕ)
        (tree : written.Program) (process : written.Process)
        → IsModule table sources t programs
        → at_number t.partitions p ≡ Some row
        → at_number sources p ≡ Some source
        → IsProgramOf source tree
        → at_number tree.processes number ≡ Some process
        → IsListed (found finding.NeverCreated process.name)
        (findings t.partitions row.ports tree)
        → NeverHasState row.name process.name (source_trace t programs devices n) }
{}
