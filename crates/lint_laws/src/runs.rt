//! What a program never asks for, and every run of it.

ghost use Rattle.std.specs.Prelude.{◌≡◌, ℕ, List, Some};
ghost use Rattle.apex_types.specs.declared.device.DeviceLine.{DeviceLine};
ghost use Rattle.module_meaning.specs.Accepted.{IsJudged};
ghost use Rattle.module_meaning.specs.SourceMeaning.{source_trace};
ghost use Rattle.module_meaning.specs.Table.{Partition, Table, at_number};
ghost use Rattle.pal_meaning.specs.Program.{Program};
ghost use Rattle.lint_laws.specs.Creation.{IsProcess, NeverCreates, NeverHasState};
ghost use Rattle.lint_laws.specs.NormalMode.{NeverNormal, NeverSetsNormal};

/// If no call in INIT or in a procedure of a program sets the mode NORMAL, its partition never
/// enters it: no line of any run says `MODE NORMAL` of this partition, whatever the devices send.
pub fn normal_is_asked_for()
    ensures { (t : Table) (programs : List Program) (devices : List DeviceLine) (n p : ℕ)
        (row : Partition) (program : Program)
        → IsJudged t
        → at_number t.partitions p ≡ Some row
        → at_number programs p ≡ Some program
        → NeverSetsNormal program
        → NeverNormal row.name (source_trace t programs devices n) }
{}

/// If no call in a program creates one of its processes, this process never has a state: no line of
/// any run says one, whatever the devices send.
pub fn states_are_of_created_processes()
    ensures { (t : Table) (programs : List Program) (devices : List DeviceLine) (n p number : ℕ)
        (row : Partition) (program : Program) (name : List ℕ)
        → IsJudged t
        → at_number t.partitions p ≡ Some row
        → at_number programs p ≡ Some program
        → IsProcess number name program
        → NeverCreates number program
        → NeverHasState row.name name (source_trace t programs devices n) }
{}
