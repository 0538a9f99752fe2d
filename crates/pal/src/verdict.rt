//! The verdict on a program.

ghost use Rattle.std.specs.Prelude.{◌≡◌, is_ok, IfErr, IfOk};
ghost use Rattle.pal_meaning.specs.WellFormed as well_formed;
ghost use Rattle.pal_base.specs.WrittenView.{program_of};
ghost use Rattle.pal.specs.ProcedureNames.{names_of_procedures, procedure_names};
ghost use Rattle.pal.specs.Tables.{entries_of};
ghost use Rattle.pal.specs.Verdicts.{Answers, AnswersWith, verdict_among};

use crate::kinds::check_kinds;
use crate::limits::check_limits;
use crate::lines::{Check, Line, earliest};
use crate::meanings::declared_names;
use crate::names::check_names;
use crate::periods::check_periods;
use crate::resolving::resolve;
use crate::table::NameTable;
use pal_base::checked::Checked;
use pal_base::fault::{PalFault, Refusal};
use pal_base::program;
use pal_base::syntax::Program;
use std::alloc::Global;
use window_table::PartitionRow;

/// The program with its names resolved, if it is well formed for a partition. Otherwise the refusal
/// with the lowest number, and the first line that breaks this rule. The procedures are in the
/// order of their declarations, and keep their names.
pub fn check(alloc: Global, program: Program, row: &PartitionRow) -> Result<Checked, PalFault>
    ensures verdict { Answers result
        (well_formed.verdict row.now.ports.items row.now.period (program_of program)) }
    ensures named { IfOk result
        (λ checked. names_of_procedures checked.program.procedures.items
        ≡ procedure_names (program_of program).declarations) }
{
    let resolved = judged(alloc, &program, row)?;
    Ok(Checked { program: resolved })
}

/// As [`check`], but keeps the program.
fn judged(
    alloc: Global,
    program: &Program,
    row: &PartitionRow,
) -> Result<program::Program, PalFault>
    ensures verdict { AnswersWith result
        (well_formed.verdict row.now.ports.items row.now.period (program_of program.now)) }
    ensures named { IfOk result
        (λ resolved. names_of_procedures resolved.procedures.items
        ≡ procedure_names (program_of program.now).declarations) }
{
    let declared = declared_names(alloc, program, &row.ports)?;
    let names = check_names(alloc, &declared.table, program)?;
    refused_by(Refusal::Name, earliest(declared.fresh, names))?;
    well_formed(alloc, &declared.table, program, row.period)
}

/// As [`check`], of a program whose names hold, over the table of its declared names.
fn well_formed(
    alloc: Global,
    declared: &NameTable,
    program: &Program,
    period: u32,
) -> Result<program::Program, PalFault>
    ensures verdict { AnswersWith result
        (verdict_among (entries_of declared.now) period (program_of program.now)) }
    ensures named { IfOk result
        (λ resolved. names_of_procedures resolved.procedures.items
        ≡ procedure_names (program_of program.now).declarations) }
{
    let kinds = check_kinds(alloc, declared, program)?;
    refused_by(Refusal::Kind, kinds)?;
    let limits = check_limits(alloc, declared, program)?;
    refused_by(Refusal::Limit, limits)?;
    let periods = check_periods(&program.processes, period);
    refused_by(Refusal::Period, periods)?;
    Ok(resolve(alloc, declared, program)?)
}

/// The result of a check, and for which rule it refuses.
fn refused_by(refusal: Refusal, checked: Check) -> Result<(), PalFault>
    ensures holds { is_ok result ≡ is_ok checked }
    ensures refusal { IfErr result (λ fault. fault.refusal ≡ refusal) }
{
    match checked {
        Ok(()) => Ok(()),
        Err(Line(line)) => Err(PalFault { refusal, line }),
    }
}
