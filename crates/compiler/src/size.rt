//! The number of instructions of a program's parts. For single parts, a number that does not fit 32
//! bits is the greatest number that does; an accepted program fits.

ghost use Rattle.std.specs.Prelude.{◌≡◌, ◌+◌, min, map};
ghost use Rattle.std.specs.List.{sum_by};
ghost use Rattle.std.specs.Option.{option_map};
ghost use Rattle.pal_meaning.specs.Program as cost;
ghost use Rattle.pal_base.specs.ProgramView.{block_of, body_of, procedure_of, process_of, program_of};

use pal_base::checked::Checked;
use pal_base::program::{Body, Procedure, Process, Program, Stmt};
use pal_base::sizes;

/// A size as 32 bits hold it.
fn held(size: u64) -> u32
    ensures { result ≡ min size u32.MAX }
{
    u32::try_from(size).unwrap_or(u32::MAX)
}

/// The instructions of a block.
pub fn size_of_block(block: &[Stmt]) -> u32
    ensures { result ≡ min (cost.size_of_block (block_of block.now)) u32.MAX }
{
    held(sizes::size_of_block(block))
}

/// The instructions of the body of INIT, of the handler or of a process.
fn size_of_body(body: &Body) -> u32
    ensures { result ≡ min (cost.size_of_body (body_of body.now)) u32.MAX }
{
    held(sizes::size_of_body(body))
}

fn size_of_handler(handler: &Option<Body>) -> u32
    ensures { result ≡ min (cost.size_of_handler (option_map body_of handler.now)) u32.MAX }
{
    match handler {
        None => 0,
        Some(body) => size_of_body(body),
    }
}

fn size_of_processes(processes: &[Process]) -> u32
    ensures { result ≡ min (sum_by cost.size_of_process (map process_of processes.now)) u32.MAX }
{
    let mut size: u32 = 0;
    for process in processes {
        size = size.saturating_add(size_of_body(&process.body));
    }
    size
}

/// The instructions of a procedure.
fn size_of_procedure(procedure: &Procedure) -> u32
    ensures { result ≡ min (cost.size_of_procedure (procedure_of procedure.now)) u32.MAX }
{
    held(sizes::size_of_procedure(procedure))
}

fn size_of_procedures(procedures: &[Procedure]) -> u32
    ensures { result
        ≡ min (sum_by cost.size_of_procedure (map procedure_of procedures.now)) u32.MAX }
{
    let mut size: u32 = 0;
    for procedure in procedures {
        size = size.saturating_add(size_of_procedure(procedure));
    }
    size
}

/// The number of instructions of a program, as 32 bits hold it.
fn counted(program: &Program) -> u32
    ensures { result ≡ min (cost.size_of (program_of program.now)) u32.MAX }
{
    size_of_body(&program.init)
        .saturating_add(size_of_handler(&program.handler))
        .saturating_add(size_of_processes(&program.processes))
        .saturating_add(size_of_procedures(&program.procedures))
}

/// The number of instructions of a program.
#[tactic(auto, using(crate::proofs::Accepted::counted_all))]
pub fn size_of_program(checked: &Checked) -> u32
    ensures { result ≡ cost.size_of (program_of checked.now.program) }
{
    counted(&checked.program)
}
