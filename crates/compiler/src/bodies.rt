//! The instructions of bodies, one body after the other, and their rows.

ghost use Rattle.std.specs.Prelude.{◌≡◌, ◌+◌, ◌≤◌, [], ◌∷◌, ◌++◌, length, map, option_map, OnOk, IfOk};
ghost use Rattle.std.specs.List.{sum_by};
ghost use Rattle.apex_types.specs.Limits.{MOST_INSTRUCTIONS};
ghost use Rattle.pal_meaning.specs.Program as cost;
ghost use Rattle.compiling_laws.specs.CompiledCode as code_of;
ghost use Rattle.pal_base.specs.ProgramView.{body_of, procedure_of, process_of};

use crate::emit::{emit_block, put};
use apex_types::{BodyRow, Instr, ProcessRow, RoutineRow};
use pal_base::frames::{frame_of_body, frame_of_procedure};
use pal_base::program::{Body, Procedure, Process};
use std::alloc::{AllocError, Global};

/// The body of INIT, of the handler or of a process, closed with END, and its row.
pub fn emit_body(code: &mut Vec<Instr>, body: &Body) -> Result<BodyRow, AllocError>
    requires { length code.old.items + cost.size_of_body (body_of body.now) ≤ MOST_INSTRUCTIONS }
    ensures code { OnOk result
        (code.new.items
        ≡ code.old.items ++ code_of.body_code (length code.old.items) (body_of body.now)) }
    ensures row { IfOk result
        (λ row. row ≡ code_of.body_row (length code.old.items) (body_of body.now)) }
{
    let entry = code.len() as u32;
    let slots = u16::from(body.locals);
    emit_block(code, slots, &body.block)?;
    put(code, Instr::End)?;
    let frame = frame_of_body(body) as u32;
    Ok(BodyRow {
        stack: body.stack,
        entry,
        slots,
        frame,
    })
}

/// The body of the handler, if the program has a handler.
pub fn emit_handler(
    code: &mut Vec<Instr>,
    handler: &Option<Body>,
) -> Result<Option<BodyRow>, AllocError>
    requires { length code.old.items + cost.size_of_handler (option_map body_of handler.now)
        ≤ MOST_INSTRUCTIONS }
    ensures code { OnOk result
        (code.new.items
        ≡ code.old.items
        ++ code_of.handler_code (length code.old.items) (option_map body_of handler.now)) }
    ensures row { IfOk result
        (λ row. row
        ≡ option_map (code_of.body_row (length code.old.items)) (option_map body_of handler.now)) }
{
    match handler {
        None => Ok(None),
        Some(body) => Ok(Some(emit_body(code, body)?)),
    }
}

/// The bodies of the processes, with the processes' rows.
pub fn emit_processes(
    alloc: Global,
    code: &mut Vec<Instr>,
    processes: &[Process],
) -> Result<Vec<ProcessRow>, AllocError>
    requires { length code.old.items + sum_by cost.size_of_process (map process_of processes.now)
        ≤ MOST_INSTRUCTIONS }
    ensures code { OnOk result
        (code.new.items
        ≡ code.old.items
        ++ code_of.processes_code (length code.old.items) (map process_of processes.now)) }
    ensures rows { IfOk result
        (λ rows.
        rows.items ≡ code_of.process_rows (length code.old.items) (map process_of processes.now)) }
{
    let mut rows = Vec::new(alloc);
    for process in processes {
        rows.push(ProcessRow {
            name: process.name,
            priority: process.priority,
            period: process.period,
            capacity: process.capacity,
            body: emit_body(code, &process.body)?,
        })?;
    }
    Ok(rows)
}

/// The slots of a procedure: its parameters and its locals.
fn slots_of(parameters: u8, locals: u8) -> u16
    ensures { result ≡ parameters + locals }
{
    u16::from(parameters) + u16::from(locals)
}

/// A procedure, closed with `return 0`, and its row.
fn emit_procedure(code: &mut Vec<Instr>, procedure: &Procedure) -> Result<RoutineRow, AllocError>
    requires { length code.old.items + cost.size_of_procedure (procedure_of procedure.now)
        ≤ MOST_INSTRUCTIONS }
    ensures code { OnOk result
        (code.new.items
        ≡ code.old.items
        ++ code_of.procedure_code (length code.old.items) (procedure_of procedure.now)) }
    ensures row { IfOk result
        (λ row. row ≡ code_of.routine_row (length code.old.items) (procedure_of procedure.now)) }
{
    let entry = code.len() as u32;
    let slots = slots_of(procedure.parameters, procedure.locals);
    emit_block(code, slots, &procedure.block)?;
    put(code, Instr::Push(0))?;
    put(code, Instr::Return(u32::from(slots)))?;
    let frame = frame_of_procedure(procedure.parameters, procedure.locals, &procedure.block) as u32;
    Ok(RoutineRow {
        entry,
        parameters: procedure.parameters,
        slots,
        frame,
    })
}

/// The procedures, with their rows in the order of their numbers.
pub fn emit_procedures(
    alloc: Global,
    code: &mut Vec<Instr>,
    procedures: &[Procedure],
) -> Result<Vec<RoutineRow>, AllocError>
    requires { length code.old.items
        + sum_by cost.size_of_procedure (map procedure_of procedures.now) ≤ MOST_INSTRUCTIONS }
    ensures code { OnOk result
        (code.new.items
        ≡ code.old.items
        ++ code_of.procedures_code (length code.old.items) (map procedure_of procedures.now)) }
    ensures rows { IfOk result
        (λ rows. rows.items
        ≡ code_of.routine_rows (length code.old.items) (map procedure_of procedures.now)) }
{
    let mut rows = Vec::new(alloc);
    for procedure in procedures {
        rows.push(emit_procedure(code, procedure)?)?;
    }
    Ok(rows)
}
