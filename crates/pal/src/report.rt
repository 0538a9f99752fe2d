//! The costs of the bodies of a program.

ghost use Rattle.std.specs.Prelude.{◌≡◌, ◌++◌, map, option_map, IfOk, IfErr, OnOk};
ghost use Rattle.compiling_laws.specs.Bounds.{AreCostsHeld, AreProceduresHeld, AreProcessesHeld, IsBodyHeld, IsHandlerHeld, IsProcedureHeld};
ghost use Rattle.pal_base.specs.ProgramView.{body_of, procedure_of, process_of, program_of};
ghost use Rattle.pal_base.specs.declared.fault.Refusal.TheVariants.{Memory};
ghost use Rattle.pal.specs.Costs.{costs_of, cost_of_body, cost_of_handler, cost_of_process, cost_of_procedure, cost_of_procedure_body};

use apex_types::{Costs, Name};
use pal_base::checked::Checked;
use pal_base::cost::{cost_of_body, cost_of_procedure};
use pal_base::fault::PalFault;
use pal_base::frames::{frame_of_body, frame_of_procedure};
use pal_base::program::{Body, Procedure, Process, Program};
use pal_base::sizes::{size_of_body, size_of_procedure};
use std::alloc::{AllocError, Global};

/// A body of a program.
#[derive(Clone, Copy)]
pub enum BodyName {
    Init,
    Handler,
    Process(Name),
    Procedure(Name),
}

/// The costs of a body: its instructions, the words of stack of its frame, and the ticks of its
/// constructs, each construct once and its end included.
#[derive(Clone, Copy)]
pub struct BodyCost {
    pub name: BodyName,
    pub instructions: u64,
    pub frame: u64,
    pub cost: u64,
}

/// The costs of the bodies of a program: INIT, the handler, the processes, the procedures.
///
/// # Errors
///
/// 7 if memory ran out.
pub fn cost_report(
    alloc: Global,
    costs: &Costs,
    checked: &Checked,
) -> Result<Vec<BodyCost>, PalFault>
    ensures costs { IfOk result (λ report. report.items ≡ costs_of costs.now checked.now.program) }
    ensures memory { IfErr result (λ fault. fault.refusal ≡ Memory) }
{
    Ok(report_program(alloc, costs, &checked.program)?)
}

fn report_program(
    alloc: Global,
    costs: &Costs,
    program: &Program,
) -> Result<Vec<BodyCost>, AllocError>
    requires { AreCostsHeld costs.now (program_of program.now) }
    ensures { IfOk result (λ report. report.items ≡ costs_of costs.now program.now) }
{
    let mut report = Vec::new(alloc);
    report.push(body_cost(costs, BodyName::Init, &program.init))?;
    report_handler(&mut report, costs, &program.handler)?;
    report_processes(&mut report, costs, &program.processes)?;
    report_procedures(&mut report, costs, &program.procedures)?;
    Ok(report)
}

fn report_handler(
    report: &mut Vec<BodyCost>,
    costs: &Costs,
    handler: &Option<Body>,
) -> Result<(), AllocError>
    requires { IsHandlerHeld costs.now (option_map body_of handler.now) }
    ensures { OnOk result
        (report.new.items ≡ report.old.items ++ cost_of_handler costs.now handler.now) }
{
    if let Some(handler) = handler {
        report.push(body_cost(costs, BodyName::Handler, handler))?;
    }
    Ok(())
}

#[tactic(auto, using(crate::proofs::Held::next_process))]
fn report_processes(
    report: &mut Vec<BodyCost>,
    costs: &Costs,
    processes: &[Process],
) -> Result<(), AllocError>
    requires { AreProcessesHeld costs.now (map process_of processes.now) }
    ensures { OnOk result
        (report.new.items ≡ report.old.items ++ map (cost_of_process costs.now) processes.now) }
{
    for process in processes {
        report.push(body_cost(costs, BodyName::Process(process.name), &process.body))?;
    }
    Ok(())
}

#[tactic(auto, using(crate::proofs::Held::next_procedure))]
fn report_procedures(
    report: &mut Vec<BodyCost>,
    costs: &Costs,
    procedures: &[Procedure],
) -> Result<(), AllocError>
    requires { AreProceduresHeld costs.now (map procedure_of procedures.now) }
    ensures { OnOk result
        (report.new.items ≡ report.old.items ++ map (cost_of_procedure costs.now) procedures.now) }
{
    for procedure in procedures {
        let name = BodyName::Procedure(procedure.name);
        report.push(procedure_cost(costs, name, procedure))?;
    }
    Ok(())
}

#[tactic(auto, using(crate::proofs::Held::body_is))]
fn body_cost(costs: &Costs, name: BodyName, body: &Body) -> BodyCost
    requires { IsBodyHeld costs.now (body_of body.now) }
    ensures { result ≡ cost_of_body costs.now name body.now }
{
    BodyCost {
        name,
        instructions: size_of_body(body),
        frame: frame_of_body(body),
        cost: cost_of_body(costs, body).ticks,
    }
}

#[tactic(auto, using(crate::proofs::Held::procedure_is))]
fn procedure_cost(costs: &Costs, name: BodyName, procedure: &Procedure) -> BodyCost
    requires { IsProcedureHeld costs.now (procedure_of procedure.now) }
    ensures { result ≡ cost_of_procedure_body costs.now name procedure.now }
{
    BodyCost {
        name,
        instructions: size_of_procedure(procedure),
        frame: frame_of_procedure(procedure.parameters, procedure.locals, &procedure.block),
        cost: cost_of_procedure(costs, procedure).ticks,
    }
}
