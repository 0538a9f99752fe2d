//! Services that wait while preemption is locked.

ghost use Rattle.std.specs.Prelude.{◌≡◌, ◌++◌, List, ℕ, map, OnOk};
ghost use Rattle.pal_base.specs.View.{block_of, body_of, declaration_of, declared_of, exprs_of, kind_of, process_of, texts};
ghost use Rattle.pal_base.specs.WrittenView.{program_of};
ghost use Rattle.lint.specs.Locks as meant;
ghost use Rattle.lint.specs.Plain.{plains};
ghost use Rattle.lint.specs.Views.{found_all};

use crate::finding::{Finding, FindingKind, add_if};
use crate::lives::may_wait;
use apex_types::Service;
use indexmap::IndexSet;
use pal_base::syntax::{
    Body, Declaration, DeclarationKind, Expr, Process, Program, Stmt, StmtKind,
};
use std::alloc::AllocError;

/// Whether preemption is locked after a service, if it was so before.
fn locked_after_service(locked: bool, service: Service) -> bool
    ensures { result ≡ meant.locked_after_service locked service }
{
    match service {
        Service::LockPreemption => true,
        Service::UnlockPreemption => false,
        _ => locked,
    }
}

/// The same after a statement; after one with a block it is not known.
fn locked_after(locked: bool, statement: &StmtKind) -> bool
    ensures { (names : List (List ℕ))
        → result ≡ meant.locked_after locked (kind_of names statement.now) }
{
    match statement {
        StmtKind::CallService(service, _, _) => locked_after_service(locked, *service),
        StmtKind::If(_, _) => false,
        StmtKind::IfElse(_, _, _) => false,
        StmtKind::While(_, _) => false,
        StmtKind::Assign(_, _) => locked,
        StmtKind::AssignElement(_, _, _) => locked,
        StmtKind::Work(_) => locked,
        StmtKind::Return(_) => locked,
    }
}

/// Adds a service that may wait, if preemption is locked.
fn add_wait(
    names: &IndexSet<String>,
    locked: bool,
    line: u32,
    service: Service,
    arguments: &[Expr],
    findings: &mut Vec<Finding<'_>>,
) -> Result<(), AllocError>
    ensures { OnOk result
        (found_all findings.new.items
        ≡ found_all findings.old.items
        ++ meant.wait_while_locked locked service
        (plains (exprs_of (texts names.now.keys) arguments.now))) }
{
    let finding = Finding {
        line,
        kind: FindingKind::WaitWhileLocked,
        subject: service.word(),
    };
    add_if(locked && may_wait(service, arguments), finding, findings)
}

/// Adds the services of a block that may wait while preemption is locked, if it was so before or
/// not.
#[cycle(locked_waits)]
fn add_block(
    names: &IndexSet<String>,
    before: bool,
    block: &[Stmt],
    findings: &mut Vec<Finding<'_>>,
) -> Result<(), AllocError>
    ensures { OnOk result
        (found_all findings.new.items
        ≡ found_all findings.old.items
        ++ meant.waits_while_locked before (block_of (texts names.now.keys) block.now)) }
{
    let mut locked = before;
    for statement in block {
        add_statement(names, locked, statement, findings)?;
        locked = locked_after(locked, &statement.kind);
    }
    Ok(())
}

/// Adds the services of a statement that may wait while preemption is locked.
#[cycle(locked_waits)]
fn add_statement(
    names: &IndexSet<String>,
    locked: bool,
    statement: &Stmt,
    findings: &mut Vec<Finding<'_>>,
) -> Result<(), AllocError>
    ensures { OnOk result
        (found_all findings.new.items
        ≡ found_all findings.old.items
        ++ meant.waits_while_locked_in locked (kind_of (texts names.now.keys) statement.now.kind)) }
{
    match &statement.kind {
        StmtKind::If(_, block) => add_block(names, locked, block, findings),
        StmtKind::IfElse(_, block, other) => {
            add_block(names, locked, block, findings)?;
            add_block(names, locked, other, findings)
        }
        StmtKind::While(_, block) => add_block(names, locked, block, findings),
        StmtKind::CallService(service, arguments, _) => {
            add_wait(names, locked, statement.line, *service, arguments, findings)
        }
        StmtKind::Assign(_, _) => Ok(()),
        StmtKind::AssignElement(_, _, _) => Ok(()),
        StmtKind::Work(_) => Ok(()),
        StmtKind::Return(_) => Ok(()),
    }
}

/// Adds the services of a body that may wait while preemption is locked.
fn add_body(
    names: &IndexSet<String>,
    body: &Body,
    findings: &mut Vec<Finding<'_>>,
) -> Result<(), AllocError>
    ensures { OnOk result
        (found_all findings.new.items
        ≡ found_all findings.old.items
        ++ meant.locked_in_body (body_of (texts names.now.keys) body.now)) }
{
    add_block(names, false, &body.statements, findings)
}

/// The same of processes.
#[tactic(auto, using(std::proofs::lemmas::List::drop_more))]
fn add_processes(
    names: &IndexSet<String>,
    processes: &[Process],
    findings: &mut Vec<Finding<'_>>,
) -> Result<(), AllocError>
    ensures { OnOk result
        (found_all findings.new.items
        ≡ found_all findings.old.items
        ++ meant.locked_in_processes (map (process_of (texts names.now.keys)) processes.now)) }
{
    for process in processes {
        add_body(names, &process.body, findings)?;
    }
    Ok(())
}

/// The same of a procedure, if the declaration is one.
fn add_procedure(
    names: &IndexSet<String>,
    kind: &DeclarationKind,
    findings: &mut Vec<Finding<'_>>,
) -> Result<(), AllocError>
    ensures { OnOk result
        (found_all findings.new.items
        ≡ found_all findings.old.items
        ++ meant.locked_in_kind (declared_of (texts names.now.keys) kind.now)) }
{
    match kind {
        DeclarationKind::Procedure { body, .. } => add_body(names, body, findings),
        DeclarationKind::Variable(_) => Ok(()),
        DeclarationKind::Array { .. } => Ok(()),
        DeclarationKind::Semaphore { .. } => Ok(()),
        DeclarationKind::Event => Ok(()),
        DeclarationKind::Buffer { .. } => Ok(()),
        DeclarationKind::Blackboard { .. } => Ok(()),
        DeclarationKind::Port => Ok(()),
    }
}

/// The same of the procedures among declarations.
#[tactic(auto, using(std::proofs::lemmas::List::drop_more))]
fn add_procedures(
    names: &IndexSet<String>,
    declarations: &[Declaration],
    findings: &mut Vec<Finding<'_>>,
) -> Result<(), AllocError>
    ensures { OnOk result
        (found_all findings.new.items
        ≡ found_all findings.old.items
        ++ meant.locked_in_procedures
        (map (declaration_of (texts names.now.keys)) declarations.now)) }
{
    for declaration in declarations {
        add_procedure(names, &declaration.kind, findings)?;
    }
    Ok(())
}

/// Adds the services of processes and procedures that may wait while preemption is locked.
pub fn add_locked_waits(
    program: &Program,
    findings: &mut Vec<Finding<'_>>,
) -> Result<(), AllocError>
    ensures { OnOk result
        (found_all findings.new.items
        ≡ found_all findings.old.items ++ meant.locked_waits (program_of program.now)) }
{
    add_processes(&program.names, &program.processes, findings)?;
    add_procedures(&program.names, &program.declarations, findings)
}
