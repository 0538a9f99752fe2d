//! Stacks that are too small for the calls of their bodies. Words are counted up to 2^64 - 1.

ghost use Rattle.std.specs.Prelude.{◌≡◌, ◌++◌, [], min, IfOk, OnOk};
ghost use Rattle.pal_base.specs.ProgramView.{block_of, body_of, expr_of, exprs_of, links_of, procedure_of, stmt_of};
ghost use Rattle.lint.specs.Stacks as meant;
ghost use Rattle.lint.specs.Views.{found_all};

use crate::finding::{Finding, FindingKind, add_if};
use pal_base::program::{Body, Expr, Link, Procedure, Process, Program, Stmt};
use std::alloc::{AllocError, Global};

/// The words that a call of a procedure takes; 0 if they are not known.
fn called(known: &[u64], procedure: u32) -> u64
    ensures { result ≡ meant.called known.now procedure }
{
    match known.get(procedure as usize) {
        Some(words) => *words,
        None => 0,
    }
}

/// The most words that wait or are taken together in an expression.
#[cycle(words_of_expr)]
fn words_of_expr(known: &[u64], expr: &Expr) -> u64
    ensures { result ≡ min (meant.words_of_expr known.now (expr_of expr.now)) u64.MAX }
{
    match expr {
        Expr::Literal(_) | Expr::Read(_) => 1,
        Expr::Element(_, _, index) => words_of_expr(known, index),
        Expr::Unary(_, operand) => words_of_expr(known, operand),
        Expr::Chain(first, links) => words_of_expr(known, first).max(words_of_links(known, links)),
        Expr::Apply(procedure, arguments) => called(known, *procedure)
            .max(1)
            .max(words_of_exprs(known, arguments)),
    }
}

/// An operand of a chain is evaluated while those before it wait.
#[cycle(words_of_expr)]
fn words_of_links(known: &[u64], links: &[Link]) -> u64
    ensures { result ≡ min (meant.words_of_links known.now (links_of links.now)) u64.MAX }
{
    let mut most: u64 = 0;
    for link in links {
        most = most.max(words_of_expr(known, &link.operand).saturating_add(1));
    }
    most
}

/// An argument waits while the later ones are evaluated.
#[cycle(words_of_expr)]
fn words_of_exprs(known: &[u64], exprs: &[Expr]) -> u64
    ensures { result ≡ min (meant.words_of_exprs known.now (exprs_of exprs.now)) u64.MAX }
{
    let mut most: u64 = 0;
    let mut waiting: u64 = 0;
    for expr in exprs {
        most = most.max(words_of_expr(known, expr).saturating_add(waiting));
        waiting = waiting.saturating_add(1);
    }
    most.max(waiting)
}

/// The most words of a statement: those of a reply wait until the targets take them.
#[cycle(words_of_stmt)]
fn words_of_stmt(known: &[u64], stmt: &Stmt) -> u64
    ensures { result ≡ min (meant.words_of_stmt known.now (stmt_of stmt.now)) u64.MAX }
{
    match stmt {
        Stmt::Assign(_, value) | Stmt::Return(value) => words_of_expr(known, value),
        Stmt::AssignElement(_, _, index, value) => {
            words_of_expr(known, index).max(words_of_expr(known, value).saturating_add(1))
        }
        Stmt::If(test, block) => words_of_expr(known, test).max(words_of_block(known, block)),
        Stmt::While(test, block) => words_of_expr(known, test).max(words_of_block(known, block)),
        Stmt::IfElse(test, block, other) => words_of_expr(known, test)
            .max(words_of_block(known, block))
            .max(words_of_block(known, other)),
        Stmt::Work(_) => 0,
        Stmt::CallService(service, arguments, _) => {
            u64::from(service.answer_words()).max(words_of_exprs(known, arguments))
        }
    }
}

/// The most words of a block.
#[cycle(words_of_stmt)]
fn words_of_block(known: &[u64], block: &[Stmt]) -> u64
    ensures { result ≡ min (meant.words_of_block known.now (block_of block.now)) u64.MAX }
{
    let mut most: u64 = 0;
    for stmt in block {
        most = most.max(words_of_stmt(known, stmt));
    }
    most
}

/// The words of a body, with those of its calls.
fn words_of_body(known: &[u64], body: &Body) -> u64
    ensures { result ≡ meant.words_of_body known.now (body_of body.now) }
{
    u64::from(body.locals)
        .saturating_add(words_of_block(known, &body.block))
        .saturating_add(2)
}

/// The words of a procedure, with those of its calls.
fn words_of_procedure(known: &[u64], procedure: &Procedure) -> u64
    ensures { result ≡ meant.words_of_procedure known.now (procedure_of procedure.now) }
{
    u64::from(procedure.parameters)
        .saturating_add(u64::from(procedure.locals))
        .saturating_add(words_of_block(known, &procedure.block).max(1))
        .saturating_add(2)
}

/// The words of each procedure. Its calls of itself and of later ones are not counted.
#[tactic(auto, using(std::proofs::lemmas::List::drop_more))]
fn words_of_procedures(alloc: Global, procedures: &[Procedure]) -> Result<Vec<u64>, AllocError>
    ensures { IfOk result
        (λ known. known.items ≡ meant.words_of_procedures [] procedures.now) }
{
    let mut known = Vec::new(alloc);
    for procedure in procedures {
        let words = words_of_procedure(&known, procedure);
        known.push(words)?;
    }
    Ok(known)
}

/// Adds a body whose stack is smaller than its words.
fn add_body<'a>(
    known: &[u64],
    body: &Body,
    name: &'a str,
    findings: &mut Vec<Finding<'a>>,
) -> Result<(), AllocError>
    ensures { OnOk result
        (found_all findings.new.items
        ≡ found_all findings.old.items ++ meant.small_stack known.now body.now name.now) }
{
    let finding = Finding {
        line: 0,
        kind: FindingKind::SmallStack,
        subject: name,
    };
    let small = u64::from(body.stack) < words_of_body(known, body);
    add_if(small, finding, findings)
}

/// Adds the handler, if there is one with a small stack.
fn add_handler(
    known: &[u64],
    handler: &Option<Body>,
    findings: &mut Vec<Finding<'_>>,
) -> Result<(), AllocError>
    ensures { OnOk result
        (found_all findings.new.items
        ≡ found_all findings.old.items ++ meant.small_stack_of_handler known.now handler.now) }
{
    match handler {
        Some(body) => add_body(known, body, "the handler", findings),
        None => Ok(()),
    }
}

/// Adds the processes with small stacks.
#[tactic(auto, using(std::proofs::lemmas::List::drop_more))]
fn add_processes<'a>(
    known: &[u64],
    processes: &'a [Process],
    findings: &mut Vec<Finding<'a>>,
) -> Result<(), AllocError>
    ensures { OnOk result
        (found_all findings.new.items
        ≡ found_all findings.old.items ++ meant.small_stacks_of_processes known.now processes.now) }
{
    for process in processes {
        add_body(known, &process.body, process.name.as_str(), findings)?;
    }
    Ok(())
}

/// Adds the bodies of a checked program whose stacks are too small for their calls. They have no
/// lines.
pub fn add_small_stacks<'a>(
    alloc: Global,
    program: &'a Program,
    findings: &mut Vec<Finding<'a>>,
) -> Result<(), AllocError>
    ensures { OnOk result
        (found_all findings.new.items
        ≡ found_all findings.old.items ++ meant.small_stacks program.now) }
{
    let known = words_of_procedures(alloc, &program.procedures)?;
    add_body(&known, &program.init, "INIT", findings)?;
    add_handler(&known, &program.handler, findings)?;
    add_processes(&known, &program.processes, findings)
}
