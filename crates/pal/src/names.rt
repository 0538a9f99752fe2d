//! Tests that each name is declared exactly once.

ghost use Rattle.std.specs.Prelude.{◌≡◌, ◌&&◌, [], List, ℕ, map, is_ok, is_some, option_map, IfOk};
ghost use Rattle.std.specs.List.{list_all};
ghost use Rattle.pal_meaning.specs.WellFormed.{knows_expr, knows_links, knows_exprs, knows_stmt, knows_block, names_hold_in_body, holds_of_bodies, holds_of_handler, holds_of_procedure};
ghost use Rattle.pal_base.specs.View as view;
ghost use Rattle.pal_base.specs.View.{texts, name_of, expr_of, exprs_of, links_of, stmt_of, block_of, body_of};
ghost use Rattle.pal_base.specs.WrittenView.{program_of};
ghost use Rattle.pal.specs.Tables.{entries_of};
ghost use Rattle.pal.specs.Scopes.{names_of, sees};
ghost use Rattle.pal.specs.Parts.{names_hold_of};

use crate::lines::{Check, earliest};
use crate::scope::{Scope, enter_body};
use crate::table::NameTable;
use indexmap::IndexSet;
use pal_base::syntax::{
    Body, Declaration, DeclarationKind, Expr, Identifier, Link, Process, Program, StackBody, Stmt,
    StmtKind,
};
use std::alloc::{AllocError, Global};

/// Checks that each name in the bodies of a program is known, and none is declared again.
pub fn check_names(
    alloc: Global,
    declared: &NameTable,
    program: &Program,
) -> Result<Check, AllocError>
    ensures { IfOk result
        (λ checked. is_ok checked
        ≡ holds_of_bodies (names_hold_of (entries_of declared.now)) (program_of program.now)) }
{
    let names = &program.names;
    let init = check_body(alloc, names, declared, &[], &program.init.body)?;
    let handler = check_handler(alloc, names, declared, &program.handler)?;
    let processes = check_processes(alloc, names, declared, &program.processes)?;
    let procedures = check_procedures(alloc, names, declared, &program.declarations)?;
    Ok(earliest(earliest(earliest(init, handler), processes), procedures))
}

fn check_handler(
    alloc: Global,
    names: &IndexSet<String>,
    declared: &NameTable,
    handler: &Option<StackBody>,
) -> Result<Check, AllocError>
    ensures { IfOk result
        (λ checked. is_ok checked
        ≡ holds_of_handler (names_hold_of (entries_of declared.now))
        (option_map (view.stack_body_of (texts names.now.keys)) handler.now)) }
{
    match handler {
        Some(handler) => check_body(alloc, names, declared, &[], &handler.body),
        None => Ok(Ok(())),
    }
}

fn check_processes(
    alloc: Global,
    names: &IndexSet<String>,
    declared: &NameTable,
    processes: &[Process],
) -> Result<Check, AllocError>
    ensures { IfOk result
        (λ checked. is_ok checked
        ≡ list_all (λ q. names_hold_in_body (entries_of declared.now) [] q.body)
        (map (view.process_of (texts names.now.keys)) processes.now)) }
{
    let mut checked = Ok(());
    for process in processes {
        checked = earliest(
            checked,
            check_body(alloc, names, declared, &[], &process.body)?,
        );
    }
    Ok(checked)
}

fn check_procedures(
    alloc: Global,
    names: &IndexSet<String>,
    declared: &NameTable,
    declarations: &[Declaration],
) -> Result<Check, AllocError>
    ensures { IfOk result
        (λ checked. is_ok checked
        ≡ list_all (λ d. holds_of_procedure (names_hold_of (entries_of declared.now)) d.kind)
        (map (view.declaration_of (texts names.now.keys)) declarations.now)) }
{
    let mut checked = Ok(());
    for declaration in declarations {
        checked = earliest(
            checked,
            check_procedure(alloc, names, declared, &declaration.kind)?,
        );
    }
    Ok(checked)
}

fn check_procedure(
    alloc: Global,
    names: &IndexSet<String>,
    declared: &NameTable,
    kind: &DeclarationKind,
) -> Result<Check, AllocError>
    ensures { IfOk result
        (λ checked. is_ok checked
        ≡ holds_of_procedure (names_hold_of (entries_of declared.now))
        (view.declared_of (texts names.now.keys) kind.now)) }
{
    match kind {
        DeclarationKind::Procedure { parameters, body } => {
            check_body(alloc, names, declared, parameters, body)
        }
        _ => Ok(Ok(())),
    }
}

fn check_body(
    alloc: Global,
    names: &IndexSet<String>,
    declared: &NameTable,
    parameters: &[Identifier],
    body: &Body,
) -> Result<Check, AllocError>
    ensures { IfOk result
        (λ checked. is_ok checked
        ≡ names_hold_in_body (entries_of declared.now)
        (map (name_of (texts names.now.keys)) parameters.now)
        (body_of (texts names.now.keys) body.now)) }
{
    let entered = enter_body(alloc, names, declared, parameters, &body.locals)?;
    let inside = check_block(&entered.scope, &body.statements);
    Ok(earliest(entered.fresh, inside))
}

#[cycle(names_statement)]
fn check_block(scope: &Scope, block: &[Stmt]) -> Check
    ensures { is_ok result
        ≡ knows_block (sees scope.now) (block_of (names_of scope.now) block.now) }
{
    for statement in block {
        check_statement(scope, &statement.kind)?;
    }
    Ok(())
}

#[cycle(names_statement)]
fn check_statement(scope: &Scope, statement: &StmtKind) -> Check
    ensures { is_ok result
        ≡ knows_stmt (sees scope.now) (view.kind_of (names_of scope.now) statement.now) }
{
    match statement {
        StmtKind::Assign(target, value) => {
            scope.check_known(*target)?;
            check_expression(scope, value)
        }
        StmtKind::AssignElement(array, index, value) => {
            scope.check_known(*array)?;
            check_expression(scope, index)?;
            check_expression(scope, value)
        }
        StmtKind::If(test, then) => {
            check_expression(scope, test)?;
            check_block(scope, then)
        }
        StmtKind::While(test, block) => {
            check_expression(scope, test)?;
            check_block(scope, block)
        }
        StmtKind::IfElse(test, then, other) => {
            check_expression(scope, test)?;
            check_block(scope, then)?;
            check_block(scope, other)
        }
        StmtKind::Work(_) => Ok(()),
        StmtKind::Return(value) => check_expression(scope, value),
        StmtKind::CallService(_, arguments, targets) => {
            check_expressions(scope, arguments)?;
            check_targets(scope, targets)
        }
    }
}

fn check_targets(scope: &Scope, targets: &[Identifier]) -> Check
    ensures { is_ok result
        ≡ list_all (λ x. is_some (sees scope.now x))
        (map (name_of (names_of scope.now)) targets.now) }
{
    for target in targets {
        scope.check_known(*target)?;
    }
    Ok(())
}

#[cycle(names_expression)]
fn check_expression(scope: &Scope, expression: &Expr) -> Check
    ensures { is_ok result
        ≡ knows_expr (sees scope.now) (expr_of (names_of scope.now) expression.now) }
{
    match expression {
        Expr::Number(_) => Ok(()),
        Expr::Name(name) => scope.check_known(*name),
        Expr::Element(array, index) => {
            scope.check_known(*array)?;
            check_expression(scope, index)
        }
        Expr::Apply(procedure, arguments) => {
            scope.check_known(*procedure)?;
            check_expressions(scope, arguments)
        }
        Expr::Parenthesis(inside) => check_expression(scope, inside),
        Expr::Unary(_, operand) => check_expression(scope, operand),
        Expr::Chain(first, rest) => {
            check_expression(scope, first)?;
            check_links(scope, rest)
        }
    }
}

#[cycle(names_expression)]
fn check_expressions(scope: &Scope, expressions: &[Expr]) -> Check
    ensures { is_ok result
        ≡ knows_exprs (sees scope.now) (exprs_of (names_of scope.now) expressions.now) }
{
    for expression in expressions {
        check_expression(scope, expression)?;
    }
    Ok(())
}

#[cycle(names_expression)]
fn check_links(scope: &Scope, links: &[Link]) -> Check
    ensures { is_ok result
        ≡ knows_links (sees scope.now) (links_of (names_of scope.now) links.now) }
{
    for link in links {
        check_expression(scope, &link.operand)?;
    }
    Ok(())
}
