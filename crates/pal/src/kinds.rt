//! Tests that each name has the kind that its place asks for, and that calls and services have the
//! right number of arguments and targets.

ghost use Rattle.std.specs.Prelude.{◌≡◌, ◌&&◌, [], List, ℕ, length, nat_eq, map, is_ok, false, option_map, IfOk};
ghost use Rattle.std.specs.List.{list_all};
ghost use Rattle.pal_meaning.specs.WellFormed.{is_scalar, fits_argument, fits_arguments, fits_expr, fits_links, fits_exprs, fits_stmt, fits_block, kinds_hold_in_body, holds_of_bodies, holds_of_handler, holds_of_procedure};
ghost use Rattle.pal_base.specs.View as view;
ghost use Rattle.pal_base.specs.View.{texts, name_of, expr_of, exprs_of, links_of, stmt_of, block_of, body_of};
ghost use Rattle.pal_base.specs.WrittenView.{program_of};
ghost use Rattle.pal.specs.Tables.{entries_of};
ghost use Rattle.pal.specs.Scopes.{names_of, sees};

use crate::lines::{Check, Line, check_that, earliest};
use crate::scope::{Scope, enter_body};
use crate::table::NameTable;
use apex_types::{ArgumentKind, Service};
use indexmap::IndexSet;
use pal_base::syntax::{
    Body, Declaration, DeclarationKind, Expr, Identifier, Link, Process, Program, StackBody, Stmt,
    StmtKind,
};
use std::alloc::{AllocError, Global};

/// Checks the kinds and the numbers of names, arguments and targets in the bodies of a program.
pub fn check_kinds(
    alloc: Global,
    declared: &NameTable,
    program: &Program,
) -> Result<Check, AllocError>
    ensures { IfOk result
        (λ checked. is_ok checked
        ≡ holds_of_bodies (kinds_hold_in_body (entries_of declared.now))
        (program_of program.now)) }
{
    let names = &program.names;
    let init = check_body(alloc, names, declared, false, &[], &program.init.body)?;
    let handler = check_handler(alloc, names, declared, &program.handler)?;
    let processes = check_processes(alloc, names, declared, &program.processes)?;
    let procedures = check_procedures(alloc, names, declared, &program.declarations)?;
    Ok(earliest(earliest(earliest(init, handler), processes), procedures))
}

fn check_handler(
    alloc: Global,
    names: &IndexSet<String>,
    declared: &NameTable,
    handler: &Option<StackBody>,
) -> Result<Check, AllocError>
    ensures { IfOk result
        (λ checked. is_ok checked
        ≡ holds_of_handler (kinds_hold_in_body (entries_of declared.now))
        (option_map (view.stack_body_of (texts names.now.keys)) handler.now)) }
{
    match handler {
        Some(handler) => check_body(alloc, names, declared, false, &[], &handler.body),
        None => Ok(Ok(())),
    }
}

fn check_processes(
    alloc: Global,
    names: &IndexSet<String>,
    declared: &NameTable,
    processes: &[Process],
) -> Result<Check, AllocError>
    ensures { IfOk result
        (λ checked. is_ok checked
        ≡ list_all (λ q. kinds_hold_in_body (entries_of declared.now) false [] q.body)
        (map (view.process_of (texts names.now.keys)) processes.now)) }
{
    let mut checked = Ok(());
    for process in processes {
        checked = earliest(
            checked,
            check_body(alloc, names, declared, false, &[], &process.body)?,
        );
    }
    Ok(checked)
}

fn check_procedures(
    alloc: Global,
    names: &IndexSet<String>,
    declared: &NameTable,
    declarations: &[Declaration],
) -> Result<Check, AllocError>
    ensures { IfOk result
        (λ checked. is_ok checked
        ≡ list_all (λ d. holds_of_procedure (kinds_hold_in_body (entries_of declared.now)) d.kind)
        (map (view.declaration_of (texts names.now.keys)) declarations.now)) }
{
    let mut checked = Ok(());
    for declaration in declarations {
        checked = earliest(
            checked,
            check_procedure(alloc, names, declared, &declaration.kind)?,
        );
    }
    Ok(checked)
}

fn check_procedure(
    alloc: Global,
    names: &IndexSet<String>,
    declared: &NameTable,
    kind: &DeclarationKind,
) -> Result<Check, AllocError>
    ensures { IfOk result
        (λ checked. is_ok checked
        ≡ holds_of_procedure (kinds_hold_in_body (entries_of declared.now))
        (view.declared_of (texts names.now.keys) kind.now)) }
{
    match kind {
        DeclarationKind::Procedure { parameters, body } => {
            check_body(alloc, names, declared, true, parameters, body)
        }
        _ => Ok(Ok(())),
    }
}

fn check_body(
    alloc: Global,
    names: &IndexSet<String>,
    declared: &NameTable,
    returns: bool,
    parameters: &[Identifier],
    body: &Body,
) -> Result<Check, AllocError>
    ensures { IfOk result
        (λ checked. is_ok checked
        ≡ kinds_hold_in_body (entries_of declared.now) returns
        (map (name_of (texts names.now.keys)) parameters.now)
        (body_of (texts names.now.keys) body.now)) }
{
    let entered = enter_body(alloc, names, declared, parameters, &body.locals)?;
    Ok(check_block(&entered.scope, returns, &body.statements))
}

#[cycle(kinds_statement)]
fn check_block(scope: &Scope, returns: bool, block: &[Stmt]) -> Check
    ensures { is_ok result
        ≡ fits_block (sees scope.now) returns (block_of (names_of scope.now) block.now) }
{
    for statement in block {
        check_statement(scope, returns, statement.line, &statement.kind)?;
    }
    Ok(())
}

#[cycle(kinds_statement)]
fn check_statement(scope: &Scope, returns: bool, line: u32, statement: &StmtKind) -> Check
    ensures { is_ok result
        ≡ fits_stmt (sees scope.now) returns (view.kind_of (names_of scope.now) statement.now) }
{
    match statement {
        StmtKind::Assign(target, value) => {
            scope.check_scalar(*target)?;
            check_expression(scope, value)
        }
        StmtKind::AssignElement(array, index, value) => {
            scope.check_array(*array)?;
            check_expression(scope, index)?;
            check_expression(scope, value)
        }
        StmtKind::If(test, then) => {
            check_expression(scope, test)?;
            check_block(scope, returns, then)
        }
        StmtKind::While(test, block) => {
            check_expression(scope, test)?;
            check_block(scope, returns, block)
        }
        StmtKind::IfElse(test, then, other) => {
            check_expression(scope, test)?;
            check_block(scope, returns, then)?;
            check_block(scope, returns, other)
        }
        StmtKind::Work(_) => Ok(()),
        StmtKind::Return(value) => {
            check_that(returns, line)?;
            check_expression(scope, value)
        }
        StmtKind::CallService(service, arguments, targets) => earliest(
            check_arguments(scope, line, service.arguments(), arguments),
            earliest(
                check_that(targets.len() == usize::from(service.answer_words()), line),
                check_targets(scope, targets),
            ),
        ),
    }
}

/// Checks the number and the kinds of a service's arguments. A wrong number is an error of the
/// line of the call.
fn check_arguments(scope: &Scope, line: u32, kinds: &[ArgumentKind], arguments: &[Expr]) -> Check
    ensures { is_ok result
        ≡ fits_arguments (sees scope.now) kinds.now (exprs_of (names_of scope.now) arguments.now) }
{
    match (kinds.split_first(), arguments.split_first()) {
        (None, None) => Ok(()),
        (Some((kind, kinds)), Some((argument, arguments))) => earliest(
            check_argument(scope, line, *kind, argument),
            check_arguments(scope, line, kinds, arguments),
        ),
        _ => Err(Line(line)),
    }
}

fn check_argument(scope: &Scope, line: u32, kind: ArgumentKind, argument: &Expr) -> Check
    ensures { is_ok result
        ≡ fits_argument (sees scope.now) kind (expr_of (names_of scope.now) argument.now) }
{
    match (kind, argument) {
        (ArgumentKind::Word, _) => check_expression(scope, argument),
        (ArgumentKind::Array, Expr::Name(name)) => scope.check_array(*name),
        (ArgumentKind::Object(object), Expr::Name(name)) => scope.check_object(*name, object),
        _ => Err(Line(line)),
    }
}

fn check_targets(scope: &Scope, targets: &[Identifier]) -> Check
    ensures { is_ok result
        ≡ list_all (λ x. is_scalar (sees scope.now x))
        (map (name_of (names_of scope.now)) targets.now) }
{
    for target in targets {
        scope.check_scalar(*target)?;
    }
    Ok(())
}

#[cycle(kinds_expression)]
fn check_expression(scope: &Scope, expression: &Expr) -> Check
    ensures { is_ok result
        ≡ fits_expr (sees scope.now) (expr_of (names_of scope.now) expression.now) }
{
    match expression {
        Expr::Number(_) => Ok(()),
        Expr::Name(name) => scope.check_scalar(*name),
        Expr::Element(array, index) => {
            scope.check_array(*array)?;
            check_expression(scope, index)
        }
        Expr::Apply(procedure, arguments) => {
            let arguments = arguments.as_slice();
            scope.check_procedure(*procedure, arguments.len())?;
            check_expressions(scope, arguments)
        }
        Expr::Parenthesis(inside) => check_expression(scope, inside),
        Expr::Unary(_, operand) => check_expression(scope, operand),
        Expr::Chain(first, rest) => {
            check_expression(scope, first)?;
            check_links(scope, rest)
        }
    }
}

#[cycle(kinds_expression)]
fn check_expressions(scope: &Scope, expressions: &[Expr]) -> Check
    ensures { is_ok result
        ≡ fits_exprs (sees scope.now) (exprs_of (names_of scope.now) expressions.now) }
{
    for expression in expressions {
        check_expression(scope, expression)?;
    }
    Ok(())
}

#[cycle(kinds_expression)]
fn check_links(scope: &Scope, links: &[Link]) -> Check
    ensures { is_ok result ≡ fits_links (sees scope.now) (links_of (names_of scope.now) links.now) }
{
    for link in links {
        check_expression(scope, &link.operand)?;
    }
    Ok(())
}
