//! Tests that each number, count, name and frame is within its limit.

ghost use Rattle.std.specs.Prelude.{◌≡◌, ◌&&◌, List, ℕ, Some, map, length, nat_le, is_ok, is_some, option_map, IfOk};
ghost use Rattle.std.specs.List.{list_all};
ghost use Rattle.apex_types.specs.Limits.{LEAST_STACK_WORDS, MOST_PROCESSES, MOST_STACK_WORDS};
ghost use Rattle.apex_types.specs.NameText as name_text;
ghost use Rattle.pal_meaning.specs.Resolve.{no_counts};
ghost use Rattle.pal_meaning.specs.Syntax as tree;
ghost use Rattle.pal_meaning.specs.WellFormed as well_formed;
ghost use Rattle.pal_meaning.specs.WellFormed.{is_between, is_time, is_word, value_at_most, keeps_counts, keeps_expr, keeps_links, keeps_exprs, keeps_stmt, keeps_block, keeps_body, keeps_kind, keeps_declaration, keeps_stack_body, keeps_handler, keeps_process};
ghost use Rattle.pal_base.specs.View as view;
ghost use Rattle.pal_base.specs.View.{texts, name_of, number_of, integer_of, expr_of, exprs_of, links_of, block_of, body_of};
ghost use Rattle.pal_base.specs.WrittenView.{program_of};
ghost use Rattle.pal.specs.Tables.{entries_of};
ghost use Rattle.pal.specs.Parts.{limits_hold_among};

use crate::lines::{Check, Line, check_that, earliest};
use crate::meanings::Counts;
use crate::numbers::value_of;
use crate::resolving::{limited_count, resolve_body, resolve_statements};
use crate::table::{NameTable, text_of};
use apex_types::Name;
use apex_types::limits::{
    GREATEST_PRIORITY, LEAST_STACK_WORDS, MOST_DEPTH, MOST_LOCALS, MOST_PARAMETERS, MOST_PROCESSES,
    MOST_SEMAPHORE_VALUE, MOST_STACK_WORDS, MOST_TICKS, MOST_WORDS, MOST_WORK_TICKS,
};
use indexmap::IndexSet;
use pal_base::frames::{frame_of_body, frame_of_procedure};
use pal_base::syntax::{
    Body, Declaration, DeclarationKind, Expr, Identifier, Link, Numeral, Process, Program,
    StackBody, Stmt, StmtKind,
};
use std::alloc::{AllocError, Global};

/// Checks that everything in a program is within its limit.
pub fn check_limits(
    alloc: Global,
    declared: &NameTable,
    program: &Program,
) -> Result<Check, AllocError>
    ensures { IfOk result
        (λ checked.
        is_ok checked ≡ limits_hold_among (entries_of declared.now) (program_of program.now)) }
{
    let names = &program.names;
    let counts = check_counts(&program.declarations);
    let declarations = check_declarations(alloc, names, declared, &program.declarations)?;
    let init = check_stack_body(alloc, names, declared, &program.init)?;
    let handler = check_handler(alloc, names, declared, &program.handler)?;
    let processes = check_processes(alloc, names, declared, &program.processes)?;
    let count = check_process_count(&program.processes);
    let bodies = earliest(earliest(earliest(counts, declarations), init), handler);
    Ok(earliest(earliest(bodies, processes), count))
}

/// Checks the words of data and how many there are of each kind. The error is the line of the first
/// declaration that makes too many.
fn check_counts(declarations: &[Declaration]) -> Check
    ensures { (names : List (List ℕ))
        → is_ok result ≡ keeps_counts no_counts (map (view.declaration_of names) declarations.now) }
{
    let mut counts = Counts::NONE;
    for declaration in declarations {
        match counts.after(&declaration.kind) {
            Some(next) => counts = next,
            None => return Err(Line(declaration.line)),
        }
    }
    Ok(())
}

/// Checks how many processes there are. The error is the line of the first one too many.
fn check_process_count(processes: &[Process]) -> Check
    ensures { is_ok result ≡ nat_le (length processes.now) MOST_PROCESSES }
{
    match processes.get(usize::from(MOST_PROCESSES)) {
        Some(process) => Err(Line(process.line)),
        None => Ok(()),
    }
}

/// Checks that the number is within these limits. The error is the line, or that of a number above
/// 2^63 - 1.
fn check_between(low: u64, high: u64, number: &Numeral, line: u32) -> Check
    ensures { is_ok result ≡ is_between low high (number_of number.now) }
{
    match value_of(number) {
        Some(value) => check_that(low <= value && value <= high, line),
        None => Err(Line(number.line)),
    }
}

/// Checks that the count is at most the number. The error is the line, or that of a number above
/// 2^63 - 1.
fn check_count(count: usize, most: &Numeral, line: u32) -> Check
    ensures { is_ok result ≡ value_at_most (Some count) (number_of most.now) }
{
    match value_of(most) {
        Some(most) => check_that(count as u64 <= most, line),
        None => Err(Line(most.line)),
    }
}

/// Checks that the first number is at most the second. The error is the line, or that of a number
/// above 2^63 - 1.
fn check_at_most(number: &Numeral, most: &Numeral, line: u32) -> Check
    ensures { is_ok result ≡ value_at_most (number_of number.now) (number_of most.now) }
{
    match (value_of(number), value_of(most)) {
        (Some(value), Some(most)) => check_that(value <= most, line),
        (None, _) => Err(Line(number.line)),
        (Some(_), None) => Err(Line(most.line)),
    }
}

/// Checks that the number is at most 2^63 - 1. The error is its line.
fn check_word(number: &Numeral) -> Check
    ensures number { is_ok result ≡ is_some (number_of number.now) }
    ensures word { is_ok result ≡ is_word (integer_of number.now) }
{
    check_that(value_of(number).is_some(), number.line)
}

/// Checks that the number is a time: -1, or at least one tick. The error is the line, or that of a
/// number above 2^63 - 1.
fn check_time(number: &Numeral, line: u32) -> Check
    ensures { is_ok result ≡ is_time (integer_of number.now) }
{
    if number.negative {
        check_between(1, 1, number, line)
    } else {
        check_between(1, MOST_TICKS, number, line)
    }
}

/// Checks that the word has the form of a name. The error is its line.
fn check_name_form(names: &IndexSet<String>, name: Identifier) -> Check
    ensures { is_ok result ≡ name_text.is_name (name_of (texts names.now.keys) name) }
{
    match Name::new(text_of(names, name.name).as_bytes()) {
        Some(_) => Ok(()),
        None => Err(Line(name.line)),
    }
}

fn check_name_forms(names: &IndexSet<String>, identifiers: &[Identifier]) -> Check
    ensures { is_ok result
        ≡ list_all name_text.is_name (map (name_of (texts names.now.keys)) identifiers.now) }
{
    for name in identifiers {
        check_name_form(names, *name)?;
    }
    Ok(())
}

fn check_numbers(numbers: &[Numeral]) -> Check
    ensures { is_ok result ≡ list_all is_word (map integer_of numbers.now) }
{
    for number in numbers {
        check_word(number)?;
    }
    Ok(())
}

fn check_declarations(
    alloc: Global,
    names: &IndexSet<String>,
    declared: &NameTable,
    declarations: &[Declaration],
) -> Result<Check, AllocError>
    ensures { IfOk result
        (λ checked. is_ok checked
        ≡ list_all (keeps_declaration (entries_of declared.now))
        (map (view.declaration_of (texts names.now.keys)) declarations.now)) }
{
    let mut checked = Ok(());
    for declaration in declarations {
        let name = check_name_form(names, declaration.name);
        let line = declaration.line;
        let kind = check_kind(alloc, names, declared, line, &declaration.kind)?;
        checked = earliest(checked, earliest(name, kind));
    }
    Ok(checked)
}

fn check_kind(
    alloc: Global,
    names: &IndexSet<String>,
    declared: &NameTable,
    line: u32,
    kind: &DeclarationKind,
) -> Result<Check, AllocError>
    ensures { IfOk result
        (λ checked. is_ok checked
        ≡ keeps_kind (entries_of declared.now)
        (view.declared_of (texts names.now.keys) kind.now)) }
{
    Ok(match kind {
        DeclarationKind::Variable(None) | DeclarationKind::Event | DeclarationKind::Port => Ok(()),
        DeclarationKind::Variable(Some(value)) => check_word(value),
        DeclarationKind::Array { size, values } => {
            earliest(check_count(values.len(), size, line), check_numbers(values))
        }
        DeclarationKind::Semaphore { first, maximum, .. } => earliest(
            check_between(1, MOST_SEMAPHORE_VALUE as u64, maximum, line),
            check_at_most(first, maximum, line),
        ),
        DeclarationKind::Buffer {
            words,
            messages,
            ..
        } => earliest(
            check_between(1, MOST_WORDS as u64, words, line),
            check_between(1, MOST_DEPTH as u64, messages, line),
        ),
        DeclarationKind::Blackboard { words } => check_between(1, MOST_WORDS as u64, words, line),
        DeclarationKind::Procedure { parameters, body } => {
            check_procedure(alloc, names, declared, line, parameters, body)?
        }
    })
}

fn check_procedure(
    alloc: Global,
    names: &IndexSet<String>,
    declared: &NameTable,
    line: u32,
    parameters: &[Identifier],
    body: &Body,
) -> Result<Check, AllocError>
    ensures { IfOk result
        (λ checked. is_ok checked
        ≡ keeps_kind (entries_of declared.now)
        (tree.Procedure (map (name_of (texts names.now.keys)) parameters.now)
        (body_of (texts names.now.keys) body.now))) }
{
    let count = check_that(parameters.len() <= MOST_PARAMETERS as usize, line);
    let inside = check_body(names, body);
    let block = resolve_statements(alloc, names, declared, parameters, body)?;
    let slots = limited_count(MOST_PARAMETERS, parameters.len());
    let frame = frame_of_procedure(slots, limited_count(MOST_LOCALS, body.locals.len()), &block);
    let before = earliest(count, check_name_forms(names, parameters));
    Ok(earliest(
        earliest(before, inside),
        check_that(frame <= MOST_STACK_WORDS as u64, body.line),
    ))
}

/// INIT or the handler.
fn check_stack_body(
    alloc: Global,
    names: &IndexSet<String>,
    declared: &NameTable,
    body: &StackBody,
) -> Result<Check, AllocError>
    ensures { IfOk result
        (λ checked. is_ok checked
        ≡ keeps_stack_body (entries_of declared.now) (number_of body.now.stack)
        (body_of (texts names.now.keys) body.now.body)) }
{
    check_stack(alloc, names, declared, body.line, &body.stack, &body.body)
}

fn check_handler(
    alloc: Global,
    names: &IndexSet<String>,
    declared: &NameTable,
    handler: &Option<StackBody>,
) -> Result<Check, AllocError>
    ensures { IfOk result
        (λ checked. is_ok checked
        ≡ keeps_handler (entries_of declared.now)
        (option_map (view.stack_body_of (texts names.now.keys)) handler.now)) }
{
    match handler {
        Some(handler) => check_stack_body(alloc, names, declared, handler),
        None => Ok(Ok(())),
    }
}

/// Checks the stack of a body, and what is in the body.
fn check_stack(
    alloc: Global,
    names: &IndexSet<String>,
    declared: &NameTable,
    line: u32,
    stack: &Numeral,
    body: &Body,
) -> Result<Check, AllocError>
    ensures { IfOk result
        (λ checked. is_ok checked
        ≡ keeps_stack_body (entries_of declared.now) (number_of stack.now)
        (body_of (texts names.now.keys) body.now)) }
{
    let frame = check_frame(alloc, names, declared, line, stack, body)?;
    Ok(earliest(frame, check_body(names, body)))
}

/// Checks that a stack is within its limits, and at least the frame of its body.
fn check_frame(
    alloc: Global,
    names: &IndexSet<String>,
    declared: &NameTable,
    line: u32,
    stack: &Numeral,
    body: &Body,
) -> Result<Check, AllocError>
    ensures { IfOk result
        (λ checked. is_ok checked
        ≡ (is_between LEAST_STACK_WORDS MOST_STACK_WORDS (number_of stack.now)
        && well_formed.fits_stack (entries_of declared.now) (number_of stack.now)
        (body_of (texts names.now.keys) body.now))) }
{
    let Some(words) = value_of(stack) else {
        return Ok(Err(Line(stack.line)));
    };
    if words < LEAST_STACK_WORDS as u64 || (MOST_STACK_WORDS as u64) < words {
        return Ok(Err(Line(line)));
    }
    let shape = resolve_body(alloc, names, declared, stack, body)?;
    Ok(check_that(frame_of_body(&shape) <= words, body.line))
}

fn check_processes(
    alloc: Global,
    names: &IndexSet<String>,
    declared: &NameTable,
    processes: &[Process],
) -> Result<Check, AllocError>
    ensures { IfOk result
        (λ checked. is_ok checked
        ≡ list_all (keeps_process (entries_of declared.now))
        (map (view.process_of (texts names.now.keys)) processes.now)) }
{
    let mut checked = Ok(());
    for process in processes {
        checked = earliest(checked, check_process(alloc, names, declared, process)?);
    }
    Ok(checked)
}

fn check_process(
    alloc: Global,
    names: &IndexSet<String>,
    declared: &NameTable,
    process: &Process,
) -> Result<Check, AllocError>
    ensures { IfOk result
        (λ checked. is_ok checked
        ≡ keeps_process (entries_of declared.now)
        (view.process_of (texts names.now.keys) process.now)) }
{
    let line = process.line;
    let row = earliest(
        check_name_form(names, process.name),
        check_between(1, GREATEST_PRIORITY as u64, &process.priority, line),
    );
    let period = earliest(row, check_time(&process.period, line));
    let times = earliest(period, check_time(&process.capacity, line));
    let body = check_stack(alloc, names, declared, line, &process.stack, &process.body)?;
    Ok(earliest(times, body))
}

fn check_body(names: &IndexSet<String>, body: &Body) -> Check
    ensures { is_ok result ≡ keeps_body (body_of (texts names.now.keys) body.now) }
{
    check_that(body.locals.len() <= MOST_LOCALS as usize, body.line)?;
    check_name_forms(names, &body.locals)?;
    check_block(names, &body.statements)
}

#[cycle(limits_statement)]
fn check_block(names: &IndexSet<String>, block: &[Stmt]) -> Check
    ensures { is_ok result ≡ keeps_block (block_of (texts names.now.keys) block.now) }
{
    for statement in block {
        check_statement(names, statement.line, &statement.kind)?;
    }
    Ok(())
}

#[cycle(limits_statement)]
fn check_statement(names: &IndexSet<String>, line: u32, statement: &StmtKind) -> Check
    ensures { is_ok result ≡ keeps_stmt (view.kind_of (texts names.now.keys) statement.now) }
{
    match statement {
        StmtKind::Assign(target, value) => {
            check_name_form(names, *target)?;
            check_expression(names, value)
        }
        StmtKind::AssignElement(array, index, value) => {
            check_name_form(names, *array)?;
            check_expression(names, index)?;
            check_expression(names, value)
        }
        StmtKind::If(test, then) => {
            check_expression(names, test)?;
            check_block(names, then)
        }
        StmtKind::While(test, block) => {
            check_expression(names, test)?;
            check_block(names, block)
        }
        StmtKind::IfElse(test, then, other) => {
            check_expression(names, test)?;
            check_block(names, then)?;
            check_block(names, other)
        }
        StmtKind::Work(ticks) => check_between(1, MOST_WORK_TICKS as u64, ticks, line),
        StmtKind::Return(value) => check_expression(names, value),
        StmtKind::CallService(_, arguments, targets) => {
            check_expressions(names, arguments)?;
            check_name_forms(names, targets)
        }
    }
}

#[cycle(limits_expression)]
fn check_expression(names: &IndexSet<String>, expression: &Expr) -> Check
    ensures { is_ok result ≡ keeps_expr (expr_of (texts names.now.keys) expression.now) }
{
    match expression {
        Expr::Number(number) => check_word(number),
        Expr::Name(name) => check_name_form(names, *name),
        Expr::Element(array, index) => {
            check_name_form(names, *array)?;
            check_expression(names, index)
        }
        Expr::Apply(procedure, arguments) => {
            check_name_form(names, *procedure)?;
            check_expressions(names, arguments)
        }
        Expr::Parenthesis(inside) => check_expression(names, inside),
        Expr::Unary(_, operand) => check_expression(names, operand),
        Expr::Chain(first, rest) => {
            check_expression(names, first)?;
            check_links(names, rest)
        }
    }
}

#[cycle(limits_expression)]
fn check_expressions(names: &IndexSet<String>, expressions: &[Expr]) -> Check
    ensures { is_ok result ≡ keeps_exprs (exprs_of (texts names.now.keys) expressions.now) }
{
    for expression in expressions {
        check_expression(names, expression)?;
    }
    Ok(())
}

#[cycle(limits_expression)]
fn check_links(names: &IndexSet<String>, links: &[Link]) -> Check
    ensures { is_ok result ≡ keeps_links (links_of (texts names.now.keys) links.now) }
{
    for link in links {
        check_expression(names, &link.operand)?;
    }
    Ok(())
}
