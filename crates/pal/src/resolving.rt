//! The program with its names resolved. A value that is refused elsewhere is 0 here: a number
//! beyond its limit, or a name of the wrong kind.

ghost use Rattle.std.specs.Prelude.{◌≡◌, ◌++◌, ◌-◌, ◌^◌, List, ℕ, pos, map, length, replicate, flat_map, filter_map, option_map, true, IfOk, OnOk};
ghost use Rattle.std.specs.List.{list_all};
ghost use Rattle.apex_types.specs.NameText.{is_name};
ghost use Rattle.apex_types.specs.Limits.{MOST_SEMAPHORE_VALUE};
ghost use Rattle.pal_meaning.specs.Program as tree;
ghost use Rattle.pal_meaning.specs.Resolve as meant;
ghost use Rattle.pal_meaning.specs.Resolve.{no_counts, counts_of, words_of, array_words, semaphore_of, buffer_of, blackboard_of, resolve_expr, resolve_exprs, resolve_links, resolve_stmt, resolve_block};
ghost use Rattle.pal_meaning.specs.WellFormed.{keeps_declaration, keeps_process};
ghost use Rattle.pal_base.specs.View as view;
ghost use Rattle.pal_base.specs.WrittenView as written;
ghost use Rattle.pal_base.specs.View.{texts, name_of, number_of, integer_of};
ghost use Rattle.pal_base.specs.ProgramView as shown;
ghost use Rattle.pal.specs.Tables.{entries_of};
ghost use Rattle.pal.specs.Scopes.{names_of, sees};
ghost use Rattle.pal.specs.Parts.{limits_hold_among, resolve_among, exprs_onto};
ghost use Rattle.pal.specs.ProcedureNames.{names_of_procedures, procedure_names};

use crate::meanings::Counts;
use crate::numbers::{limited, signed_word_of, word_of};
use crate::scope::{Scope, enter_body};
use crate::table::{NameTable, text_of};
use apex_types::limits::{
    GREATEST_PRIORITY, MOST_DATA_WORDS, MOST_DEPTH, MOST_LOCALS, MOST_PARAMETERS,
    MOST_SEMAPHORE_VALUE, MOST_STACK_WORDS, MOST_TICKS, MOST_WORDS, MOST_WORK_TICKS,
};
use apex_types::{
    ArgumentKind, BlackboardRow, BufferRow, Discipline, Name, Place, Priority, SemaphoreRow,
};
use indexmap::IndexSet;
use pal_base::program;
use pal_base::syntax::{
    Body, Declaration, DeclarationKind, Expr, Identifier, Link, Numeral, Process, Program,
    StackBody, Stmt, StmtKind,
};
use std::alloc::{AllocError, Global};

/// The program with its names resolved, if no limit is passed.
pub fn resolve(
    alloc: Global,
    declared: &NameTable,
    program: &Program,
) -> Result<program::Program, AllocError>
    requires { limits_hold_among (entries_of declared.now) (written.program_of program.now) ≡ true }
    ensures resolved { IfOk result
        (λ resolved. shown.program_of resolved
        ≡ resolve_among (entries_of declared.now) (written.program_of program.now)) }
    ensures named { IfOk result
        (λ resolved. names_of_procedures resolved.procedures.items
        ≡ procedure_names (written.program_of program.now).declarations) }
{
    let names = &program.names;
    let declarations = &program.declarations;
    Ok(program::Program {
        initial: initial_of(alloc, declarations)?,
        semaphores: semaphores_of(alloc, declarations)?,
        events: events_of(declarations),
        buffers: buffers_of(alloc, declarations)?,
        blackboards: blackboards_of(alloc, declarations)?,
        procedures: resolve_procedures(alloc, names, declared, declarations)?,
        init: resolve_body(
            alloc,
            names,
            declared,
            &program.init.stack,
            &program.init.body,
        )?,
        handler: resolve_handler(alloc, names, declared, &program.handler)?,
        processes: resolve_processes(alloc, names, declared, &program.processes)?,
    })
}

/// The words of the variables and arrays in the order of declaration.
fn initial_of(alloc: Global, declarations: &[Declaration]) -> Result<Vec<i64>, AllocError>
    ensures { IfOk result
        (λ words. (names : List (List ℕ))
        → words.items
        ≡ flat_map (λ d. words_of d.kind) (map (view.declaration_of names) declarations.now)) }
{
    let mut words = Vec::new(alloc);
    for declaration in declarations {
        push_words(&mut words, &declaration.kind)?;
    }
    Ok(words)
}

/// The words that a declaration makes.
fn push_words(words: &mut Vec<i64>, kind: &DeclarationKind) -> Result<(), AllocError>
    ensures { OnOk result
        ((names : List (List ℕ))
        → words.new.items ≡ words.old.items ++ words_of (view.declared_of names kind.now)) }
{
    match kind {
        DeclarationKind::Variable(Some(value)) => words.push(signed_word_of(value))?,
        DeclarationKind::Variable(None) => words.push(0)?,
        DeclarationKind::Array { size, values } => {
            let size = limited(MOST_DATA_WORDS as u64, size) as usize;
            push_values(words, values)?;
            push_zeros(words, size.saturating_sub(values.len()))?;
        }
        _ => {}
    }
    Ok(())
}

fn push_values(words: &mut Vec<i64>, values: &[Numeral]) -> Result<(), AllocError>
    ensures { OnOk result
        (words.new.items ≡ words.old.items ++ map meant.signed_word (map integer_of values.now)) }
{
    for value in values {
        words.push(signed_word_of(value))?;
    }
    Ok(())
}

fn push_zeros(words: &mut Vec<i64>, count: usize) -> Result<(), AllocError>
    ensures { OnOk result (words.new.items ≡ words.old.items ++ replicate count (pos 0)) }
{
    words.reserve(count)?;
    words.resize(words.len() + count, 0)?;
    Ok(())
}

fn semaphore_row(first: &Numeral, maximum: &Numeral, discipline: Discipline) -> SemaphoreRow
    ensures value { result.value ≡ meant.within MOST_SEMAPHORE_VALUE (number_of first.now) }
    ensures maximum { result.maximum ≡ meant.within MOST_SEMAPHORE_VALUE (number_of maximum.now) }
    ensures discipline { result.discipline ≡ discipline }
{
    SemaphoreRow {
        value: limited(MOST_SEMAPHORE_VALUE as u64, first) as u32,
        maximum: limited(MOST_SEMAPHORE_VALUE as u64, maximum) as u32,
        discipline,
    }
}

fn semaphores_of(
    alloc: Global,
    declarations: &[Declaration],
) -> Result<Vec<SemaphoreRow>, AllocError>
    ensures { IfOk result
        (λ rows. (names : List (List ℕ))
        → rows.items
        ≡ filter_map (λ d. semaphore_of d.kind)
        (map (view.declaration_of names) declarations.now)) }
{
    let mut rows = Vec::new(alloc);
    for declaration in declarations {
        if let DeclarationKind::Semaphore {
            first,
            maximum,
            discipline,
        } = &declaration.kind
        {
            rows.push(semaphore_row(first, maximum, *discipline))?;
        }
    }
    Ok(rows)
}

/// The number of declared events, up to the most.
fn events_of(declarations: &[Declaration]) -> u8
    ensures { (names : List (List ℕ))
        → result ≡ (counts_of no_counts (map (view.declaration_of names) declarations.now)).events }
{
    let mut counts = Counts::NONE;
    for declaration in declarations {
        counts = counts.after(&declaration.kind).unwrap_or(counts);
    }
    counts.events
}

fn buffers_of(alloc: Global, declarations: &[Declaration]) -> Result<Vec<BufferRow>, AllocError>
    ensures { IfOk result
        (λ rows. (names : List (List ℕ))
        → rows.items
        ≡ filter_map (λ d. buffer_of d.kind)
        (map (view.declaration_of names) declarations.now)) }
{
    let mut rows = Vec::new(alloc);
    for declaration in declarations {
        if let DeclarationKind::Buffer {
            words,
            messages,
            discipline,
        } = &declaration.kind
        {
            rows.push(BufferRow {
                words: limited(MOST_WORDS as u64, words) as u8,
                depth: limited(MOST_DEPTH as u64, messages) as u8,
                discipline: *discipline,
            })?;
        }
    }
    Ok(rows)
}

fn blackboards_of(
    alloc: Global,
    declarations: &[Declaration],
) -> Result<Vec<BlackboardRow>, AllocError>
    ensures { IfOk result
        (λ rows. (names : List (List ℕ))
        → rows.items
        ≡ filter_map (λ d. blackboard_of d.kind)
        (map (view.declaration_of names) declarations.now)) }
{
    let mut rows = Vec::new(alloc);
    for declaration in declarations {
        if let DeclarationKind::Blackboard { words } = &declaration.kind {
            rows.push(BlackboardRow {
                words: limited(MOST_WORDS as u64, words) as u8,
            })?;
        }
    }
    Ok(rows)
}

/// The name of a process or a procedure.
fn name_at(names: &IndexSet<String>, name: Identifier) -> Name
    requires { is_name (name_of (texts names.now.keys) name) ≡ true }
    ensures { result ≡ name_of (texts names.now.keys) name }
{
    Name::new(text_of(names, name.name).as_bytes()).unwrap()
}

/// A count up to a limit; beyond that it is 0.
pub fn limited_count(limit: u8, count: usize) -> u8
    ensures { result ≡ meant.count_within limit count }
{
    if count <= limit as usize {
        count as u8
    } else {
        0
    }
}

fn resolve_procedures(
    alloc: Global,
    names: &IndexSet<String>,
    declared: &NameTable,
    declarations: &[Declaration],
) -> Result<Vec<program::Procedure>, AllocError>
    requires { list_all (keeps_declaration (entries_of declared.now))
        (map (view.declaration_of (texts names.now.keys)) declarations.now)
        ≡ true }
    ensures procedures { IfOk result
        (λ procedures. map shown.procedure_of procedures.items
        ≡ filter_map (λ d. meant.procedure_of (entries_of declared.now) d.kind)
        (map (view.declaration_of (texts names.now.keys)) declarations.now)) }
    ensures named { IfOk result
        (λ procedures. names_of_procedures procedures.items
        ≡ procedure_names (map (view.declaration_of (texts names.now.keys)) declarations.now)) }
{
    let mut procedures = Vec::new(alloc);
    for declaration in declarations {
        if let DeclarationKind::Procedure { parameters, body } = &declaration.kind {
            let name = name_at(names, declaration.name);
            procedures.push(program::Procedure {
                name,
                parameters: limited_count(MOST_PARAMETERS, parameters.len()),
                locals: limited_count(MOST_LOCALS, body.locals.len()),
                block: resolve_statements(alloc, names, declared, parameters, body)?,
            })?;
        }
    }
    Ok(procedures)
}

/// The body of INIT, of the handler or of a process, and its stack.
pub fn resolve_body(
    alloc: Global,
    names: &IndexSet<String>,
    declared: &NameTable,
    stack: &Numeral,
    body: &Body,
) -> Result<program::Body, AllocError>
    ensures { IfOk result
        (λ resolved. shown.body_of resolved
        ≡ meant.resolve_body (entries_of declared.now) (number_of stack.now)
        (view.body_of (texts names.now.keys) body.now)) }
{
    Ok(program::Body {
        stack: limited(MOST_STACK_WORDS as u64, stack) as u16,
        locals: limited_count(MOST_LOCALS, body.locals.len()),
        block: resolve_statements(alloc, names, declared, &[], body)?,
    })
}

fn resolve_handler(
    alloc: Global,
    names: &IndexSet<String>,
    declared: &NameTable,
    handler: &Option<StackBody>,
) -> Result<Option<program::Body>, AllocError>
    ensures { IfOk result
        (λ resolved. option_map shown.body_of resolved
        ≡ option_map (meant.resolve_stack_body (entries_of declared.now))
        (option_map (view.stack_body_of (texts names.now.keys)) handler.now)) }
{
    match handler {
        Some(handler) => {
            let body = resolve_body(alloc, names, declared, &handler.stack, &handler.body)?;
            Ok(Some(body))
        }
        None => Ok(None),
    }
}

fn resolve_processes(
    alloc: Global,
    names: &IndexSet<String>,
    declared: &NameTable,
    processes: &[Process],
) -> Result<Vec<program::Process>, AllocError>
    requires { list_all (keeps_process (entries_of declared.now))
        (map (view.process_of (texts names.now.keys)) processes.now)
        ≡ true }
    ensures { IfOk result
        (λ resolved. map shown.process_of resolved.items
        ≡ map (meant.resolve_process (entries_of declared.now))
        (map (view.process_of (texts names.now.keys)) processes.now)) }
{
    let mut resolved = Vec::new(alloc);
    for process in processes {
        resolved.push(resolve_process(alloc, names, declared, process)?)?;
    }
    Ok(resolved)
}

fn resolve_process(
    alloc: Global,
    names: &IndexSet<String>,
    declared: &NameTable,
    process: &Process,
) -> Result<program::Process, AllocError>
    requires { keeps_process (entries_of declared.now)
        (view.process_of (texts names.now.keys) process.now) ≡ true }
    ensures { IfOk result
        (λ resolved. shown.process_of resolved
        ≡ meant.resolve_process (entries_of declared.now)
        (view.process_of (texts names.now.keys) process.now)) }
{
    Ok(program::Process {
        name: name_at(names, process.name),
        priority: Priority(limited(GREATEST_PRIORITY as u64, &process.priority) as u8),
        period: time_of(&process.period),
        capacity: time_of(&process.capacity),
        body: resolve_body(alloc, names, declared, &process.stack, &process.body)?,
    })
}

/// A time in ticks; one with a minus sign is infinite.
fn time_of(number: &Numeral) -> Option<u64>
    ensures { result ≡ meant.time_of (integer_of number.now) }
{
    if number.negative {
        None
    } else {
        Some(limited(MOST_TICKS, number))
    }
}

/// The statements of a body with these parameters.
pub fn resolve_statements(
    alloc: Global,
    names: &IndexSet<String>,
    declared: &NameTable,
    parameters: &[Identifier],
    body: &Body,
) -> Result<Vec<program::Stmt>, AllocError>
    ensures { IfOk result
        (λ block. shown.block_of block.items
        ≡ meant.resolve_body_block (entries_of declared.now)
        (map (name_of (texts names.now.keys)) parameters.now)
        (view.body_of (texts names.now.keys) body.now)) }
{
    let entered = enter_body(alloc, names, declared, parameters, &body.locals)?;
    resolve_block(alloc, &entered.scope, &body.statements)
}

#[cycle(resolve_statement)]
fn resolve_block(
    alloc: Global,
    scope: &Scope,
    block: &[Stmt],
) -> Result<Vec<program::Stmt>, AllocError>
    ensures { IfOk result
        (λ resolved. shown.block_of resolved.items
        ≡ resolve_block (sees scope.now) (view.block_of (names_of scope.now) block.now)) }
{
    let mut statements = Vec::new(alloc);
    for statement in block {
        statements.push(resolve_statement(alloc, scope, &statement.kind)?)?;
    }
    Ok(statements)
}

#[cycle(resolve_statement)]
fn resolve_statement(
    alloc: Global,
    scope: &Scope,
    statement: &StmtKind,
) -> Result<program::Stmt, AllocError>
    ensures { IfOk result
        (λ resolved. shown.stmt_of resolved
        ≡ resolve_stmt (sees scope.now) (view.kind_of (names_of scope.now) statement.now)) }
{
    match statement {
        StmtKind::Assign(target, value) => {
            let value = resolve_expression(alloc, scope, value)?;
            Ok(program::Stmt::Assign(scope.place(*target), value))
        }
        StmtKind::AssignElement(array, index, value) => {
            let (place, size) = scope.array(*array);
            let index = resolve_expression(alloc, scope, index)?;
            let value = resolve_expression(alloc, scope, value)?;
            Ok(program::Stmt::AssignElement(place, size, index, value))
        }
        StmtKind::If(test, then) => {
            let test = resolve_expression(alloc, scope, test)?;
            let then = resolve_block(alloc, scope, then)?;
            Ok(program::Stmt::If(test, then))
        }
        StmtKind::IfElse(test, then, other) => {
            let test = resolve_expression(alloc, scope, test)?;
            let then = resolve_block(alloc, scope, then)?;
            let other = resolve_block(alloc, scope, other)?;
            Ok(program::Stmt::IfElse(test, then, other))
        }
        StmtKind::While(test, block) => {
            let test = resolve_expression(alloc, scope, test)?;
            let block = resolve_block(alloc, scope, block)?;
            Ok(program::Stmt::While(test, block))
        }
        StmtKind::Work(ticks) => Ok(program::Stmt::Work(
            limited(MOST_WORK_TICKS as u64, ticks) as u32,
        )),
        StmtKind::Return(value) => {
            let value = resolve_expression(alloc, scope, value)?;
            Ok(program::Stmt::Return(value))
        }
        StmtKind::CallService(service, arguments, targets) => {
            let kinds = service.arguments();
            let arguments = resolve_arguments(alloc, scope, kinds, arguments)?;
            let targets = resolve_targets(alloc, scope, targets)?;
            Ok(program::Stmt::CallService(*service, arguments, targets))
        }
    }
}

fn resolve_targets(
    alloc: Global,
    scope: &Scope,
    targets: &[Identifier],
) -> Result<Vec<Place>, AllocError>
    ensures { IfOk result
        (λ places. places.items
        ≡ map (λ x. meant.place_of (sees scope.now x))
        (map (name_of (names_of scope.now)) targets.now)) }
{
    let mut places = Vec::new(alloc);
    for target in targets {
        places.push(scope.place(*target))?;
    }
    Ok(places)
}

/// The arguments of a service: a name is its number, an array its place and its size.
fn resolve_arguments(
    alloc: Global,
    scope: &Scope,
    kinds: &[ArgumentKind],
    arguments: &[Expr],
) -> Result<Vec<program::Expr>, AllocError>
    ensures { IfOk result
        (λ words. shown.exprs_of words.items
        ≡ meant.resolve_arguments (sees scope.now) kinds.now
        (view.exprs_of (names_of scope.now) arguments.now)) }
{
    let mut words = Vec::new(alloc);
    push_arguments(alloc, &mut words, scope, kinds, arguments)?;
    Ok(words)
}

fn push_arguments(
    alloc: Global,
    words: &mut Vec<program::Expr>,
    scope: &Scope,
    kinds: &[ArgumentKind],
    arguments: &[Expr],
) -> Result<(), AllocError>
    ensures { OnOk result
        (shown.exprs_of words.new.items
        ≡ exprs_onto words.old.items
        (meant.resolve_arguments (sees scope.now) kinds.now
        (view.exprs_of (names_of scope.now) arguments.now))) }
{
    match (kinds.split_first(), arguments.split_first()) {
        (Some((kind, kinds)), Some((argument, arguments))) => {
            push_argument(alloc, words, scope, *kind, argument)?;
            push_arguments(alloc, words, scope, kinds, arguments)
        }
        _ => Ok(()),
    }
}

fn push_argument(
    alloc: Global,
    words: &mut Vec<program::Expr>,
    scope: &Scope,
    kind: ArgumentKind,
    argument: &Expr,
) -> Result<(), AllocError>
    ensures { OnOk result
        ((rest : tree.Exprs)
        → exprs_onto words.new.items rest
        ≡ exprs_onto words.old.items
        (meant.resolve_argument (sees scope.now) kind
        (view.expr_of (names_of scope.now) argument.now) rest)) }
{
    match kind {
        ArgumentKind::Word => words.push(resolve_expression(alloc, scope, argument)?)?,
        ArgumentKind::Array => {
            words.push(array_place(scope, argument))?;
            words.push(array_size(scope, argument))?;
        }
        ArgumentKind::Object(_) => words.push(object_number(scope, argument))?,
    }
    Ok(())
}

/// The place of the array that an argument names, as a word.
fn array_place(scope: &Scope, argument: &Expr) -> program::Expr
    ensures { shown.expr_of result
        ≡ tree.Literal
        (pos
        (meant.array_place_of
        (meant.named (sees scope.now) (view.expr_of (names_of scope.now) argument.now)))) }
{
    program::Expr::Literal(named_array_place(scope, argument) as i64)
}

/// The size of the array that an argument names.
fn array_size(scope: &Scope, argument: &Expr) -> program::Expr
    ensures { shown.expr_of result
        ≡ tree.Literal
        (meant.array_size_of
        (meant.named (sees scope.now) (view.expr_of (names_of scope.now) argument.now))) }
{
    program::Expr::Literal(named_array_size(scope, argument))
}

/// The number of the object that an argument names, as a word.
fn object_number(scope: &Scope, argument: &Expr) -> program::Expr
    ensures { shown.expr_of result
        ≡ tree.Literal
        (pos
        (meant.object_number_of
        (meant.named (sees scope.now) (view.expr_of (names_of scope.now) argument.now)))) }
{
    program::Expr::Literal(named_number(scope, argument) as i64)
}

fn named_array_place(scope: &Scope, argument: &Expr) -> u32
    ensures { result
        ≡ meant.array_place_of
        (meant.named (sees scope.now) (view.expr_of (names_of scope.now) argument.now)) }
{
    match argument {
        Expr::Name(name) => scope.array(*name).0,
        _ => 0,
    }
}

fn named_array_size(scope: &Scope, argument: &Expr) -> i64
    ensures { result
        ≡ meant.array_size_of
        (meant.named (sees scope.now) (view.expr_of (names_of scope.now) argument.now)) }
{
    match argument {
        Expr::Name(name) => scope.array(*name).1,
        _ => 0,
    }
}

fn named_number(scope: &Scope, argument: &Expr) -> u32
    ensures { result
        ≡ meant.object_number_of
        (meant.named (sees scope.now) (view.expr_of (names_of scope.now) argument.now)) }
{
    match argument {
        Expr::Name(name) => scope.number(*name),
        _ => 0,
    }
}

#[cycle(resolve_expression)]
fn resolve_expression(
    alloc: Global,
    scope: &Scope,
    expression: &Expr,
) -> Result<program::Expr, AllocError>
    ensures { IfOk result
        (λ resolved. shown.expr_of resolved
        ≡ resolve_expr (sees scope.now) (view.expr_of (names_of scope.now) expression.now)) }
{
    match expression {
        Expr::Number(number) => Ok(program::Expr::Literal(word_of(number))),
        Expr::Name(name) => Ok(program::Expr::Read(scope.place(*name))),
        Expr::Element(array, index) => {
            let (place, size) = scope.array(*array);
            let index = Box::new(alloc, resolve_expression(alloc, scope, index)?)?;
            Ok(program::Expr::Element(place, size, index))
        }
        Expr::Apply(procedure, arguments) => {
            let arguments = resolve_expressions(alloc, scope, arguments)?;
            Ok(program::Expr::Apply(scope.procedure(*procedure), arguments))
        }
        Expr::Parenthesis(inside) => resolve_expression(alloc, scope, inside),
        Expr::Unary(operator, operand) => {
            let operand = Box::new(alloc, resolve_expression(alloc, scope, operand)?)?;
            Ok(program::Expr::Unary(*operator, operand))
        }
        Expr::Chain(first, rest) => {
            let first = Box::new(alloc, resolve_expression(alloc, scope, first)?)?;
            let rest = resolve_links(alloc, scope, rest)?;
            Ok(program::Expr::Chain(first, rest))
        }
    }
}

#[cycle(resolve_expression)]
fn resolve_expressions(
    alloc: Global,
    scope: &Scope,
    expressions: &[Expr],
) -> Result<Vec<program::Expr>, AllocError>
    ensures { IfOk result
        (λ resolved. shown.exprs_of resolved.items
        ≡ resolve_exprs (sees scope.now) (view.exprs_of (names_of scope.now) expressions.now)) }
{
    let mut resolved = Vec::new(alloc);
    for expression in expressions {
        resolved.push(resolve_expression(alloc, scope, expression)?)?;
    }
    Ok(resolved)
}

#[cycle(resolve_expression)]
fn resolve_links(
    alloc: Global,
    scope: &Scope,
    links: &[Link],
) -> Result<Vec<program::Link>, AllocError>
    ensures { IfOk result
        (λ resolved. shown.links_of resolved.items
        ≡ resolve_links (sees scope.now) (view.links_of (names_of scope.now) links.now)) }
{
    let mut resolved = Vec::new(alloc);
    for link in links {
        let operand = resolve_expression(alloc, scope, &link.operand)?;
        resolved.push(program::Link {
            operator: link.operator,
            operand,
        })?;
    }
    Ok(resolved)
}
