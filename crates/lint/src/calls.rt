//! The calls of services in the bodies of a source.

ghost use Rattle.std.specs.Prelude.{◌≡◌, ◌++◌, [], ℕ, List, None, map, option_map, OnOk, IfOk};
ghost use Rattle.pal_base.specs.View.{texts, id_text, name_of, exprs_of, kind_of, block_of, body_of, stack_body_of, process_of, declaration_of, declared_of};
ghost use Rattle.pal_base.specs.WrittenView.{program_of};
ghost use Rattle.lint.specs.Calls as meant;
ghost use Rattle.lint.specs.Views.{plain_of, created_of, calls_seen, mentions_seen, scope_of};

use crate::mentions::{Mention, add_all, mentions_of};
use crate::names::has_name;
use crate::plain::{Plain, first_plain};
use crate::services::numbered_kind;
use crate::uses::{Created, Id, Scope, id_of};
use apex_types::{ObjectKind, Service};
use indexmap::IndexSet;
use pal_base::syntax::{
    Body, Declaration, DeclarationKind, Expr, Identifier, NameId, Process, Program, StackBody,
    Stmt, StmtKind,
};
use std::alloc::{AllocError, Global};

/// A call of a service, the line of its word, and what its first argument means.
#[derive(Clone, Copy)]
pub struct Call<'a> {
    pub line: u32,
    pub service: Service,
    pub arguments: &'a [Expr],
    pub id: Id,
}

/// The second of some targets.
fn second(targets: &[Identifier]) -> Option<NameId>
    ensures { (names : List (List ℕ))
        → option_map (id_text names) result
        ≡ meant.second_of (map (name_of names) targets.now) }
{
    match targets.split_first() {
        Some((_, others)) => match others.split_first() {
            Some((second, _)) => Some(second.name),
            None => None,
        },
        None => None,
    }
}

/// What a service creates or finds by its name, with the variable that gets the number.
fn numbered(
    kind: Option<ObjectKind>,
    argument: Option<Plain>,
    target: Option<NameId>,
) -> Option<Created>
    ensures { (names : List (List ℕ))
        → option_map (created_of names) result
        ≡ meant.numbered kind (option_map (plain_of names) argument)
        (option_map (id_text names) target) }
{
    match (kind, argument, target) {
        (Some(kind), Some(Plain::Name(object)), Some(variable)) => Some(Created {
            kind,
            object,
            variable,
        }),
        _ => None,
    }
}

/// What was created last, unless one of these variables is written.
fn unless_written(
    names: &IndexSet<String>,
    targets: &[Identifier],
    created: Option<Created>,
) -> Option<Created>
    ensures { option_map (created_of (texts names.now.keys)) result
        ≡ meant.unless_written (map (name_of (texts names.now.keys)) targets.now)
        (option_map (created_of (texts names.now.keys)) created) }
{
    match created {
        Some(last) if !has_name(names, targets, last.variable) => Some(last),
        _ => None,
    }
}

/// What was created last after a statement.
fn left_by(
    names: &IndexSet<String>,
    created: Option<Created>,
    statement: &StmtKind,
) -> Option<Created>
    ensures { option_map (created_of (texts names.now.keys)) result
        ≡ meant.left_by (option_map (created_of (texts names.now.keys)) created)
        (kind_of (texts names.now.keys) statement.now) }
{
    match statement {
        StmtKind::Assign(target, _) => unless_written(names, &[*target], created),
        StmtKind::CallService(service, arguments, targets) => {
            let kind = numbered_kind(*service);
            match numbered(kind, first_plain(arguments), second(targets)) {
                Some(created) => Some(created),
                None => unless_written(names, targets, created),
            }
        }
        StmtKind::If(_, _) => None,
        StmtKind::IfElse(_, _, _) => None,
        StmtKind::While(_, _) => None,
        StmtKind::AssignElement(_, _, _) => created,
        StmtKind::Work(_) => created,
        StmtKind::Return(_) => created,
    }
}

/// Adds the calls of a block of a body.
#[cycle(block_calls)]
fn add_block<'a>(
    names: &IndexSet<String>,
    scope: &Scope<'_, '_, '_>,
    calls: &mut Vec<Call<'a>>,
    block: &'a [Stmt],
) -> Result<(), AllocError>
    ensures { OnOk result
        (calls_seen (texts names.now.keys) calls.new.items
        ≡ calls_seen (texts names.now.keys) calls.old.items
        ++ meant.calls_behind (scope_of (texts names.now.keys) scope.now) None
        (block_of (texts names.now.keys) block.now)) }
{
    let mut created = None;
    for statement in block {
        add_statement(names, scope, calls, created, statement)?;
        created = left_by(names, created, &statement.kind);
    }
    Ok(())
}

/// Adds the calls of a statement of a body.
#[cycle(block_calls)]
fn add_statement<'a>(
    names: &IndexSet<String>,
    scope: &Scope<'_, '_, '_>,
    calls: &mut Vec<Call<'a>>,
    created: Option<Created>,
    statement: &'a Stmt,
) -> Result<(), AllocError>
    ensures { OnOk result
        (calls_seen (texts names.now.keys) calls.new.items
        ≡ calls_seen (texts names.now.keys) calls.old.items
        ++ meant.calls_in (scope_of (texts names.now.keys) scope.now)
        (option_map (created_of (texts names.now.keys)) created)
        (kind_of (texts names.now.keys) statement.now.kind)) }
{
    match &statement.kind {
        StmtKind::If(_, block) => add_block(names, scope, calls, block),
        StmtKind::IfElse(_, block, other) => {
            add_block(names, scope, calls, block)?;
            add_block(names, scope, calls, other)
        }
        StmtKind::While(_, block) => add_block(names, scope, calls, block),
        StmtKind::CallService(service, arguments, _) => {
            let id = id_of(names, scope, created, first_plain(arguments));
            calls.push(Call {
                line: statement.line,
                service: *service,
                arguments,
                id,
            })?;
            Ok(())
        }
        StmtKind::Assign(_, _) => Ok(()),
        StmtKind::AssignElement(_, _, _) => Ok(()),
        StmtKind::Work(_) => Ok(()),
        StmtKind::Return(_) => Ok(()),
    }
}

/// Adds the calls of a body with these parameters, in a program that does this.
fn add_body<'a>(
    alloc: Global,
    names: &IndexSet<String>,
    done: &[Mention<'a>],
    parameters: &'a [Identifier],
    body: &'a Body,
    calls: &mut Vec<Call<'a>>,
) -> Result<(), AllocError>
    ensures { OnOk result
        (calls_seen (texts names.now.keys) calls.new.items
        ≡ calls_seen (texts names.now.keys) calls.old.items
        ++ meant.calls_of (mentions_seen (texts names.now.keys) done.now)
        (map (name_of (texts names.now.keys)) parameters.now)
        (body_of (texts names.now.keys) body.now)) }
{
    let own = mentions_of(alloc, names, body)?;
    let scope = Scope {
        parameters,
        locals: &body.locals,
        own: &own,
        program: done,
    };
    add_block(names, &scope, calls, &body.statements)
}

/// The calls of a body without parameters, in a program that does this.
pub fn calls_of<'a>(
    alloc: Global,
    names: &IndexSet<String>,
    done: &[Mention<'a>],
    body: &'a Body,
) -> Result<Vec<Call<'a>>, AllocError>
    ensures { IfOk result
        (λ calls. calls_seen (texts names.now.keys) calls.items
        ≡ meant.calls_of (mentions_seen (texts names.now.keys) done.now) []
        (body_of (texts names.now.keys) body.now)) }
{
    let mut calls = Vec::new(alloc);
    add_body(alloc, names, done, &[], body, &mut calls)?;
    Ok(calls)
}

/// Adds the calls of the handler, if there is one.
fn add_handler<'a>(
    alloc: Global,
    names: &IndexSet<String>,
    done: &[Mention<'a>],
    handler: &'a Option<StackBody>,
    calls: &mut Vec<Call<'a>>,
) -> Result<(), AllocError>
    ensures { OnOk result
        (calls_seen (texts names.now.keys) calls.new.items
        ≡ calls_seen (texts names.now.keys) calls.old.items
        ++ meant.calls_of_handler (mentions_seen (texts names.now.keys) done.now)
        (option_map (stack_body_of (texts names.now.keys)) handler.now)) }
{
    match handler {
        Some(handler) => add_body(alloc, names, done, &[], &handler.body, calls),
        None => Ok(()),
    }
}

/// Adds the calls of processes.
#[tactic(auto, using(std::proofs::lemmas::List::drop_more))]
fn add_processes<'a>(
    alloc: Global,
    names: &IndexSet<String>,
    done: &[Mention<'a>],
    processes: &'a [Process],
    calls: &mut Vec<Call<'a>>,
) -> Result<(), AllocError>
    ensures { OnOk result
        (calls_seen (texts names.now.keys) calls.new.items
        ≡ calls_seen (texts names.now.keys) calls.old.items
        ++ meant.calls_of_processes (mentions_seen (texts names.now.keys) done.now)
        (map (process_of (texts names.now.keys)) processes.now)) }
{
    for process in processes {
        add_body(alloc, names, done, &[], &process.body, calls)?;
    }
    Ok(())
}

/// Adds the calls of a procedure, if the declaration is one.
fn add_procedure<'a>(
    alloc: Global,
    names: &IndexSet<String>,
    done: &[Mention<'a>],
    kind: &'a DeclarationKind,
    calls: &mut Vec<Call<'a>>,
) -> Result<(), AllocError>
    ensures { OnOk result
        (calls_seen (texts names.now.keys) calls.new.items
        ≡ calls_seen (texts names.now.keys) calls.old.items
        ++ meant.calls_of_kind (mentions_seen (texts names.now.keys) done.now)
        (declared_of (texts names.now.keys) kind.now)) }
{
    match kind {
        DeclarationKind::Procedure { parameters, body } => {
            add_body(alloc, names, done, parameters, body, calls)
        }
        _ => Ok(()),
    }
}

/// Adds the calls of the procedures among declarations, in a program that does this.
#[tactic(auto, using(std::proofs::lemmas::List::drop_more))]
pub fn add_procedures<'a>(
    alloc: Global,
    names: &IndexSet<String>,
    done: &[Mention<'a>],
    declarations: &'a [Declaration],
    calls: &mut Vec<Call<'a>>,
) -> Result<(), AllocError>
    ensures { OnOk result
        (calls_seen (texts names.now.keys) calls.new.items
        ≡ calls_seen (texts names.now.keys) calls.old.items
        ++ meant.calls_of_procedures (mentions_seen (texts names.now.keys) done.now)
        (map (declaration_of (texts names.now.keys)) declarations.now)) }
{
    for declaration in declarations {
        add_procedure(alloc, names, done, &declaration.kind, calls)?;
    }
    Ok(())
}

/// Adds the first value of a variable, if the declaration has one.
fn add_first_value<'a>(
    declaration: &Declaration,
    mentions: &mut Vec<Mention<'a>>,
) -> Result<(), AllocError>
    ensures { OnOk result
        ((names : List (List ℕ))
        → mentions_seen names mentions.new.items
        ≡ mentions_seen names mentions.old.items
        ++ meant.first_value (declared_of names declaration.now.kind)
        (name_of names declaration.now.name)) }
{
    match &declaration.kind {
        DeclarationKind::Variable(Some(_)) => {
            mentions.push(Mention::Write(declaration.name.name, None))?;
            Ok(())
        }
        DeclarationKind::Variable(None) => Ok(()),
        DeclarationKind::Array { .. } => Ok(()),
        DeclarationKind::Semaphore { .. } => Ok(()),
        DeclarationKind::Event => Ok(()),
        DeclarationKind::Buffer { .. } => Ok(()),
        DeclarationKind::Blackboard { .. } => Ok(()),
        DeclarationKind::Port => Ok(()),
        DeclarationKind::Procedure { .. } => Ok(()),
    }
}

/// Adds the first values of variables.
#[tactic(auto, using(std::proofs::lemmas::List::drop_more))]
fn add_first_values<'a>(
    names: &IndexSet<String>,
    declarations: &[Declaration],
    mentions: &mut Vec<Mention<'a>>,
) -> Result<(), AllocError>
    ensures { OnOk result
        (mentions_seen (texts names.now.keys) mentions.new.items
        ≡ mentions_seen (texts names.now.keys) mentions.old.items
        ++ meant.first_values (map (declaration_of (texts names.now.keys)) declarations.now)) }
{
    for declaration in declarations {
        add_first_value(declaration, mentions)?;
    }
    Ok(())
}

/// What the statements of a program do, and its first values.
pub fn done_in(alloc: Global, program: &Program) -> Result<Vec<Mention<'_>>, AllocError>
    ensures { IfOk result
        (λ mentions. mentions_seen (texts program.now.names.keys) mentions.items
        ≡ meant.done_in (program_of program.now)) }
{
    let mut mentions = Vec::new(alloc);
    add_first_values(&program.names, &program.declarations, &mut mentions)?;
    add_all(&mut mentions, program)?;
    Ok(mentions)
}

/// The calls of all bodies of a program that does this.
pub fn all_calls<'a>(
    alloc: Global,
    program: &'a Program,
    done: &[Mention<'a>],
) -> Result<Vec<Call<'a>>, AllocError>
    requires { mentions_seen (texts program.now.names.keys) done.now
        ≡ meant.done_in (program_of program.now) }
    ensures { IfOk result
        (λ calls. calls_seen (texts program.now.names.keys) calls.items
        ≡ meant.all_calls (program_of program.now)) }
{
    let names = &program.names;
    let mut calls = calls_of(alloc, names, done, &program.init.body)?;
    add_handler(alloc, names, done, &program.handler, &mut calls)?;
    add_processes(alloc, names, done, &program.processes, &mut calls)?;
    add_procedures(alloc, names, done, &program.declarations, &mut calls)?;
    Ok(calls)
}
