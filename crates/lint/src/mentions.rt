//! What the statements of bodies do: the names that they read and write, and what else findings
//! are about.

ghost use Rattle.std.specs.Prelude.{◌≡◌, ◌≤◌, ◌++◌, ◌∷◌, [], ℕ, List, None, Some, drop, length, map, option_map, OnOk, IfOk};
ghost use Rattle.std.specs.List.{list_any};
ghost use Rattle.pal_base.specs.View.{texts, id_text, name_of, expr_of, exprs_of, links_of, kind_of, block_of, body_of, stack_body_of, process_of, declaration_of, declared_of};
ghost use Rattle.pal_base.specs.WrittenView.{program_of};
ghost use Rattle.lint.specs.Mentions as meant;
ghost use Rattle.lint.specs.Plain.{last_or, number_in, plain, plains};
ghost use Rattle.lint.specs.Views.{mention_of, mentions_seen, plain_of, thing_of};

use crate::plain::{
    Plain, argument_of, first_plain, is_other_than_zero, is_zero, last_plain, number_in,
};
use crate::services::{always_waits, ends_caller, has_time_out, is_error_status, numbered_kind};
use apex_types::{BinaryOperator, ObjectKind, Service};
use indexmap::IndexSet;
use pal_base::syntax::{
    Body, Declaration, DeclarationKind, Expr, Identifier, Link, NameId, Process, Program,
    StackBody, Stmt, StmtKind,
};
use std::alloc::{AllocError, Global};

/// What the number is of that a service returns.
#[derive(Clone, Copy)]
pub enum Thing {
    /// An object, a port or a process that it creates or finds by its name.
    Object(ObjectKind, NameId),
    /// The process that has failed.
    Failure,
}

/// What a statement does.
#[derive(Clone, Copy)]
pub enum Mention<'a> {
    Read(NameId),
    /// An element, with its index if that is a number as it is written.
    Element(Identifier, Option<u64>),
    /// A call of a procedure, with its arguments.
    Apply(NameId, &'a [Expr]),
    /// A write of a variable, with the thing whose number it gets, if it is that of one.
    Write(NameId, Option<Thing>),
    /// A division by the number 0, at a line.
    ByZero(u32),
    /// The test of an `if` or a `while`.
    Test,
    /// A service; true if its caller may wait or end.
    Ask(bool),
    Leave,
    /// A loop that has no end, in which nothing waits, at a line.
    Endless(u32),
}

/// Adds a mention.
fn add_mention<'a>(
    names: &IndexSet<String>,
    mentions: &mut Vec<Mention<'a>>,
    mention: Mention<'a>,
) -> Result<(), AllocError>
    ensures { OnOk result
        (mentions_seen (texts names.now.keys) mentions.new.items
        ≡ mentions_seen (texts names.now.keys) mentions.old.items
        ++ mention_of (texts names.now.keys) mention.entry ∷ []) }
{
    mentions.push(mention)?;
    Ok(())
}

/// Returns true if an operator divides.
fn divides(operator: BinaryOperator) -> bool
    ensures { result ≡ meant.divides operator }
{
    matches!(operator, BinaryOperator::Divide | BinaryOperator::Remainder)
}

/// The line of an operand that is a number, else 0.
fn line_of(operand: &Expr) -> u32 {
    match operand {
        Expr::Number(number) => number.line,
        _ => 0,
    }
}

/// Adds a division by the number 0, if it is one.
fn add_division<'a>(
    names: &IndexSet<String>,
    mentions: &mut Vec<Mention<'a>>,
    link: &'a Link,
) -> Result<(), AllocError>
    ensures { OnOk result
        (mentions_seen (texts names.now.keys) mentions.new.items
        ≡ mentions_seen (texts names.now.keys) mentions.old.items
        ++ meant.by_zero link.now.operator (expr_of (texts names.now.keys) link.now.operand)) }
{
    if divides(link.operator) && is_zero(Some(argument_of(&link.operand))) {
        mentions.push(Mention::ByZero(line_of(&link.operand)))?;
    }
    Ok(())
}

/// An element of an array with this index.
fn element_of<'a>(array: Identifier, index: &Expr) -> Mention<'a>
    ensures { (names : List (List ℕ))
        → mention_of names result
        ≡ meant.Element (name_of names array)
        (number_in (Some (plain (expr_of names index.now)))) }
{
    Mention::Element(array, number_in(Some(argument_of(index))))
}

/// Adds the mentions in an expression.
#[cycle(expression_mentions)]
fn add_expression<'a>(
    names: &IndexSet<String>,
    mentions: &mut Vec<Mention<'a>>,
    expression: &'a Expr,
) -> Result<(), AllocError>
    ensures { OnOk result
        (mentions_seen (texts names.now.keys) mentions.new.items
        ≡ mentions_seen (texts names.now.keys) mentions.old.items
        ++ meant.in_expr (expr_of (texts names.now.keys) expression.now)) }
{
    match expression {
        Expr::Number(_) => Ok(()),
        Expr::Name(name) => add_mention(names, mentions, Mention::Read(name.name)),
        Expr::Element(array, index) => {
            add_mention(names, mentions, element_of(*array, index))?;
            add_expression(names, mentions, index)
        }
        Expr::Apply(procedure, arguments) => {
            let arguments = arguments.as_slice();
            add_mention(names, mentions, Mention::Apply(procedure.name, arguments))?;
            add_expressions(names, mentions, arguments)
        }
        Expr::Parenthesis(inside) => add_expression(names, mentions, inside),
        Expr::Unary(_, operand) => add_expression(names, mentions, operand),
        Expr::Chain(first, rest) => {
            add_expression(names, mentions, first)?;
            add_links(names, mentions, rest)
        }
    }
}

/// Adds the mentions in expressions.
#[cycle(expression_mentions)]
fn add_expressions<'a>(
    names: &IndexSet<String>,
    mentions: &mut Vec<Mention<'a>>,
    expressions: &'a [Expr],
) -> Result<(), AllocError>
    ensures { OnOk result
        (mentions_seen (texts names.now.keys) mentions.new.items
        ≡ mentions_seen (texts names.now.keys) mentions.old.items
        ++ meant.in_exprs (exprs_of (texts names.now.keys) expressions.now)) }
{
    for expression in expressions {
        add_expression(names, mentions, expression)?;
    }
    Ok(())
}

/// Adds the mentions in an operator and its right operand.
#[cycle(expression_mentions)]
fn add_link<'a>(
    names: &IndexSet<String>,
    mentions: &mut Vec<Mention<'a>>,
    link: &'a Link,
) -> Result<(), AllocError>
    ensures { OnOk result
        (mentions_seen (texts names.now.keys) mentions.new.items
        ≡ mentions_seen (texts names.now.keys) mentions.old.items
        ++ (meant.by_zero link.now.operator (expr_of (texts names.now.keys) link.now.operand)
        ++ meant.in_expr (expr_of (texts names.now.keys) link.now.operand))) }
{
    add_division(names, mentions, link)?;
    add_expression(names, mentions, &link.operand)
}

/// Adds the mentions in operators and their right operands.
#[cycle(expression_mentions)]
fn add_links<'a>(
    names: &IndexSet<String>,
    mentions: &mut Vec<Mention<'a>>,
    links: &'a [Link],
) -> Result<(), AllocError>
    ensures { OnOk result
        (mentions_seen (texts names.now.keys) mentions.new.items
        ≡ mentions_seen (texts names.now.keys) mentions.old.items
        ++ meant.in_links (links_of (texts names.now.keys) links.now)) }
{
    for link in links {
        add_link(names, mentions, link)?;
    }
    Ok(())
}

/// The object, the port or the process of this kind that an argument names.
fn object_thing(kind: Option<ObjectKind>, argument: Option<Plain>) -> Option<Thing>
    ensures { (names : List (List ℕ))
        → option_map (thing_of names) result
        ≡ meant.object_thing kind (option_map (plain_of names) argument) }
{
    match (kind, argument) {
        (Some(kind), Some(Plain::Name(name))) => Some(Thing::Object(kind, name)),
        _ => None,
    }
}

/// The thing whose number a service with this first argument returns as its output of this place.
fn thing_at(service: Service, argument: Option<Plain>, place: usize) -> Option<Thing>
    ensures { (names : List (List ℕ))
        → option_map (thing_of names) result
        ≡ meant.thing_at service (option_map (plain_of names) argument) place }
{
    if place == 1 {
        object_thing(numbered_kind(service), argument)
    } else if is_error_status(service) && place == 2 {
        Some(Thing::Failure)
    } else {
        None
    }
}

/// Adds the writes of the targets of a service with this first argument.
#[tactic(auto, using(std::proofs::lemmas::List::drop_more))]
fn add_targets<'a>(
    names: &IndexSet<String>,
    mentions: &mut Vec<Mention<'a>>,
    service: Service,
    argument: Option<Plain>,
    targets: &[Identifier],
) -> Result<(), AllocError>
    ensures { OnOk result
        (mentions_seen (texts names.now.keys) mentions.new.items
        ≡ mentions_seen (texts names.now.keys) mentions.old.items
        ++ meant.in_targets service (option_map (plain_of (texts names.now.keys)) argument) 0
        (map (name_of (texts names.now.keys)) targets.now)) }
{
    let mut place: usize = 0;
    for target in targets {
        let thing = thing_at(service, argument, place);
        add_mention(names, mentions, Mention::Write(target.name, thing))?;
        place += 1;
    }
    Ok(())
}

/// Returns true if the caller of a service with these arguments may wait or end.
fn gives_way(service: Service, arguments: &[Expr]) -> bool
    ensures { (names : List (List ℕ))
        → result
        ≡ meant.gives_way service (last_or None (plains (exprs_of names arguments.now))) }
{
    if always_waits(service) {
        true
    } else if ends_caller(service) {
        true
    } else if has_time_out(service) {
        !is_zero(last_plain(arguments))
    } else {
        false
    }
}

/// Adds the test of an `if` or a `while`.
fn add_test<'a>(
    names: &IndexSet<String>,
    mentions: &mut Vec<Mention<'a>>,
    test: &'a Expr,
) -> Result<(), AllocError>
    ensures { OnOk result
        (mentions_seen (texts names.now.keys) mentions.new.items
        ≡ mentions_seen (texts names.now.keys) mentions.old.items
        ++ meant.Test ∷ meant.in_expr (expr_of (texts names.now.keys) test.now)) }
{
    add_mention(names, mentions, Mention::Test)?;
    add_expression(names, mentions, test)
}

/// Adds a service, its arguments and its targets.
fn add_service<'a>(
    names: &IndexSet<String>,
    mentions: &mut Vec<Mention<'a>>,
    service: Service,
    arguments: &'a [Expr],
    targets: &[Identifier],
) -> Result<(), AllocError>
    ensures { OnOk result
        (mentions_seen (texts names.now.keys) mentions.new.items
        ≡ mentions_seen (texts names.now.keys) mentions.old.items
        ++ meant.in_service service (exprs_of (texts names.now.keys) arguments.now)
        (map (name_of (texts names.now.keys)) targets.now)) }
{
    add_mention(names, mentions, Mention::Ask(gives_way(service, arguments)))?;
    add_expressions(names, mentions, arguments)?;
    add_targets(names, mentions, service, first_plain(arguments), targets)
}

/// Returns true if nothing ends a `while` with this test, in whose block the statements do this.
fn is_endless(names: &IndexSet<String>, test: &Expr, block: &[Mention<'_>]) -> bool
    ensures { result
        ≡ meant.is_endless (expr_of (texts names.now.keys) test.now)
        (mentions_seen (texts names.now.keys) block.now) }
{
    is_other_than_zero(Some(argument_of(test))) && !goes_on(names, block)
}

/// Returns true if something may wait or end, or calls a procedure.
#[tactic(auto, using(std::proofs::lemmas::List::drop_more))]
fn goes_on(names: &IndexSet<String>, mentions: &[Mention<'_>]) -> bool
    ensures { result
        ≡ list_any meant.goes_on (mentions_seen (texts names.now.keys) mentions.now) }
{
    for mention in mentions {
        if may_go_on(names, mention) {
            return true;
        }
    }
    false
}

/// Returns true if it may wait or end, or calls a procedure.
fn may_go_on(names: &IndexSet<String>, mention: &Mention<'_>) -> bool
    ensures { result ≡ meant.goes_on (mention_of (texts names.now.keys) mention.now) }
{
    match mention {
        Mention::Ask(may_wait) => *may_wait,
        Mention::Apply(_, _) | Mention::Leave => true,
        Mention::Read(_) | Mention::Element(_, _) | Mention::Write(_, _) => false,
        Mention::ByZero(_) | Mention::Test | Mention::Endless(_) => false,
    }
}

/// Adds that nothing ends a `while` with this test, whose block the mentions from a place on are
/// of, if it is so.
fn add_endless<'a>(
    names: &IndexSet<String>,
    mentions: &mut Vec<Mention<'a>>,
    before: usize,
    line: u32,
    test: &'a Expr,
) -> Result<(), AllocError>
    requires { before ≤ length mentions.old.items }
    ensures { OnOk result
        (mentions_seen (texts names.now.keys) mentions.new.items
        ≡ mentions_seen (texts names.now.keys) mentions.old.items
        ++ meant.if_endless (expr_of (texts names.now.keys) test.now)
        (mentions_seen (texts names.now.keys) (drop before mentions.old.items))) }
{
    if is_endless(names, test, &mentions[before..]) {
        add_mention(names, mentions, Mention::Endless(line))?;
    }
    Ok(())
}

/// Adds the mentions in a statement.
#[cycle(statement_mentions)]
fn add_statement<'a>(
    names: &IndexSet<String>,
    mentions: &mut Vec<Mention<'a>>,
    line: u32,
    statement: &'a StmtKind,
) -> Result<(), AllocError>
    ensures { OnOk result
        (mentions_seen (texts names.now.keys) mentions.new.items
        ≡ mentions_seen (texts names.now.keys) mentions.old.items
        ++ meant.in_stmt (kind_of (texts names.now.keys) statement.now)) }
{
    match statement {
        StmtKind::Assign(target, value) => {
            add_mention(names, mentions, Mention::Write(target.name, None))?;
            add_expression(names, mentions, value)
        }
        StmtKind::AssignElement(array, index, value) => {
            add_mention(names, mentions, element_of(*array, index))?;
            add_expression(names, mentions, index)?;
            add_expression(names, mentions, value)
        }
        StmtKind::If(test, block) => {
            add_test(names, mentions, test)?;
            add_block(names, mentions, block)
        }
        StmtKind::IfElse(test, block, other) => {
            add_test(names, mentions, test)?;
            add_block(names, mentions, block)?;
            add_block(names, mentions, other)
        }
        StmtKind::While(test, block) => {
            add_test(names, mentions, test)?;
            let before = mentions.len();
            add_block(names, mentions, block)?;
            add_endless(names, mentions, before, line, test)
        }
        StmtKind::Work(_) => Ok(()),
        StmtKind::Return(value) => {
            add_mention(names, mentions, Mention::Leave)?;
            add_expression(names, mentions, value)
        }
        StmtKind::CallService(service, arguments, targets) => {
            add_service(names, mentions, *service, arguments, targets)
        }
    }
}

/// Adds the mentions in a block.
#[cycle(statement_mentions)]
fn add_block<'a>(
    names: &IndexSet<String>,
    mentions: &mut Vec<Mention<'a>>,
    block: &'a [Stmt],
) -> Result<(), AllocError>
    ensures { OnOk result
        (mentions_seen (texts names.now.keys) mentions.new.items
        ≡ mentions_seen (texts names.now.keys) mentions.old.items
        ++ meant.in_block (block_of (texts names.now.keys) block.now)) }
{
    for statement in block {
        add_statement(names, mentions, statement.line, &statement.kind)?;
    }
    Ok(())
}

/// What the statements of a body do.
pub fn mentions_of<'a>(
    alloc: Global,
    names: &IndexSet<String>,
    body: &'a Body,
) -> Result<Vec<Mention<'a>>, AllocError>
    ensures { IfOk result
        (λ mentions. mentions_seen (texts names.now.keys) mentions.items
        ≡ meant.mentions_of (body_of (texts names.now.keys) body.now)) }
{
    let mut mentions = Vec::new(alloc);
    add_body(names, &mut mentions, body)?;
    Ok(mentions)
}

/// Adds the mentions in a body.
fn add_body<'a>(
    names: &IndexSet<String>,
    mentions: &mut Vec<Mention<'a>>,
    body: &'a Body,
) -> Result<(), AllocError>
    ensures { OnOk result
        (mentions_seen (texts names.now.keys) mentions.new.items
        ≡ mentions_seen (texts names.now.keys) mentions.old.items
        ++ meant.mentions_of (body_of (texts names.now.keys) body.now)) }
{
    add_block(names, mentions, &body.statements)
}

/// Adds the mentions in the handler, if there is one.
fn add_handler<'a>(
    names: &IndexSet<String>,
    mentions: &mut Vec<Mention<'a>>,
    handler: &'a Option<StackBody>,
) -> Result<(), AllocError>
    ensures { OnOk result
        (mentions_seen (texts names.now.keys) mentions.new.items
        ≡ mentions_seen (texts names.now.keys) mentions.old.items
        ++ meant.mentions_of_handler
        (option_map (stack_body_of (texts names.now.keys)) handler.now)) }
{
    match handler {
        Some(handler) => add_body(names, mentions, &handler.body),
        None => Ok(()),
    }
}

/// Adds the mentions in processes.
#[tactic(auto, using(std::proofs::lemmas::List::drop_more))]
fn add_processes<'a>(
    names: &IndexSet<String>,
    mentions: &mut Vec<Mention<'a>>,
    processes: &'a [Process],
) -> Result<(), AllocError>
    ensures { OnOk result
        (mentions_seen (texts names.now.keys) mentions.new.items
        ≡ mentions_seen (texts names.now.keys) mentions.old.items
        ++ meant.mentions_of_processes (map (process_of (texts names.now.keys)) processes.now)) }
{
    for process in processes {
        add_body(names, mentions, &process.body)?;
    }
    Ok(())
}

/// Adds the mentions in a procedure, if the declaration is one.
fn add_procedure<'a>(
    names: &IndexSet<String>,
    mentions: &mut Vec<Mention<'a>>,
    kind: &'a DeclarationKind,
) -> Result<(), AllocError>
    ensures { OnOk result
        (mentions_seen (texts names.now.keys) mentions.new.items
        ≡ mentions_seen (texts names.now.keys) mentions.old.items
        ++ meant.mentions_of_kind (declared_of (texts names.now.keys) kind.now)) }
{
    match kind {
        DeclarationKind::Procedure { body, .. } => add_body(names, mentions, body),
        DeclarationKind::Variable(_) => Ok(()),
        DeclarationKind::Array { .. } => Ok(()),
        DeclarationKind::Semaphore { .. } => Ok(()),
        DeclarationKind::Event => Ok(()),
        DeclarationKind::Buffer { .. } => Ok(()),
        DeclarationKind::Blackboard { .. } => Ok(()),
        DeclarationKind::Port => Ok(()),
    }
}

/// Adds the mentions in the procedures among declarations.
#[tactic(auto, using(std::proofs::lemmas::List::drop_more))]
fn add_procedures<'a>(
    names: &IndexSet<String>,
    mentions: &mut Vec<Mention<'a>>,
    declarations: &'a [Declaration],
) -> Result<(), AllocError>
    ensures { OnOk result
        (mentions_seen (texts names.now.keys) mentions.new.items
        ≡ mentions_seen (texts names.now.keys) mentions.old.items
        ++ meant.mentions_of_procedures
        (map (declaration_of (texts names.now.keys)) declarations.now)) }
{
    for declaration in declarations {
        add_procedure(names, mentions, &declaration.kind)?;
    }
    Ok(())
}

/// Adds what the statements of a program do.
pub fn add_all<'a>(mentions: &mut Vec<Mention<'a>>, program: &'a Program) -> Result<(), AllocError>
    ensures { OnOk result
        (mentions_seen (texts program.now.names.keys) mentions.new.items
        ≡ mentions_seen (texts program.now.names.keys) mentions.old.items
        ++ meant.all_mentions (program_of program.now)) }
{
    let names = &program.names;
    add_body(names, mentions, &program.init.body)?;
    add_handler(names, mentions, &program.handler)?;
    add_processes(names, mentions, &program.processes)?;
    add_procedures(names, mentions, &program.declarations)
}

/// The name that a mention is of.
pub fn name_of_mention(mention: &Mention<'_>) -> Option<NameId>
    ensures { (names : List (List ℕ))
        → option_map (id_text names) result
        ≡ meant.name_of_mention (mention_of names mention.now) }
{
    match mention {
        Mention::Read(name) | Mention::Apply(name, _) | Mention::Write(name, _) => Some(*name),
        Mention::Element(array, _) => Some(array.name),
        Mention::ByZero(_) | Mention::Test | Mention::Ask(_) => None,
        Mention::Leave | Mention::Endless(_) => None,
    }
}
