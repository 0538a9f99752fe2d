//! The words that the instructions of a program come from, in the order of the instructions.

ghost use Rattle.std.specs.Prelude.{◌≡◌, ◌++◌, ◌∷◌, [], List, ℕ, IfOk, OnOk, length, map, option_map};
ghost use Rattle.pal_base.specs.View.{block_of, body_of, declaration_of, declared_of, expr_of, exprs_of, links_of, name_of, process_of, stack_body_of, stmt_of};
ghost use Rattle.pal_base.specs.WrittenView.{program_of};
ghost use Rattle.source_places.specs.Places as spec;

use crate::passing::{
    after_block, after_body, after_else, after_stmt, after_test, inside_body, to_end,
};
use crate::text_words::{from_word, next_word};
use apex_types::{ArgumentKind, Service};
use pal_base::syntax::{
    Body, Declaration, DeclarationKind, Expr, Identifier, Link, Process, Program, StackBody, Stmt,
    StmtKind,
};
use std::alloc::{AllocError, Global};

/// For each instruction of a program, how many bytes of its text are left from the first word on of
/// its statement, or from the brace on that closes its body.
///
/// # Errors
///
/// Only if memory runs out.
pub fn program_places(
    alloc: Global,
    text: &[u8],
    program: &Program,
) -> Result<Vec<usize>, AllocError>
    ensures { IfOk result
        (λ places. places.items ≡ spec.program_places text.now (program_of program.now)) }
{
    let mut places = Vec::new(alloc);
    let start = from_word(text, 0);
    let declarations = program.declarations.as_slice();
    add_own(
        &mut places,
        after_declarations(start, declarations),
        program,
    )?;
    add_procedures(&mut places, start, declarations)?;
    Ok(places)
}

/// Adds the places of INIT, the handler and the processes.
fn add_own(places: &mut Vec<usize>, text: &[u8], program: &Program) -> Result<(), AllocError>
    ensures { OnOk result
        (places.new.items
        ≡ places.old.items ++ spec.own_places text.now (program_of program.now)) }
{
    let init = &program.init.body;
    let start = next_body(text);
    add_body(places, start, init)?;
    let after_init = after_body(start, init);
    add_handler(places, after_init, &program.handler)?;
    let processes = program.processes.as_slice();
    add_processes(
        places,
        after_handler(after_init, &program.handler),
        processes,
    )
}

/// One more instruction.
fn add(places: &mut Vec<usize>, place: usize) -> Result<(), AllocError>
    ensures { OnOk result (places.new.items ≡ places.old.items ++ place ∷ []) }
{
    places.push(place)?;
    Ok(())
}

/// Adds an instruction for each construct of an expression.
#[cycle(add_expr)]
fn add_expr(places: &mut Vec<usize>, place: usize, expr: &Expr) -> Result<(), AllocError>
    ensures { (names : List (List ℕ))
        → OnOk result
        (places.new.items ≡ places.old.items ++ spec.expr_places place (expr_of names expr.now)) }
{
    match expr {
        Expr::Number(_) | Expr::Name(_) => add(places, place),
        Expr::Element(_, index) => {
            add_expr(places, place, index)?;
            add(places, place)
        }
        Expr::Apply(_, arguments) => {
            add_exprs(places, place, arguments)?;
            add(places, place)
        }
        Expr::Parenthesis(inside) => add_expr(places, place, inside),
        Expr::Unary(_, operand) => {
            add_expr(places, place, operand)?;
            add(places, place)
        }
        Expr::Chain(first, links) => {
            add_expr(places, place, first)?;
            add_links(places, place, links)
        }
    }
}

#[cycle(add_expr)]
fn add_links(places: &mut Vec<usize>, place: usize, links: &[Link]) -> Result<(), AllocError>
    ensures { (names : List (List ℕ))
        → OnOk result
        (places.new.items
        ≡ places.old.items ++ spec.links_places place (links_of names links.now)) }
{
    for link in links {
        add_expr(places, place, &link.operand)?;
        add(places, place)?;
    }
    Ok(())
}

#[cycle(add_expr)]
fn add_exprs(places: &mut Vec<usize>, place: usize, exprs: &[Expr]) -> Result<(), AllocError>
    ensures { (names : List (List ℕ))
        → OnOk result
        (places.new.items
        ≡ places.old.items ++ spec.exprs_places place (exprs_of names exprs.now)) }
{
    for expr in exprs {
        add_expr(places, place, expr)?;
    }
    Ok(())
}

/// Adds an instruction for each target.
fn add_targets(
    places: &mut Vec<usize>,
    place: usize,
    targets: &[Identifier],
) -> Result<(), AllocError>
    ensures { (names : List (List ℕ))
        → OnOk result
        (places.new.items
        ≡ places.old.items ++ spec.targets_places place (map (name_of names) targets.now)) }
{
    match targets.split_first() {
        Some((_, targets)) => {
            add(places, place)?;
            add_targets(places, place, targets)
        }
        None => Ok(()),
    }
}

/// Adds the instructions of an argument of a service: a name is its number, an array its place and
/// its size.
fn add_argument(
    places: &mut Vec<usize>,
    place: usize,
    kind: ArgumentKind,
    argument: &Expr,
) -> Result<(), AllocError>
    ensures { (names : List (List ℕ))
        → OnOk result
        (places.new.items
        ≡ places.old.items ++ spec.argument_places place kind (expr_of names argument.now)) }
{
    match kind {
        ArgumentKind::Word => add_expr(places, place, argument),
        ArgumentKind::Array => {
            add(places, place)?;
            add(places, place)
        }
        ArgumentKind::Object(_) => add(places, place),
    }
}

/// Adds the instructions of arguments of these kinds.
fn add_arguments(
    places: &mut Vec<usize>,
    place: usize,
    kinds: &[ArgumentKind],
    arguments: &[Expr],
) -> Result<(), AllocError>
    ensures { (names : List (List ℕ))
        → OnOk result
        (places.new.items
        ≡ places.old.items
        ++ spec.arguments_places place kinds.now (exprs_of names arguments.now)) }
{
    match (kinds.split_first(), arguments.split_first()) {
        (Some((kind, kinds)), Some((argument, arguments))) => {
            add_argument(places, place, *kind, argument)?;
            add_arguments(places, place, kinds, arguments)
        }
        _ => Ok(()),
    }
}

/// Adds the instructions of a call of a service.
fn add_call(
    places: &mut Vec<usize>,
    place: usize,
    service: Service,
    arguments: &[Expr],
    targets: &[Identifier],
) -> Result<(), AllocError>
    ensures { (names : List (List ℕ))
        → OnOk result
        (places.new.items
        ≡ places.old.items
        ++ spec.call_places place service (exprs_of names arguments.now)
        (map (name_of names) targets.now)) }
{
    add_arguments(places, place, service.arguments(), arguments)?;
    add(places, place)?;
    add_targets(places, place, targets)
}

/// Adds the instructions of a test, and the jump after it.
fn add_test(places: &mut Vec<usize>, text: &[u8], test: &Expr) -> Result<(), AllocError>
    ensures { (names : List (List ℕ))
        → OnOk result
        (places.new.items
        ≡ places.old.items ++ spec.test_places text.now (expr_of names test.now)) }
{
    add_expr(places, text.len(), test)?;
    add(places, text.len())
}

/// Adds the instructions of a statement, of the text from it on.
#[cycle(add_stmt)]
fn add_stmt(places: &mut Vec<usize>, text: &[u8], stmt: &Stmt) -> Result<(), AllocError>
    ensures { (names : List (List ℕ))
        → OnOk result
        (places.new.items
        ≡ places.old.items ++ spec.stmt_places text.now (stmt_of names stmt.now)) }
{
    match &stmt.kind {
        StmtKind::Assign(_, value) | StmtKind::Return(value) => add_test(places, text, value),
        StmtKind::AssignElement(_, index, value) => {
            add_expr(places, text.len(), index)?;
            add_test(places, text, value)
        }
        StmtKind::If(test, block) => {
            add_test(places, text, test)?;
            add_block(places, after_test(text, test), block)
        }
        StmtKind::IfElse(test, block, other) => {
            add_test(places, text, test)?;
            let inside = after_test(text, test);
            add_block(places, inside, block)?;
            add(places, text.len())?;
            add_block(places, after_else(after_block(inside, block)), other)
        }
        StmtKind::While(test, block) => {
            add_test(places, text, test)?;
            add_block(places, after_test(text, test), block)?;
            add(places, text.len())
        }
        StmtKind::Work(_) => add(places, text.len()),
        StmtKind::CallService(service, arguments, targets) => {
            add_call(places, text.len(), *service, arguments, targets)
        }
    }
}

/// Adds the instructions of the statements of a block, of the text from the first one on.
#[cycle(add_stmt)]
fn add_block(places: &mut Vec<usize>, text: &[u8], block: &[Stmt]) -> Result<(), AllocError>
    ensures { (names : List (List ℕ))
        → OnOk result
        (places.new.items
        ≡ places.old.items ++ spec.block_places text.now (block_of names block.now)) }
{
    let mut rest = text;
    for stmt in block {
        add_stmt(places, rest, stmt)?;
        rest = after_stmt(rest, stmt);
    }
    Ok(())
}

/// Adds the instructions of a body, of the text from its brace on.
fn add_body(places: &mut Vec<usize>, text: &[u8], body: &Body) -> Result<(), AllocError>
    ensures { (names : List (List ℕ))
        → OnOk result
        (places.new.items
        ≡ places.old.items ++ spec.body_places text.now (body_of names body.now)) }
{
    add_block(places, inside_body(text, body), body.statements.as_slice())?;
    add(places, to_end(text, body).len())
}

/// Adds the instructions of the body of a procedure.
fn add_procedure(places: &mut Vec<usize>, text: &[u8], body: &Body) -> Result<(), AllocError>
    ensures { (names : List (List ℕ))
        → OnOk result
        (places.new.items
        ≡ places.old.items ++ spec.procedure_places text.now (body_of names body.now)) }
{
    add_body(places, text, body)?;
    add(places, to_end(text, body).len())
}

fn is_brace(text: &[u8]) -> bool
    ensures { result ≡ spec.is_brace text.now }
{
    match text.first() {
        Some(byte) => *byte == b'{',
        None => false,
    }
}

/// The text from the next body on. No braces are outside of bodies.
#[tactic(auto, unfolding(crate::specs::Places::brace_within))]
fn next_body(text: &[u8]) -> &[u8]
    ensures { result.now ≡ spec.next_body text.now }
{
    let mut rest = text;
    let mut left = text.len();
    while 0 < left {
        if is_brace(rest) {
            return rest;
        }
        rest = next_word(rest);
        left -= 1;
    }
    rest
}

/// The text after the body of a procedure; other declarations have none.
fn after_kind<'a>(text: &'a [u8], kind: &DeclarationKind) -> &'a [u8]
    ensures { (names : List (List ℕ))
        → result.now ≡ spec.after_kind (declared_of names kind.now) text.now }
{
    match kind {
        DeclarationKind::Procedure { body, .. } => after_body(next_body(text), body),
        _ => text,
    }
}

/// The text after the last body of these declarations.
fn after_declarations<'a>(text: &'a [u8], declarations: &[Declaration]) -> &'a [u8]
    ensures { (names : List (List ℕ))
        → result.now
        ≡ spec.after_declarations (map (declaration_of names) declarations.now) text.now }
{
    let mut rest = text;
    for declaration in declarations {
        rest = after_kind(rest, &declaration.kind);
    }
    rest
}

fn add_kind(places: &mut Vec<usize>, text: &[u8], kind: &DeclarationKind) -> Result<(), AllocError>
    ensures { (names : List (List ℕ))
        → OnOk result
        (places.new.items
        ≡ places.old.items ++ spec.kind_places text.now (declared_of names kind.now)) }
{
    match kind {
        DeclarationKind::Procedure { body, .. } => add_procedure(places, next_body(text), body),
        _ => Ok(()),
    }
}

/// Adds the instructions of the procedures.
fn add_procedures(
    places: &mut Vec<usize>,
    text: &[u8],
    declarations: &[Declaration],
) -> Result<(), AllocError>
    ensures { (names : List (List ℕ))
        → OnOk result
        (places.new.items
        ≡ places.old.items
        ++ spec.procedures_places text.now (map (declaration_of names) declarations.now)) }
{
    let mut rest = text;
    for declaration in declarations {
        add_kind(places, rest, &declaration.kind)?;
        rest = after_kind(rest, &declaration.kind);
    }
    Ok(())
}

/// The text after the handler, if there is one.
fn after_handler<'a>(text: &'a [u8], handler: &Option<StackBody>) -> &'a [u8]
    ensures { (names : List (List ℕ))
        → result.now
        ≡ spec.after_handler (option_map (stack_body_of names) handler.now) text.now }
{
    match handler {
        Some(handler) => after_body(next_body(text), &handler.body),
        None => text,
    }
}

/// Adds the instructions of the handler, if there is one.
fn add_handler(
    places: &mut Vec<usize>,
    text: &[u8],
    handler: &Option<StackBody>,
) -> Result<(), AllocError>
    ensures { (names : List (List ℕ))
        → OnOk result
        (places.new.items
        ≡ places.old.items
        ++ spec.handler_places text.now (option_map (stack_body_of names) handler.now)) }
{
    match handler {
        Some(handler) => add_body(places, next_body(text), &handler.body),
        None => Ok(()),
    }
}

/// Adds the instructions of the processes.
fn add_processes(
    places: &mut Vec<usize>,
    text: &[u8],
    processes: &[Process],
) -> Result<(), AllocError>
    ensures { (names : List (List ℕ))
        → OnOk result
        (places.new.items
        ≡ places.old.items
        ++ spec.processes_places text.now (map (process_of names) processes.now)) }
{
    let mut rest = text;
    for process in processes {
        let start = next_body(rest);
        add_body(places, start, &process.body)?;
        rest = after_body(start, &process.body);
    }
    Ok(())
}
