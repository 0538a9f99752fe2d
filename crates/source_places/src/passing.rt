//! The text after each thing that a source is made of, of a text that begins with it.

ghost use Rattle.std.specs.Prelude.{◌≡◌, List, ℕ, map, true};
ghost use Rattle.pal_base.specs.View.{block_of, body_of, expr_of, exprs_of, links_of, name_of, stmt_of};
ghost use Rattle.source_places.specs.Passing as spec;

use crate::text_words::next_word;
use pal_base::syntax::{Body, Expr, Identifier, Link, Stmt, StmtKind};

/// The text after an expression.
#[cycle(after_expr)]
pub fn after_expr<'a>(text: &'a [u8], expr: &Expr) -> &'a [u8]
    ensures { (names : List (List ℕ))
        → result.now ≡ spec.after_expr (expr_of names expr.now) text.now }
{
    match expr {
        Expr::Number(_) | Expr::Name(_) => next_word(text),
        Expr::Element(_, index) => next_word(after_expr(next_word(next_word(text)), index)),
        Expr::Apply(_, arguments) => {
            next_word(after_arguments(next_word(next_word(text)), arguments))
        }
        Expr::Parenthesis(inside) => next_word(after_expr(next_word(text), inside)),
        Expr::Unary(_, operand) => after_expr(next_word(text), operand),
        Expr::Chain(first, links) => after_links(after_expr(text, first), links),
    }
}

/// The text after operators with their right operands.
#[cycle(after_expr)]
fn after_links<'a>(text: &'a [u8], links: &[Link]) -> &'a [u8]
    ensures { (names : List (List ℕ))
        → result.now ≡ spec.after_links (links_of names links.now) text.now }
{
    let mut rest = text;
    for link in links {
        rest = after_expr(next_word(rest), &link.operand);
    }
    rest
}

/// The text after arguments, with commas between them.
#[cycle(after_expr)]
pub fn after_arguments<'a>(text: &'a [u8], exprs: &[Expr]) -> &'a [u8]
    ensures { (names : List (List ℕ))
        → result.now ≡ spec.after_arguments (exprs_of names exprs.now) true text.now }
{
    let mut rest = text;
    let mut is_first = true;
    for expr in exprs {
        rest = after_expr(after_comma(rest, is_first), expr);
        is_first = false;
    }
    rest
}

/// The text after a comma, but there is none before the first argument.
fn after_comma(text: &[u8], is_first: bool) -> &[u8]
    ensures { result.now ≡ spec.after_comma is_first text.now }
{
    if is_first { text } else { next_word(text) }
}

/// The text after the targets of a service.
fn after_targets<'a>(text: &'a [u8], targets: &[Identifier]) -> &'a [u8]
    ensures { (names : List (List ℕ))
        → result.now ≡ spec.after_targets (map (name_of names) targets.now) text.now }
{
    match targets.split_first() {
        Some((_, targets)) => after_targets(next_word(next_word(text)), targets),
        None => text,
    }
}

/// The text after the word of an `if` or a `while`, its test and the brace of its block.
pub fn after_test<'a>(text: &'a [u8], test: &Expr) -> &'a [u8]
    ensures { (names : List (List ℕ))
        → result.now ≡ spec.after_test (expr_of names test.now) text.now }
{
    next_word(after_expr(next_word(text), test))
}

/// The text after the brace of a block, `else` and the brace of the other block.
pub fn after_else(text: &[u8]) -> &[u8]
    ensures { result.now ≡ spec.after_else text.now }
{
    next_word(next_word(next_word(text)))
}

/// The text after a statement.
#[cycle(after_stmt)]
pub fn after_stmt<'a>(text: &'a [u8], stmt: &Stmt) -> &'a [u8]
    ensures { (names : List (List ℕ))
        → result.now ≡ spec.after_stmt (stmt_of names stmt.now) text.now }
{
    match &stmt.kind {
        StmtKind::Assign(_, value) => next_word(after_expr(next_word(next_word(text)), value)),
        StmtKind::AssignElement(_, index, value) => {
            let rest = after_expr(next_word(next_word(text)), index);
            next_word(after_expr(next_word(next_word(rest)), value))
        }
        StmtKind::If(test, block) => next_word(after_block(after_test(text, test), block)),
        StmtKind::While(test, block) => next_word(after_block(after_test(text, test), block)),
        StmtKind::IfElse(test, block, other) => {
            let rest = after_block(after_test(text, test), block);
            next_word(after_block(after_else(rest), other))
        }
        StmtKind::Work(_) => next_word(next_word(next_word(text))),
        StmtKind::Return(value) => next_word(after_expr(next_word(text), value)),
        StmtKind::CallService(_, arguments, targets) => after_call(text, arguments, targets),
    }
}

/// The text after a call of a service.
fn after_call<'a>(text: &'a [u8], arguments: &[Expr], targets: &[Identifier]) -> &'a [u8]
    ensures { (names : List (List ℕ))
        → result.now
        ≡ spec.after_call (exprs_of names arguments.now) (map (name_of names) targets.now)
        text.now }
{
    let rest = after_arguments(next_word(next_word(text)), arguments);
    next_word(after_targets(next_word(rest), targets))
}

/// The text after the statements of a block.
#[cycle(after_stmt)]
pub fn after_block<'a>(text: &'a [u8], block: &[Stmt]) -> &'a [u8]
    ensures { (names : List (List ℕ))
        → result.now ≡ spec.after_block (block_of names block.now) text.now }
{
    let mut rest = text;
    for stmt in block {
        rest = after_stmt(rest, stmt);
    }
    rest
}

/// The text after the locals of a body.
fn after_locals<'a>(text: &'a [u8], locals: &[Identifier]) -> &'a [u8]
    ensures { (names : List (List ℕ))
        → result.now ≡ spec.after_locals (map (name_of names) locals.now) text.now }
{
    match locals.split_first() {
        Some((_, locals)) => after_locals(next_word(next_word(next_word(text))), locals),
        None => text,
    }
}

/// The text after the brace of a body and its locals.
pub fn inside_body<'a>(text: &'a [u8], body: &Body) -> &'a [u8]
    ensures { (names : List (List ℕ))
        → result.now ≡ spec.inside_body (body_of names body.now) text.now }
{
    after_locals(next_word(text), body.locals.as_slice())
}

/// The text from the brace on that closes a body.
pub fn to_end<'a>(text: &'a [u8], body: &Body) -> &'a [u8]
    ensures { (names : List (List ℕ)) → result.now ≡ spec.to_end (body_of names body.now) text.now }
{
    after_block(inside_body(text, body), body.statements.as_slice())
}

/// The text after a body.
pub fn after_body<'a>(text: &'a [u8], body: &Body) -> &'a [u8]
    ensures { (names : List (List ℕ))
        → result.now ≡ spec.after_body (body_of names body.now) text.now }
{
    next_word(to_end(text, body))
}
