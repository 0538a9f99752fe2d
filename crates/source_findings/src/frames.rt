//! The words of stack that a body needs, by its tree as it is written. A number that does not fit 64
//! bits is the greatest number that does.

ghost use Rattle.std.specs.Prelude.{◌≡◌, List, ℕ, map};
ghost use Rattle.pal_base.specs.View as view;
ghost use Rattle.pal_base.specs.View.{block_of, body_of, expr_of, exprs_of, links_of, name_of};
ghost use Rattle.pal_meaning.specs.Resolve.{count_within};
ghost use Rattle.source_findings.specs.Frames as spec;
ghost use Rattle.source_findings.specs.Frames.{held};

use apex_types::limits::{MOST_LOCALS, MOST_PARAMETERS};
use apex_types::{ArgumentKind, Service};
use pal_base::syntax::{Body, Expr, Identifier, Link, Stmt, StmtKind};

/// The operands of an expression.
#[cycle(expr_operands)]
fn expr_operands(expr: &Expr) -> u64
    ensures { (names : List (List ℕ)) → result ≡ held (spec.expr_operands (expr_of names expr.now)) }
{
    match expr {
        Expr::Number(_) | Expr::Name(_) => 1,
        Expr::Element(_, index) => expr_operands(index),
        Expr::Apply(_, arguments) => exprs_operands(arguments).max(1),
        Expr::Parenthesis(inside) => expr_operands(inside),
        Expr::Unary(_, operand) => expr_operands(operand),
        Expr::Chain(first, rest) => expr_operands(first).max(links_operands(rest)),
    }
}

/// An operand of a chain is evaluated while those before it wait.
#[cycle(expr_operands)]
fn links_operands(links: &[Link]) -> u64
    ensures { (names : List (List ℕ))
        → result ≡ held (spec.links_operands (links_of names links.now)) }
{
    let mut most: u64 = 0;
    for link in links {
        most = most.max(expr_operands(&link.operand).saturating_add(1));
    }
    most
}

/// An argument waits while the later ones are evaluated.
#[cycle(expr_operands)]
fn exprs_operands(exprs: &[Expr]) -> u64
    ensures { (names : List (List ℕ))
        → result ≡ held (spec.exprs_operands (exprs_of names exprs.now)) }
{
    let mut most: u64 = 0;
    let mut waiting: u64 = 0;
    for expr in exprs {
        most = most.max(expr_operands(expr).saturating_add(waiting));
        waiting = waiting.saturating_add(1);
    }
    most.max(waiting)
}

/// An argument of a service before others that need `rest` operands: an array is two operands, its
/// place and its size.
fn argument_operands(kind: ArgumentKind, expr: &Expr, rest: u64) -> u64
    ensures { (names : List (List ℕ)) (behind : ℕ)
        → rest ≡ held behind
        → result ≡ held (spec.argument_operands kind (expr_of names expr.now) behind) }
{
    let behind = rest.saturating_add(1);
    match kind {
        ArgumentKind::Word => expr_operands(expr).max(behind),
        ArgumentKind::Array => behind.max(1).saturating_add(1).max(1),
        ArgumentKind::Object(_) => behind.max(1),
    }
}

fn arguments_operands(kinds: &[ArgumentKind], exprs: &[Expr]) -> u64
    ensures { (names : List (List ℕ))
        → result ≡ held (spec.arguments_operands kinds.now (exprs_of names exprs.now)) }
{
    match (kinds.split_first(), exprs.split_first()) {
        (Some((kind, kinds)), Some((expr, exprs))) => {
            argument_operands(*kind, expr, arguments_operands(kinds, exprs))
        }
        _ => 0,
    }
}

/// The words of an answer are operands until the targets take them.
fn service_operands(service: Service, arguments: &[Expr]) -> u64
    ensures { (names : List (List ℕ))
        → result ≡ held (spec.service_operands service (exprs_of names arguments.now)) }
{
    arguments_operands(service.arguments(), arguments).max(u64::from(service.answer_words()))
}

#[cycle(stmt_operands)]
fn stmt_operands(stmt: &StmtKind) -> u64
    ensures { (names : List (List ℕ))
        → result ≡ held (spec.stmt_operands (view.kind_of names stmt.now)) }
{
    match stmt {
        StmtKind::Assign(_, value) | StmtKind::Return(value) => expr_operands(value),
        StmtKind::AssignElement(_, index, value) => {
            expr_operands(index).max(expr_operands(value).saturating_add(1))
        }
        StmtKind::If(test, inside) => expr_operands(test).max(block_operands(inside)),
        StmtKind::While(test, inside) => expr_operands(test).max(block_operands(inside)),
        StmtKind::IfElse(test, inside, other) => expr_operands(test)
            .max(block_operands(inside))
            .max(block_operands(other)),
        StmtKind::Work(_) => 0,
        StmtKind::CallService(service, arguments, _) => service_operands(*service, arguments),
    }
}

#[cycle(stmt_operands)]
fn block_operands(block: &[Stmt]) -> u64
    ensures { (names : List (List ℕ))
        → result ≡ held (spec.block_operands (block_of names block.now)) }
{
    let mut most: u64 = 0;
    for stmt in block {
        most = most.max(stmt_operands(&stmt.kind));
    }
    most
}

/// The locals of a body, if there are no more than there may be; else 0.
fn limited(count: usize, most: u8) -> u64
    ensures { result ≡ count_within most count }
{
    if count <= usize::from(most) {
        count as u64
    } else {
        0
    }
}

/// The frame of the body of INIT, of the handler or of a process.
pub fn body_frame(body: &Body) -> u64
    ensures { (names : List (List ℕ)) → result ≡ spec.body_frame (body_of names body.now) }
{
    limited(body.locals.len(), MOST_LOCALS)
        .saturating_add(block_operands(&body.statements))
        .saturating_add(2)
}

/// The frame of a procedure.
pub fn procedure_frame(parameters: &[Identifier], body: &Body) -> u64
    ensures { (names : List (List ℕ))
        → result
        ≡ spec.procedure_frame (map (name_of names) parameters.now) (body_of names body.now) }
{
    limited(parameters.len(), MOST_PARAMETERS)
        .saturating_add(limited(body.locals.len(), MOST_LOCALS))
        .saturating_add(block_operands(&body.statements).max(1))
        .saturating_add(2)
}
