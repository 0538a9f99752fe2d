//! The number of constructs of each part of a program, which is its number of instructions. A
//! number that does not fit 64 bits is the greatest number of 64 bits.

ghost use Rattle.std.specs.Prelude.{◌≡◌, min};
ghost use Rattle.pal_meaning.specs.Program as cost;
ghost use Rattle.pal_base.specs.ProgramView.{expr_of, exprs_of, links_of, stmt_of, block_of, body_of, procedure_of};

use crate::program::{Body, Expr, Link, Procedure, Stmt};

/// The constructs of an expression.
#[cycle(size_of_expr)]
fn size_of_expr(expr: &Expr) -> u64
    ensures { result ≡ min (cost.size_of_expr (expr_of expr.now)) u64.MAX }
{
    match expr {
        Expr::Literal(_) | Expr::Read(_) => 1,
        Expr::Element(_, _, index) => size_of_expr(index).saturating_add(1),
        Expr::Unary(_, operand) => size_of_expr(operand).saturating_add(1),
        Expr::Chain(first, links) => size_of_expr(first).saturating_add(size_of_links(links)),
        Expr::Apply(_, arguments) => size_of_exprs(arguments).saturating_add(1),
    }
}

/// Operators with their right operands.
#[cycle(size_of_expr)]
fn size_of_links(links: &[Link]) -> u64
    ensures { result ≡ min (cost.size_of_links (links_of links.now)) u64.MAX }
{
    let mut size: u64 = 0;
    for link in links {
        size = size.saturating_add(size_of_expr(&link.operand).saturating_add(1));
    }
    size
}

/// Expressions one after the other.
#[cycle(size_of_expr)]
fn size_of_exprs(exprs: &[Expr]) -> u64
    ensures { result ≡ min (cost.size_of_exprs (exprs_of exprs.now)) u64.MAX }
{
    let mut size: u64 = 0;
    for expr in exprs {
        size = size.saturating_add(size_of_expr(expr));
    }
    size
}

/// The constructs of a statement: each branch is one, and each jump.
#[cycle(size_of_stmt)]
fn size_of_stmt(stmt: &Stmt) -> u64
    ensures { result ≡ min (cost.size_of_stmt (stmt_of stmt.now)) u64.MAX }
{
    match stmt {
        Stmt::Assign(_, value) | Stmt::Return(value) => size_of_expr(value).saturating_add(1),
        Stmt::AssignElement(_, _, index, value) => size_of_expr(index)
            .saturating_add(size_of_expr(value))
            .saturating_add(1),
        Stmt::If(test, block) => size_of_expr(test)
            .saturating_add(1)
            .saturating_add(size_of_block(block)),
        Stmt::IfElse(test, block, other) => size_of_expr(test)
            .saturating_add(size_of_block(block))
            .saturating_add(size_of_block(other))
            .saturating_add(2),
        Stmt::While(test, block) => size_of_expr(test)
            .saturating_add(size_of_block(block))
            .saturating_add(2),
        Stmt::Work(_) => 1,
        Stmt::CallService(_, arguments, targets) => size_of_exprs(arguments)
            .saturating_add(1)
            .saturating_add(targets.len() as u64),
    }
}

/// The constructs of a block.
#[cycle(size_of_stmt)]
pub fn size_of_block(block: &[Stmt]) -> u64
    ensures { result ≡ min (cost.size_of_block (block_of block.now)) u64.MAX }
{
    let mut size: u64 = 0;
    for stmt in block {
        size = size.saturating_add(size_of_stmt(stmt));
    }
    size
}

/// The constructs of the body of INIT, of the handler or of a process, its end among them.
pub fn size_of_body(body: &Body) -> u64
    ensures { result ≡ min (cost.size_of_body (body_of body.now)) u64.MAX }
{
    size_of_block(&body.block).saturating_add(1)
}

/// The constructs of a procedure, the `return 0` with which it closes among them.
pub fn size_of_procedure(procedure: &Procedure) -> u64
    ensures { result ≡ min (cost.size_of_procedure (procedure_of procedure.now)) u64.MAX }
{
    size_of_block(&procedure.block).saturating_add(2)
}
