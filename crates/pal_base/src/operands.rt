//! The most operands that wait together in each part of a program. A number that does not fit 64
//! bits is the greatest number of 64 bits.

ghost use Rattle.std.specs.Prelude.{◌≡◌, min, max};
ghost use Rattle.pal_meaning.specs.Program as cost;
ghost use Rattle.pal_base.specs.ProgramView.{expr_of, exprs_of, links_of, stmt_of, block_of};

use crate::program::{Expr, Link, Stmt};

/// The operands of an expression.
#[cycle(operands_of_expr)]
fn operands_of_expr(expr: &Expr) -> u64
    ensures { result ≡ min (cost.operands_of_expr (expr_of expr.now)) u64.MAX }
{
    match expr {
        Expr::Literal(_) | Expr::Read(_) => 1,
        Expr::Element(_, _, index) => operands_of_expr(index),
        Expr::Unary(_, operand) => operands_of_expr(operand),
        Expr::Chain(first, links) => operands_of_expr(first).max(operands_of_links(links)),
        Expr::Apply(_, arguments) => operands_of_exprs(arguments).max(1),
    }
}

/// An operand of a chain is evaluated while those before it wait.
#[cycle(operands_of_expr)]
fn operands_of_links(links: &[Link]) -> u64
    ensures { result ≡ min (cost.operands_of_links (links_of links.now)) u64.MAX }
{
    let mut most: u64 = 0;
    for link in links {
        most = most.max(operands_of_expr(&link.operand).saturating_add(1));
    }
    most
}

/// An argument waits while the later ones are evaluated.
#[cycle(operands_of_expr)]
fn operands_of_exprs(exprs: &[Expr]) -> u64
    ensures { result ≡ min (cost.operands_of_exprs (exprs_of exprs.now)) u64.MAX }
{
    let mut most: u64 = 0;
    let mut waiting: u64 = 0;
    for expr in exprs {
        most = most.max(operands_of_expr(expr).saturating_add(waiting));
        waiting = waiting.saturating_add(1);
    }
    most.max(waiting)
}

/// The operands of a statement: the words of a reply are operands until the targets take them.
#[cycle(operands_of_stmt)]
fn operands_of_stmt(stmt: &Stmt) -> u64
    ensures { result ≡ min (cost.operands_of_stmt (stmt_of stmt.now)) u64.MAX }
{
    match stmt {
        Stmt::Assign(_, value) | Stmt::Return(value) => operands_of_expr(value),
        Stmt::AssignElement(_, _, index, value) => {
            operands_of_expr(index).max(operands_of_expr(value).saturating_add(1))
        }
        Stmt::If(test, block) => operands_of_expr(test).max(operands_of_block(block)),
        Stmt::While(test, block) => operands_of_expr(test).max(operands_of_block(block)),
        Stmt::IfElse(test, block, other) => operands_of_expr(test)
            .max(operands_of_block(block))
            .max(operands_of_block(other)),
        Stmt::Work(_) => 0,
        Stmt::CallService(service, arguments, _) => {
            u64::from(service.answer_words()).max(operands_of_exprs(arguments))
        }
    }
}

/// The operands of a block.
#[cycle(operands_of_stmt)]
pub fn operands_of_block(block: &[Stmt]) -> u64
    ensures { result ≡ min (cost.operands_of_block (block_of block.now)) u64.MAX }
{
    let mut most: u64 = 0;
    for stmt in block {
        most = most.max(operands_of_stmt(stmt));
    }
    most
}
