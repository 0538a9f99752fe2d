//! The costs of the constructs of a program's parts: the sum of their ticks.

ghost use Rattle.std.specs.Prelude.{◌≡◌, ◌∷◌, ◌++◌, [], ℕ, List, map};
ghost use Rattle.pal_meaning.specs.BodyCosts as cost;
ghost use Rattle.apex_types.specs.ServiceShape as services;
ghost use Rattle.engine_meaning.specs.Operators as operators;
ghost use Rattle.pal_base.specs.ProgramView.{expr_of, exprs_of, links_of, stmt_of, block_of, body_of, procedure_of};
ghost use Rattle.pal_base.specs.Costs.{comes_to};

use crate::program::{Body, Expr, Link, Procedure, Stmt};
use apex_types::{Costs, Place, Service};

/// The cost of constructs, each counted once: the sum of their ticks. A sum that does not fit 64
/// bits is the greatest number that does.
#[derive(Clone, Copy)]
pub struct Cost {
    pub ticks: u64,
}

impl Cost {
    /// The cost of an empty body.
    pub const NONE: Cost = Cost { ticks: 0 };

    /// The cost of one construct of `ticks` ticks.
    fn one(ticks: u32) -> Self
        ensures { result ≡ comes_to (ticks ∷ []) }
    {
        Cost {
            ticks: u64::from(ticks),
        }
    }

    /// The cost of these constructs and of `others` after them.
    fn plus(self, others: Cost) -> Self
        ensures { (xs ys : List ℕ) → self ≡ comes_to xs → others ≡ comes_to ys
            → result ≡ comes_to (xs ++ ys) }
    {
        Cost {
            ticks: self.ticks.saturating_add(others.ticks),
        }
    }

    /// The cost of these constructs, of a construct of `ticks` ticks, and of `others` after it.
    fn joined_by(self, ticks: u32, others: Cost) -> Self
        ensures { (xs ys : List ℕ) → self ≡ comes_to xs → others ≡ comes_to ys
            → result ≡ comes_to (xs ++ ticks ∷ ys) }
    {
        self.plus(Cost::one(ticks).plus(others))
    }

    /// The cost of these constructs and of a construct of `ticks` ticks after them.
    fn and(self, ticks: u32) -> Self
        ensures { (xs : List ℕ) → self ≡ comes_to xs → result ≡ comes_to (xs ++ ticks ∷ []) }
    {
        self.plus(Cost::one(ticks))
    }
}

/// The cost of the constructs of an expression.
#[cycle(cost_of_expr)]
pub fn cost_of_expr(costs: &Costs, expr: &Expr) -> Cost
    ensures { result ≡ comes_to (cost.costs_of_expr costs.now (expr_of expr.now)) }
{
    match expr {
        Expr::Literal(_) => Cost::one(costs.literal.ticks),
        Expr::Read(_) => Cost::one(costs.scalar.ticks),
        Expr::Element(_, _, index) => cost_of_expr(costs, index).and(costs.array.ticks),
        Expr::Unary(_, operand) => cost_of_expr(costs, operand).and(costs.logic.ticks),
        Expr::Chain(first, links) => cost_of_expr(costs, first).plus(cost_of_links(costs, links)),
        Expr::Apply(_, arguments) => cost_of_exprs(costs, arguments).and(costs.call.ticks),
    }
}

/// An operator with its right operand.
#[cycle(cost_of_expr)]
fn cost_of_link(costs: &Costs, link: &Link) -> Cost
    ensures { result
        ≡ comes_to
        (cost.costs_of_expr costs.now (expr_of link.now.operand)
        ++ operators.cost_of_binary costs.now link.now.operator
        ∷ []) }
{
    cost_of_expr(costs, &link.operand).and(link.operator.cost(costs))
}

#[cycle(cost_of_expr)]
fn cost_of_links(costs: &Costs, links: &[Link]) -> Cost
    ensures { result ≡ comes_to (cost.costs_of_links costs.now (links_of links.now)) }
{
    let mut cost = Cost::NONE;
    for link in links {
        cost = cost.plus(cost_of_link(costs, link));
    }
    cost
}

/// Expressions one after the other.
#[cycle(cost_of_expr)]
fn cost_of_exprs(costs: &Costs, exprs: &[Expr]) -> Cost
    ensures { result ≡ comes_to (cost.costs_of_exprs costs.now (exprs_of exprs.now)) }
{
    let mut cost = Cost::NONE;
    for expr in exprs {
        cost = cost.plus(cost_of_expr(costs, expr));
    }
    cost
}

/// The writes of the targets of a service.
fn cost_of_targets(costs: &Costs, targets: &[Place]) -> Cost
    ensures { result ≡ comes_to (map (λ _. costs.now.scalar.ticks) targets.now) }
{
    let mut cost = Cost::NONE;
    for _ in targets {
        cost = cost.and(costs.scalar.ticks);
    }
    cost
}

/// A call of a service with its arguments, and the writes of its targets.
fn cost_of_service(costs: &Costs, service: Service, arguments: &[Expr], targets: &[Place]) -> Cost
    ensures { result
        ≡ comes_to
        (cost.costs_of_exprs costs.now (exprs_of arguments.now)
        ++ (services.cost_of_service costs.now service
        ∷ map (λ _. costs.now.scalar.ticks) targets.now)) }
{
    cost_of_exprs(costs, arguments).joined_by(service.cost(costs), cost_of_targets(costs, targets))
}

/// The cost of the constructs of a statement.
#[cycle(cost_of_stmt)]
fn cost_of_stmt(costs: &Costs, stmt: &Stmt) -> Cost
    ensures { result ≡ comes_to (cost.costs_of_stmt costs.now (stmt_of stmt.now)) }
{
    match stmt {
        Stmt::Assign(_, value) => cost_of_expr(costs, value).and(costs.scalar.ticks),
        Stmt::AssignElement(_, _, index, value) => {
            cost_of_expr(costs, index)
                .plus(cost_of_expr(costs, value))
                .and(costs.array.ticks)
        }
        Stmt::If(test, block) => cost_of_expr(costs, test).joined_by(
            costs.branch.ticks,
            cost_of_block(costs, block),
        ),
        Stmt::IfElse(test, block, other) => cost_of_expr(costs, test)
            .joined_by(costs.branch.ticks, cost_of_block(costs, block))
            .joined_by(costs.jump.ticks, cost_of_block(costs, other)),
        Stmt::While(test, block) => cost_of_expr(costs, test)
            .joined_by(costs.branch.ticks, cost_of_block(costs, block))
            .and(costs.jump.ticks),
        Stmt::Work(ticks) => Cost::one(*ticks),
        Stmt::Return(value) => cost_of_expr(costs, value).and(costs.ret.ticks),
        Stmt::CallService(service, arguments, targets) => {
            cost_of_service(costs, *service, arguments, targets)
        }
    }
}

/// The cost of the constructs of a block.
#[cycle(cost_of_stmt)]
pub fn cost_of_block(costs: &Costs, block: &[Stmt]) -> Cost
    ensures { result ≡ comes_to (cost.costs_of_block costs.now (block_of block.now)) }
{
    let mut cost = Cost::NONE;
    for stmt in block {
        cost = cost.plus(cost_of_stmt(costs, stmt));
    }
    cost
}

/// The cost of the constructs of the body of INIT, of the handler or of a process, its end
/// included.
pub fn cost_of_body(costs: &Costs, body: &Body) -> Cost
    ensures { result ≡ comes_to (cost.costs_of_body costs.now (body_of body.now)) }
{
    cost_of_block(costs, &body.block).and(costs.end.ticks)
}

/// The cost of the constructs of a procedure, its closing `return 0` included.
pub fn cost_of_procedure(costs: &Costs, procedure: &Procedure) -> Cost
    ensures { result ≡ comes_to (cost.costs_of_procedure costs.now (procedure_of procedure.now)) }
{
    let ends = Cost::one(costs.ret.ticks);
    cost_of_block(costs, &procedure.block).joined_by(costs.literal.ticks, ends)
}
