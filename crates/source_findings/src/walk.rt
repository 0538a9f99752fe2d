//! The walk through the words of expressions and statements, along their tree.

ghost use Rattle.std.specs.Prelude.{◌≡◌, List, ℕ, map, true, OnOk, option_map};
ghost use Rattle.pal_base.specs.View as view;
ghost use Rattle.pal_base.specs.View.{block_of, expr_of, exprs_of, links_of, name_of, number_of};
ghost use Rattle.source_findings.specs.Views.{judge_of, names_of, state_of, what_of};
ghost use Rattle.source_findings.specs.Walk as spec;
ghost use Rattle.source_findings.specs.What as state;

use crate::finding::{Thing, What, Wrong};
use crate::judge::{
    Judge, arguments_wrong, name_wrong, no_name_wrong, number_wrong, outside_wrong, return_wrong,
    targets_wrong, value_of,
};
use crate::roles::{Role, text_of};
use apex_types::limits::MOST_WORK_TICKS;
use apex_types::{ArgumentKind, Service};
use pal_base::fault::Refusal;
use pal_base::syntax::{Expr, Identifier, Link, Numeral, Stmt, StmtKind};
use source_places::next_word;
use std::alloc::{AllocError, Global};

/// No more findings than these are kept.
const MOST_FINDINGS: usize = 20;

/// A walk through the words of a program: the text from the next word on, and what was found before
/// it.
#[derive(Drop)]
pub struct Walk<'a> {
    pub text: &'a [u8],
    pub found: Vec<Wrong<'a>>,
}

impl<'a> Walk<'a> {
    /// Passes the next word.
    pub fn step(&mut self)
        ensures { state_of self.new ≡ state.step (state_of self.old) }
    {
        self.text = next_word(self.text);
    }

    /// Notes what is wrong at the next word, unless enough was found before.
    pub fn note(&mut self, what: Option<What<'a>>) -> Result<(), AllocError>
        ensures { OnOk result
            (state_of self.new ≡ state.noted (option_map what_of what.entry) (state_of self.old)) }
    {
        if self.found.len() < MOST_FINDINGS {
            self.push(what)?;
        }
        Ok(())
    }

    fn push(&mut self, what: Option<What<'a>>) -> Result<(), AllocError>
        ensures { OnOk result
            (state_of self.new ≡ state.pushed (option_map what_of what.entry) (state_of self.old)) }
    {
        if let Some(what) = what {
            self.found.push(Wrong {
                left: self.text.len(),
                what,
            })?;
        }
        Ok(())
    }

    /// Notes what is wrong at the next word, and passes it.
    pub fn judge(&mut self, what: Option<What<'a>>) -> Result<(), AllocError>
        ensures { OnOk result
            (state_of self.new ≡ state.judged (option_map what_of what.entry) (state_of self.old)) }
    {
        self.note(what)?;
        self.step();
        Ok(())
    }

    /// Passes a comma, but there is none before the first.
    pub fn comma(&mut self, is_first: bool)
        ensures { state_of self.new ≡ spec.comma is_first (state_of self.old) }
    {
        if !is_first {
            self.step();
        }
    }
}

/// Notes what is wrong with a name that is used, unless enough was found before.
fn note_name<'a>(
    alloc: Global,
    judge: &Judge<'_, 'a>,
    walk: &mut Walk<'a>,
    wanted: Role,
    name: Identifier,
) -> Result<(), AllocError>
    ensures { OnOk result
        (state_of walk.new
        ≡ spec.used_here (judge_of judge.now) wanted (name_of (names_of judge.now) name)
        (state_of walk.old)) }
{
    if MOST_FINDINGS <= walk.found.len() {
        return Ok(());
    }
    let wrong = name_wrong(alloc, judge, text_of(judge.names, name), wanted)?;
    walk.note(wrong)
}

/// Passes a name that is used, and says what is wanted there.
fn used<'a>(
    alloc: Global,
    judge: &Judge<'_, 'a>,
    walk: &mut Walk<'a>,
    wanted: Role,
    name: Identifier,
) -> Result<(), AllocError>
    ensures { OnOk result
        (state_of walk.new
        ≡ spec.used (judge_of judge.now) wanted (name_of (names_of judge.now) name)
        (state_of walk.old)) }
{
    note_name(alloc, judge, walk, wanted, name)?;
    walk.step();
    Ok(())
}

/// Passes an expression.
#[cycle(walk_expression)]
pub fn expression<'a>(
    alloc: Global,
    judge: &Judge<'_, 'a>,
    walk: &mut Walk<'a>,
    expr: &Expr,
) -> Result<(), AllocError>
    ensures { OnOk result
        (state_of walk.new
        ≡ spec.expr (judge_of judge.now) (expr_of (names_of judge.now) expr.now) (state_of walk.old)) }
{
    match expr {
        Expr::Number(number) => walk.judge(number_wrong(judge.rule, value_of(number))),
        Expr::Name(name) => used(alloc, judge, walk, Role::Variable, *name),
        Expr::Element(array, index) => element(alloc, judge, walk, *array, index),
        Expr::Apply(procedure, arguments) => {
            apply(alloc, judge, walk, *procedure, arguments)?;
            Ok(())
        }
        Expr::Parenthesis(inside) => {
            walk.step();
            expression(alloc, judge, walk, inside)?;
            walk.step();
            Ok(())
        }
        Expr::Unary(_, operand) => {
            walk.step();
            expression(alloc, judge, walk, operand)
        }
        Expr::Chain(first, rest) => {
            expression(alloc, judge, walk, first)?;
            links(alloc, judge, walk, rest)?;
            Ok(())
        }
    }
}

/// Passes a name, and an expression in brackets.
#[cycle(walk_expression)]
fn element<'a>(
    alloc: Global,
    judge: &Judge<'_, 'a>,
    walk: &mut Walk<'a>,
    array: Identifier,
    index: &Expr,
) -> Result<(), AllocError>
    ensures { OnOk result
        (state_of walk.new
        ≡ spec.element (judge_of judge.now) (name_of (names_of judge.now) array)
        (expr_of (names_of judge.now) index.now) (state_of walk.old)) }
{
    used(alloc, judge, walk, Role::Array, array)?;
    walk.step();
    expression(alloc, judge, walk, index)?;
    walk.step();
    Ok(())
}

/// Passes the name of a procedure, and its arguments.
#[tactic(auto, using(pal::proofs::Counted::counted))]
#[cycle(walk_expression)]
fn apply<'a>(
    alloc: Global,
    judge: &Judge<'_, 'a>,
    walk: &mut Walk<'a>,
    procedure: Identifier,
    arguments: &[Expr],
) -> Result<(), AllocError>
    ensures { OnOk result
        (state_of walk.new
        ≡ spec.apply (judge_of judge.now) (name_of (names_of judge.now) procedure)
        (exprs_of (names_of judge.now) arguments.now) (state_of walk.old)) }
{
    let wanted = Role::Procedure(arguments.len());
    used(alloc, judge, walk, wanted, procedure)?;
    walk.step();
    expressions(alloc, judge, walk, arguments)?;
    walk.step();
    Ok(())
}

/// Passes operators and their right operands.
#[cycle(walk_expression)]
fn links<'a>(
    alloc: Global,
    judge: &Judge<'_, 'a>,
    walk: &mut Walk<'a>,
    links: &[Link],
) -> Result<(), AllocError>
    ensures { OnOk result
        (state_of walk.new
        ≡ spec.links (judge_of judge.now) (links_of (names_of judge.now) links.now) (state_of walk.old)) }
{
    for link in links {
        walk.step();
        expression(alloc, judge, walk, &link.operand)?;
    }
    Ok(())
}

/// Passes expressions with commas between them.
#[cycle(walk_expression)]
fn expressions<'a>(
    alloc: Global,
    judge: &Judge<'_, 'a>,
    walk: &mut Walk<'a>,
    exprs: &[Expr],
) -> Result<(), AllocError>
    ensures { OnOk result
        (state_of walk.new
        ≡ spec.exprs (judge_of judge.now) (exprs_of (names_of judge.now) exprs.now) true
        (state_of walk.old)) }
{
    let mut is_first = true;
    for expr in exprs {
        walk.comma(is_first);
        expression(alloc, judge, walk, expr)?;
        is_first = false;
    }
    Ok(())
}

/// Passes an argument where the name of something is wanted.
fn named<'a>(
    alloc: Global,
    judge: &Judge<'_, 'a>,
    walk: &mut Walk<'a>,
    wanted: Role,
    expr: &Expr,
) -> Result<(), AllocError>
    ensures { OnOk result
        (state_of walk.new
        ≡ spec.named (judge_of judge.now) wanted (expr_of (names_of judge.now) expr.now)
        (state_of walk.old)) }
{
    match expr {
        Expr::Name(name) => used(alloc, judge, walk, wanted, *name),
        _ => {
            walk.note(no_name_wrong(judge.rule, wanted))?;
            expression(alloc, judge, walk, expr)
        }
    }
}

/// Passes an argument of a service.
fn given<'a>(
    alloc: Global,
    judge: &Judge<'_, 'a>,
    walk: &mut Walk<'a>,
    kind: ArgumentKind,
    expr: &Expr,
) -> Result<(), AllocError>
    ensures { OnOk result
        (state_of walk.new
        ≡ spec.given (judge_of judge.now) kind (expr_of (names_of judge.now) expr.now)
        (state_of walk.old)) }
{
    match kind {
        ArgumentKind::Word => expression(alloc, judge, walk, expr),
        ArgumentKind::Array => named(alloc, judge, walk, Role::Array, expr),
        ArgumentKind::Object(kind) => named(alloc, judge, walk, Role::Object(kind), expr),
    }
}

/// Passes the arguments of a service, which takes those of these kinds.
fn all_given<'a>(
    alloc: Global,
    judge: &Judge<'_, 'a>,
    walk: &mut Walk<'a>,
    kinds: &[ArgumentKind],
    exprs: &[Expr],
) -> Result<(), AllocError>
    ensures { OnOk result
        (state_of walk.new
        ≡ spec.all_given (judge_of judge.now) kinds.now (exprs_of (names_of judge.now) exprs.now) true
        (state_of walk.old)) }
{
    let mut left = kinds;
    let mut is_first = true;
    for expr in exprs {
        walk.comma(is_first);
        is_first = false;
        if let Some((kind, others)) = left.split_first() {
            given(alloc, judge, walk, *kind, expr)?;
            left = others;
        } else {
            expression(alloc, judge, walk, expr)?;
        }
    }
    Ok(())
}

/// Passes the targets of a service, each after an arrow or a comma.
fn targets<'a>(
    alloc: Global,
    judge: &Judge<'_, 'a>,
    walk: &mut Walk<'a>,
    names: &[Identifier],
) -> Result<(), AllocError>
    ensures { OnOk result
        (state_of walk.new
        ≡ spec.targets (judge_of judge.now) (map (name_of (names_of judge.now)) names.now)
        (state_of walk.old)) }
{
    for name in names {
        walk.step();
        used(alloc, judge, walk, Role::Variable, *name)?;
    }
    Ok(())
}

/// Passes a service, its arguments and its targets, except the semicolon.
fn service_call<'a>(
    alloc: Global,
    judge: &Judge<'_, 'a>,
    walk: &mut Walk<'a>,
    service: Service,
    arguments: &[Expr],
    names: &[Identifier],
) -> Result<(), AllocError>
    ensures { OnOk result
        (state_of walk.new
        ≡ spec.service_call (judge_of judge.now) service (exprs_of (names_of judge.now) arguments.now)
        (map (name_of (names_of judge.now)) names.now) (state_of walk.old)) }
{
    asked(judge.rule, walk, service, arguments, names)?;
    walk.step();
    all_given(alloc, judge, walk, service.arguments(), arguments)?;
    walk.step();
    targets(alloc, judge, walk, names)?;
    Ok(())
}

/// Passes the name of a service, at which the numbers of its arguments and targets are judged.
#[tactic(auto, using(pal::proofs::Counted::counted, crate::proofs::Lists::mapped_length))]
fn asked(
    rule: Refusal,
    walk: &mut Walk<'_>,
    service: Service,
    arguments: &[Expr],
    names: &[Identifier],
) -> Result<(), AllocError>
    ensures { (texts : List (List ℕ))
        → OnOk result
        (state_of walk.new
        ≡ spec.asked rule service (exprs_of texts arguments.now)
        (map (name_of texts) names.now) (state_of walk.old)) }
{
    walk.note(arguments_wrong(rule, service, arguments.len()))?;
    walk.judge(targets_wrong(rule, service, names.len()))
}

/// Passes statements.
#[cycle(walk_statement)]
pub fn block<'a>(
    alloc: Global,
    judge: &Judge<'_, 'a>,
    walk: &mut Walk<'a>,
    returns: bool,
    stmts: &[Stmt],
) -> Result<(), AllocError>
    ensures { OnOk result
        (state_of walk.new
        ≡ spec.block (judge_of judge.now) returns (block_of (names_of judge.now) stmts.now)
        (state_of walk.old)) }
{
    for stmt in stmts {
        statement(alloc, judge, walk, returns, &stmt.kind)?;
        walk.step();
    }
    Ok(())
}

/// Passes a statement, except the semicolon or the brace that ends it. A body may return if it is a
/// procedure's.
#[cycle(walk_statement)]
fn statement<'a>(
    alloc: Global,
    judge: &Judge<'_, 'a>,
    walk: &mut Walk<'a>,
    returns: bool,
    stmt: &StmtKind,
) -> Result<(), AllocError>
    ensures { OnOk result
        (state_of walk.new
        ≡ spec.stmt (judge_of judge.now) returns (view.kind_of (names_of judge.now) stmt.now)
        (state_of walk.old)) }
{
    match stmt {
        StmtKind::Assign(target, value) => {
            used(alloc, judge, walk, Role::Variable, *target)?;
            walk.step();
            expression(alloc, judge, walk, value)
        }
        StmtKind::AssignElement(array, index, value) => {
            element(alloc, judge, walk, *array, index)?;
            walk.step();
            expression(alloc, judge, walk, value)
        }
        StmtKind::If(test, inside) => {
            tested(alloc, judge, walk, test)?;
            block(alloc, judge, walk, returns, inside)?;
            Ok(())
        }
        StmtKind::While(test, inside) => {
            tested(alloc, judge, walk, test)?;
            block(alloc, judge, walk, returns, inside)?;
            Ok(())
        }
        StmtKind::IfElse(test, inside, other) => {
            tested(alloc, judge, walk, test)?;
            block(alloc, judge, walk, returns, inside)?;
            otherwise(alloc, judge, walk, returns, other)?;
            Ok(())
        }
        StmtKind::Work(ticks) => work(judge.rule, walk, ticks),
        StmtKind::Return(value) => {
            walk.judge(return_wrong(judge.rule, returns))?;
            expression(alloc, judge, walk, value)
        }
        StmtKind::CallService(service, arguments, names) => {
            service_call(alloc, judge, walk, *service, arguments, names)
        }
    }
}

/// Passes `if` or `while`, a test and an opening brace.
fn tested<'a>(
    alloc: Global,
    judge: &Judge<'_, 'a>,
    walk: &mut Walk<'a>,
    test: &Expr,
) -> Result<(), AllocError>
    ensures { OnOk result
        (state_of walk.new
        ≡ spec.tested (judge_of judge.now) (expr_of (names_of judge.now) test.now)
        (state_of walk.old)) }
{
    walk.step();
    expression(alloc, judge, walk, test)?;
    walk.step();
    Ok(())
}

/// Passes the brace that closes a branch, `else`, and the statements in braces after it, except the
/// closing brace.
#[cycle(walk_statement)]
fn otherwise<'a>(
    alloc: Global,
    judge: &Judge<'_, 'a>,
    walk: &mut Walk<'a>,
    returns: bool,
    inside: &[Stmt],
) -> Result<(), AllocError>
    ensures { OnOk result
        (state_of walk.new
        ≡ spec.otherwise (judge_of judge.now) returns
        (block_of (names_of judge.now) inside.now) (state_of walk.old)) }
{
    walk.step();
    walk.step();
    walk.step();
    block(alloc, judge, walk, returns, inside)
}

/// Passes `work` and its ticks.
fn work(rule: Refusal, walk: &mut Walk<'_>, ticks: &Numeral) -> Result<(), AllocError>
    ensures { OnOk result
        (state_of walk.new ≡ spec.work rule (number_of ticks.now) (state_of walk.old)) }
{
    walk.step();
    let (ticks, most) = (value_of(ticks), u64::from(MOST_WORK_TICKS));
    walk.judge(outside_wrong(rule, Thing::Work, 1, most, ticks))
}
