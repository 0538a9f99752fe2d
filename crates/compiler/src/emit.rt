//! The instructions of expressions and statements, one for each construct.

ghost use Rattle.std.specs.Prelude.{◌≡◌, ◌+◌, ◌≤◌, [], ◌∷◌, ◌++◌, length, map, OnOk, IfOk};
ghost use Rattle.apex_types.specs.Limits.{MOST_INSTRUCTIONS};
ghost use Rattle.pal_meaning.specs.Program.{size_of_expr, size_of_stmt, size_of_block};
ghost use Rattle.apex_types.specs.ServiceShape.{number_of};
ghost use Rattle.compiling_laws.specs.CompiledCode as code_of;
ghost use Rattle.pal_base.specs.ProgramView.{expr_of, exprs_of, links_of, stmt_of, block_of};

use crate::size::size_of_block;
use apex_types::{Instr, Place, Service};
use pal_base::program::{Expr, Link, Stmt};
use std::alloc::AllocError;

/// One more instruction.
pub fn put(code: &mut Vec<Instr>, instr: Instr) -> Result<(), AllocError>
    ensures code { OnOk result (code.new.items ≡ code.old.items ++ instr ∷ []) }
    ensures size { OnOk result (length code.new.items ≡ length code.old.items + 1) }
{
    code.push(instr)?;
    Ok(())
}

fn load(place: Place) -> Instr
    ensures { result ≡ code_of.load place }
{
    match place {
        Place::Data(x) => Instr::LoadData(x),
        Place::Slot(x) => Instr::LoadLocal(u32::from(x)),
    }
}

fn store(place: Place) -> Instr
    ensures { result ≡ code_of.store place }
{
    match place {
        Place::Data(x) => Instr::StoreData(x),
        Place::Slot(x) => Instr::StoreLocal(u32::from(x)),
    }
}

/// The instructions that leave the value of an expression as the top operand.
#[cycle(emit_expr)]
fn emit_expr(code: &mut Vec<Instr>, expr: &Expr) -> Result<(), AllocError>
    ensures { OnOk result
        (code.new.items ≡ code.old.items ++ code_of.expr_code (expr_of expr.now)) }
{
    match expr {
        Expr::Literal(value) => put(code, Instr::Push(*value)),
        Expr::Read(place) => put(code, load(*place)),
        Expr::Element(place, size, index) => {
            emit_expr(code, index)?;
            put(code, Instr::LoadElement(*place, *size))
        }
        Expr::Unary(operator, operand) => {
            emit_expr(code, operand)?;
            put(code, Instr::Unary(*operator))
        }
        Expr::Chain(first, links) => {
            emit_expr(code, first)?;
            emit_links(code, links)
        }
        Expr::Apply(procedure, arguments) => {
            emit_exprs(code, arguments)?;
            put(code, Instr::Call(*procedure))
        }
    }
}

#[cycle(emit_expr)]
fn emit_links(code: &mut Vec<Instr>, links: &[Link]) -> Result<(), AllocError>
    ensures { OnOk result
        (code.new.items ≡ code.old.items ++ code_of.links_code (links_of links.now)) }
{
    for link in links {
        emit_expr(code, &link.operand)?;
        put(code, Instr::Binary(link.operator))?;
    }
    Ok(())
}

#[cycle(emit_expr)]
fn emit_exprs(code: &mut Vec<Instr>, exprs: &[Expr]) -> Result<(), AllocError>
    ensures { OnOk result
        (code.new.items ≡ code.old.items ++ code_of.exprs_code (exprs_of exprs.now)) }
{
    for expr in exprs {
        emit_expr(code, expr)?;
    }
    Ok(())
}

/// Stores the words returned by a service in its targets, from left to right.
fn emit_targets(code: &mut Vec<Instr>, targets: &[Place]) -> Result<(), AllocError>
    ensures { OnOk result (code.new.items ≡ code.old.items ++ map code_of.store targets.now) }
{
    for target in targets {
        put(code, store(*target))?;
    }
    Ok(())
}

/// A test, and the place of the branch after it.
fn emit_test(code: &mut Vec<Instr>, test: &Expr) -> Result<u32, AllocError>
    requires { length code.old.items + size_of_expr (expr_of test.now) ≤ MOST_INSTRUCTIONS }
    ensures code { OnOk result
        (code.new.items ≡ code.old.items ++ code_of.expr_code (expr_of test.now)) }
    ensures size { OnOk result
        (length code.new.items ≡ length code.old.items + size_of_expr (expr_of test.now)) }
    ensures place { IfOk result (λ place. place ≡ length code.new.items) }
{
    emit_expr(code, test)?;
    Ok(code.len() as u32)
}

/// A request of a service: its arguments, the request, and the stores of the words that it returns.
fn emit_service_call(
    code: &mut Vec<Instr>,
    service: Service,
    arguments: &[Expr],
    targets: &[Place],
) -> Result<(), AllocError>
    ensures { OnOk result
        (code.new.items
        ≡ code.old.items
        ++ (code_of.exprs_code (exprs_of arguments.now)
        ++ (Instr.Service (number_of service) ∷ map code_of.store targets.now))) }
{
    emit_exprs(code, arguments)?;
    put(code, Instr::Service(service.number()))?;
    emit_targets(code, targets)
}

/// The instructions of a statement, in a body with this many slots. The size of a block is known
/// before it is written, so the jump past it can be written first.
#[cycle(emit_stmt)]
fn emit_stmt(code: &mut Vec<Instr>, slots: u16, stmt: &Stmt) -> Result<(), AllocError>
    requires { length code.old.items + size_of_stmt (stmt_of stmt.now) ≤ MOST_INSTRUCTIONS }
    ensures { OnOk result
        (code.new.items
        ≡ code.old.items ++ code_of.stmt_code slots (length code.old.items) (stmt_of stmt.now)) }
{
    match stmt {
        Stmt::Assign(place, value) => {
            emit_expr(code, value)?;
            put(code, store(*place))
        }
        Stmt::AssignElement(place, size, index, value) => {
            emit_expr(code, index)?;
            emit_expr(code, value)?;
            put(code, Instr::StoreElement(*place, *size))
        }
        Stmt::If(test, block) => {
            let branch = emit_test(code, test)?;
            put(code, Instr::JumpIfZero(branch + 1 + size_of_block(block)))?;
            emit_block(code, slots, block)
        }
        Stmt::IfElse(test, block, other) => {
            let branch = emit_test(code, test)?;
            let behind = branch + 1 + size_of_block(block) + 1;
            put(code, Instr::JumpIfZero(behind))?;
            emit_block(code, slots, block)?;
            put(code, Instr::Jump(behind + size_of_block(other)))?;
            emit_block(code, slots, other)
        }
        Stmt::While(test, block) => {
            let start = code.len() as u32;
            let branch = emit_test(code, test)?;
            put(
                code,
                Instr::JumpIfZero(branch + 1 + size_of_block(block) + 1),
            )?;
            emit_block(code, slots, block)?;
            put(code, Instr::Jump(start))
        }
        Stmt::Work(ticks) => put(code, Instr::Work(i64::from(*ticks))),
        Stmt::Return(value) => {
            emit_expr(code, value)?;
            put(code, Instr::Return(u32::from(slots)))
        }
        Stmt::CallService(service, arguments, targets) => {
            emit_service_call(code, *service, arguments, targets)
        }
    }
}

/// The instructions of a block.
#[cycle(emit_stmt)]
pub fn emit_block(code: &mut Vec<Instr>, slots: u16, block: &[Stmt]) -> Result<(), AllocError>
    requires room { length code.old.items + size_of_block (block_of block.now) ≤ MOST_INSTRUCTIONS }
    ensures code { OnOk result
        (code.new.items
        ≡ code.old.items
        ++ code_of.block_code slots (length code.old.items) (block_of block.now)) }
    ensures size { OnOk result
        (length code.new.items ≡ length code.old.items + size_of_block (block_of block.now)) }
{
    for stmt in block {
        emit_stmt(code, slots, stmt)?;
    }
    Ok(())
}
