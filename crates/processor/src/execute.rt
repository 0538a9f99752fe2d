//! The last tick of an instruction: operators, jumps, and the instruction table.

ghost use Rattle.std.specs.Prelude.{◌≡◌, ◌≤◌, pos};
ghost use Rattle.apex_types.specs.Limits.{MOST_WORK_TICKS};
ghost use Rattle.machine_meaning.specs.Instructions.{cost_of, cost_of_work, cost_of_service_call, is_work};
ghost use Rattle.apex_types.specs.ServiceShape.{service_of};

use crate::arithmetic::{apply_binary, apply_unary};
use crate::code::Code;
use crate::registers::Registers;
use crate::turn::Turn;
use apex_types::limits::MOST_WORK_TICKS;
use apex_types::{BinaryOperator, Costs, ErrorKind, Instr, Service, UNKNOWN_COST, UnaryOperator};
use regions::Reach;

/// Whether WORK may take this many ticks.
fn is_work(v: i64) -> bool
    ensures { result ≡ is_work v }
{
    0 < v && v <= MOST_WORK_TICKS as i64
}

/// Ticks of WORK: its operand, or 1 if that number is not allowed.
fn cost_of_work(v: i64) -> u32
    ensures cost { result ≡ cost_of_work v }
    ensures limit { result ≤ MOST_WORK_TICKS }
{
    if is_work(v) { v as u32 } else { UNKNOWN_COST }
}

/// Ticks of SVC: those of the service, or 1 if no service has this number.
fn cost_of_service_call(costs: &Costs, x: u32) -> u32
    ensures { result ≡ cost_of_service_call costs.now (service_of x) }
{
    match Service::from_number(x) {
        Some(service) => service.cost(costs),
        None => UNKNOWN_COST,
    }
}

/// The ticks that an instruction takes, also if it faults.
#[tactic(auto, using(crate::proofs::Low::binary_low))]
pub(crate) fn cost_of(costs: &Costs, instruction: Instr) -> u32
    ensures cost { result ≡ cost_of costs.now instruction }
    ensures most { result ≤ MOST_WORK_TICKS }
{
    match instruction {
        Instr::Push(_) => costs.literal.ticks,
        Instr::LoadData(_) | Instr::StoreData(_) => costs.scalar.ticks,
        Instr::LoadLocal(_) | Instr::StoreLocal(_) => costs.scalar.ticks,
        Instr::LoadElement(_, _) | Instr::StoreElement(_, _) => costs.array.ticks,
        Instr::Binary(operator) => operator.cost(costs),
        Instr::Unary(_) => costs.logic.ticks,
        Instr::Jump(_) => costs.jump.ticks,
        Instr::JumpIfZero(_) => costs.branch.ticks,
        Instr::Call(_) => costs.call.ticks,
        Instr::Return(_) => costs.ret.ticks,
        Instr::Work(v) => cost_of_work(v),
        Instr::Service(x) => cost_of_service_call(costs, x),
        Instr::End => costs.end.ticks,
        Instr::LoadRegion(_) | Instr::StoreRegion(_) => costs.array.ticks,
    }
}

impl Registers {
    ghost use Rattle.std.specs.Prelude.{true, false, ◌≡◌, ◌+◌, ◌-◌, ◌<◌, ◌≤◌, ◌^◌, [], length, slice_get, Some};
    ghost use Rattle.machine_meaning.specs.MachineControl.{executes};
    ghost use Rattle.processor.specs.Turns.{control_in, after, does, is_done};
    ghost use Rattle.apex_types.specs.declared.instruction.Instr.{Instr};

    /// PUSH
    fn push(&mut self, reach: &mut Reach, v: i64) -> Turn
        requires next { self.old.pc + 1 < 2 ^ 32 }
        ensures effect { after result self.new reach.new
            ≡ does (executes [] (Instr.Push v)) self.old reach.old }
        ensures done { is_done result ≡ true }
    {
        self.push_at(reach, self.sp, v)
    }

    /// An operator with two operands.
    fn binary(&mut self, reach: &mut Reach, operator: BinaryOperator) -> Turn
        requires next { self.old.pc + 1 < 2 ^ 32 }
        ensures effect { after result self.new reach.new
            ≡ does (executes [] (Instr.Binary operator)) self.old reach.old }
        ensures done { is_done result ≡ true }
    {
        if self.sp < self.fp + 2 {
            return Turn::Fault(ErrorKind::IllegalRequest);
        }
        let v = apply_binary(operator, self.below_top(reach), self.top(reach));
        self.push_or(reach, ErrorKind::NumericError, self.sp - 2, v)
    }

    /// An operator with one operand.
    fn unary(&mut self, reach: &mut Reach, operator: UnaryOperator) -> Turn
        requires next { self.old.pc + 1 < 2 ^ 32 }
        ensures effect { after result self.new reach.new
            ≡ does (executes [] (Instr.Unary operator)) self.old reach.old }
        ensures done { is_done result ≡ true }
    {
        if self.sp <= self.fp {
            return Turn::Fault(ErrorKind::IllegalRequest);
        }
        let v = apply_unary(operator, self.top(reach));
        self.push_or(reach, ErrorKind::NumericError, self.sp - 1, v)
    }

    /// JZ: pops, and jumps if it is 0.
    fn jump_if_zero(&mut self, reach: &Reach, x: u32) -> Turn
        requires next { self.old.pc + 1 < 2 ^ 32 }
        ensures effect { after result self.new reach.now
            ≡ does (executes [] (Instr.JumpIfZero x)) self.old reach.now }
        ensures done { is_done result ≡ true }
    {
        if self.sp <= self.fp {
            return Turn::Fault(ErrorKind::IllegalRequest);
        }
        let pc = if self.top(reach) == 0 { x } else { self.pc + 1 };
        self.go_on(pc, self.sp - 1)
    }

    /// The effect of an instruction in its last tick.
    pub(crate) fn execute(&mut self, reach: &mut Reach, code: &Code, instruction: &Instr) -> Turn
        requires next { self.old.pc + 1 < 2 ^ 32 }
        ensures effect { after result self.new reach.new
            ≡ does (executes code.now.routines.items instruction.now) self.old reach.old }
        ensures same { is_done result ≡ false
            → control_in self.new reach.new ≡ control_in self.old reach.old }
    {
        match instruction {
            Instr::Push(v) => self.push(reach, *v),
            Instr::LoadData(x) => self.load_data(reach, *x),
            Instr::StoreData(x) => self.store_data(reach, *x),
            Instr::LoadLocal(x) => self.load_local(reach, *x),
            Instr::StoreLocal(x) => self.store_local(reach, *x),
            Instr::LoadElement(x, v) => self.load_element(reach, *x, *v),
            Instr::StoreElement(x, v) => self.store_element(reach, *x, *v),
            Instr::Binary(operator) => self.binary(reach, *operator),
            Instr::Unary(operator) => self.unary(reach, *operator),
            Instr::Jump(x) => self.go_on(*x, self.sp),
            Instr::JumpIfZero(x) => self.jump_if_zero(reach, *x),
            Instr::Call(x) => self.enter(reach, code, *x),
            Instr::Return(x) => self.give_back(reach, *x),
            Instr::Work(v) if is_work(*v) => self.go_on(self.pc + 1, self.sp),
            Instr::Work(_) => Turn::Fault(ErrorKind::IllegalRequest),
            Instr::Service(x) => Turn::Service(*x),
            Instr::End => Turn::End,
            Instr::LoadRegion(x) => self.load_region(reach, *x),
            Instr::StoreRegion(x) => self.store_region(reach, *x),
        }
    }
}
