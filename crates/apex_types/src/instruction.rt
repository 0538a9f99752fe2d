//! The instructions of the modelled processor.

ghost use Rattle.std.specs.Prelude.{◌≡◌};

use crate::cost::Costs;

/// An operator that takes two operands.
#[derive(Clone, Copy, PartialEq, Eq)]
pub enum BinaryOperator {
    Add,
    Subtract,
    Multiply,
    Divide,
    Remainder,
    Equal,
    NotEqual,
    Less,
    LessOrEqual,
    Greater,
    GreaterOrEqual,
    And,
    Or,
}

impl BinaryOperator {
    ghost use Rattle.apex_types.specs.Costs.{cost_of_binary};

    /// The cost of this operator in ticks.
    pub fn cost(self, costs: &Costs) -> u32
        ensures { result ≡ cost_of_binary costs.now self }
    {
        match self {
            BinaryOperator::Add | BinaryOperator::Subtract => costs.add.ticks,
            BinaryOperator::Multiply => costs.mul.ticks,
            BinaryOperator::Divide | BinaryOperator::Remainder => costs.div.ticks,
            _ => costs.logic.ticks,
        }
    }
}

/// An operator that takes one operand.
#[derive(Clone, Copy, PartialEq, Eq)]
pub enum UnaryOperator {
    Negate,
    Not,
}

/// One instruction. `x` fields are unsigned 32-bit, `v` fields signed 64-bit, as in its bytes.
#[derive(Clone, Copy)]
pub enum Instr {
    /// PUSH v
    Push(i64),
    /// LDG x: a word of the partition's data
    LoadData(u32),
    /// STG x
    StoreData(u32),
    /// LDL x: a word of the running body's frame
    LoadLocal(u32),
    /// STL x
    StoreLocal(u32),
    /// LDA x v: an element of the array of v words at x
    LoadElement(u32, i64),
    /// STA x v
    StoreElement(u32, i64),
    /// ADD, SUB, MUL, DIV, REM, EQ, NE, LT, LE, GT, GE, AND, OR
    Binary(BinaryOperator),
    /// NEG, NOT
    Unary(UnaryOperator),
    /// JMP x
    Jump(u32),
    /// JZ x
    JumpIfZero(u32),
    /// CALL x: the routine of that number, from 0
    Call(u32),
    /// RET x: x is the number of slots, parameters and locals, of the running routine
    Return(u32),
    /// WORK v
    Work(i64),
    /// SVC x: the service of that number
    Service(u32),
    /// END
    End,
    /// LDR x: a word of region x
    LoadRegion(u32),
    /// STR x
    StoreRegion(u32),
}
