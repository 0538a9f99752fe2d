//! A program as it is written: names are texts, each with the line of its word.

ghost use Rattle.pal_base.specs.Accepted.{HasText};
ghost use Rattle.pal_base.specs.View.{program_from};

use apex_types::{BinaryOperator, Discipline, Service, UnaryOperator};
use indexmap::IndexSet;

/// A name of the source, by its place among the names in the order in which they are first seen.
#[derive(Clone, Copy)]
pub struct NameId(pub usize);

/// A name with its place in the text.
#[derive(Clone, Copy)]
pub struct Identifier {
    pub name: NameId,
    pub line: u32,
}

/// A number as it is written: its value, or that it is above 2^63 - 1.
#[derive(Clone, Copy)]
pub enum Natural {
    Within(i64),
    TooLarge,
}

/// A number with its place in the text; `negative` is true if a minus sign comes before it.
#[derive(Clone, Copy)]
pub struct Numeral {
    pub magnitude: Natural,
    pub negative: bool,
    pub line: u32,
}

/// One operator of a chain, and its right operand.
#[cycle(written_expression)]
#[derive(Drop)]
pub struct Link {
    pub operator: BinaryOperator,
    pub operand: Expr,
}

#[cycle(written_expression)]
#[derive(Drop)]
pub enum Expr {
    Number(Numeral),
    Name(Identifier),
    Element(Identifier, Box<Expr>),
    Apply(Identifier, Vec<Expr>),
    Parenthesis(Box<Expr>),
    Unary(UnaryOperator, Box<Expr>),
    /// A first operand, and operators of one rank with their right operands, from left to right.
    Chain(Box<Expr>, Vec<Link>),
}

/// A statement, and the line of its first word.
#[cycle(written_statement)]
#[derive(Drop)]
pub struct Stmt {
    pub line: u32,
    pub kind: StmtKind,
}

#[cycle(written_statement)]
#[derive(Drop)]
pub enum StmtKind {
    Assign(Identifier, Expr),
    AssignElement(Identifier, Expr, Expr),
    If(Expr, Vec<Stmt>),
    IfElse(Expr, Vec<Stmt>, Vec<Stmt>),
    While(Expr, Vec<Stmt>),
    Work(Numeral),
    Return(Expr),
    CallService(Service, Vec<Expr>, Vec<Identifier>),
}

/// The locals and the statements of a body, and the line of its first brace.
#[derive(Drop)]
pub struct Body {
    pub line: u32,
    pub locals: Vec<Identifier>,
    pub statements: Vec<Stmt>,
}

#[derive(Drop)]
pub enum DeclarationKind {
    Variable(Option<Numeral>),
    Array {
        size: Numeral,
        values: Vec<Numeral>,
    },
    Semaphore {
        first: Numeral,
        maximum: Numeral,
        discipline: Discipline,
    },
    Event,
    Buffer {
        words: Numeral,
        messages: Numeral,
        discipline: Discipline,
    },
    Blackboard {
        words: Numeral,
    },
    Port,
    Procedure {
        parameters: Vec<Identifier>,
        body: Body,
    },
}

/// A declaration, and the line of its first word.
#[derive(Drop)]
pub struct Declaration {
    pub line: u32,
    pub name: Identifier,
    pub kind: DeclarationKind,
}

/// INIT or the handler, and the line of its first word.
#[derive(Drop)]
pub struct StackBody {
    pub line: u32,
    pub stack: Numeral,
    pub body: Body,
}

/// A process, and the line of its first word.
#[derive(Drop)]
pub struct Process {
    pub line: u32,
    pub name: Identifier,
    pub priority: Numeral,
    pub period: Numeral,
    pub capacity: Numeral,
    pub stack: Numeral,
    pub body: Body,
}

/// A program as it is written in a source text.
#[derive(Drop)]
pub struct Program {
    pub names: IndexSet<String>,
    pub declarations: Vec<Declaration>,
    pub init: StackBody,
    pub handler: Option<StackBody>,
    pub processes: Vec<Process>,
    pub ghost written: { ∥ HasText
        (program_from names.keys declarations.items init handler processes.items) ∥₁ },
}
