//! A program with its names resolved: to places in the data, slots of a body, and numbers.

use apex_types::{
    BinaryOperator, BlackboardRow, BufferRow, Name, Place, Priority, SemaphoreRow, Service,
    UnaryOperator,
};

/// One operator of a chain, and its right operand.
#[cycle(expression)]
#[derive(Drop)]
pub struct Link {
    pub operator: BinaryOperator,
    pub operand: Expr,
}

#[cycle(expression)]
#[derive(Drop)]
pub enum Expr {
    Literal(i64),
    Read(Place),
    /// An element of the array at this place of the data; the number is the array's size in words.
    Element(u32, i64, Box<Expr>),
    Unary(UnaryOperator, Box<Expr>),
    Chain(Box<Expr>, Vec<Link>),
    /// The procedure of that number, from 0.
    Apply(u32, Vec<Expr>),
}

#[cycle(statement)]
#[derive(Drop)]
pub enum Stmt {
    Assign(Place, Expr),
    /// An element of the array at this place, of this many words: the index, then the value.
    AssignElement(u32, i64, Expr, Expr),
    If(Expr, Vec<Stmt>),
    IfElse(Expr, Vec<Stmt>, Vec<Stmt>),
    While(Expr, Vec<Stmt>),
    Work(u32),
    Return(Expr),
    /// A name among the arguments is its number, an array its place and its size.
    CallService(Service, Vec<Expr>, Vec<Place>),
}

#[derive(Drop)]
pub struct Procedure {
    pub name: Name,
    pub parameters: u8,
    pub locals: u8,
    pub block: Vec<Stmt>,
}

/// The body of INIT, of the handler or of a process, and the words of its stack.
#[derive(Drop)]
pub struct Body {
    pub stack: u16,
    pub locals: u8,
    pub block: Vec<Stmt>,
}

#[derive(Drop)]
pub struct Process {
    pub name: Name,
    pub priority: Priority,
    pub period: Option<u64>,
    pub capacity: Option<u64>,
    pub body: Body,
}

/// A program with its names resolved. `initial` is the initial data: the words of variables and
/// arrays in the order of declaration.
#[derive(Drop)]
pub struct Program {
    pub initial: Vec<i64>,
    pub semaphores: Vec<SemaphoreRow>,
    pub events: u8,
    pub buffers: Vec<BufferRow>,
    pub blackboards: Vec<BlackboardRow>,
    pub procedures: Vec<Procedure>,
    pub init: Body,
    pub handler: Option<Body>,
    pub processes: Vec<Process>,
}
