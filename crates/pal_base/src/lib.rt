//! Pal's trees: the program as it is written, and the program with its names resolved.
//!
//! It also says which words fit where a text leaves the grammar, how many constructs a body has,
//! what they cost, and the frame that it needs. The counts are of any tree. A count that does not
//! fit 64 bits is the greatest number that does; an accepted program never reaches it.
#![tactic(auto)]

pub mod checked;
pub mod cost;
mod declaration;
mod expression;
pub mod fault;
pub mod frames;
pub mod looking;
pub mod mark;
mod operands;
pub mod parse;
pub mod program;
pub mod sizes;
mod source;
mod statement;
pub mod syntax;
mod word;
