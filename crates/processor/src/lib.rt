//! The modelled processor: its instructions as bytes, and what one tick of it does.
//!
//! A process has a [`Context`]; [`step`] spends one tick on its next instruction, and [`advance`]
//! many. An instruction takes the ticks that the table says, and has its effect, or its fault, in
//! the last of them.
#![tactic(auto)]

mod access;
mod arithmetic;
mod burst;
mod calls;
mod code;
mod codec;
mod context;
mod execute;
mod memory;
mod operation;
mod outcome;
mod prepared;
mod registers;
mod run_limits;
mod running;
mod runs;
mod turn;
mod within;

pub use burst::{advance, step};
pub use code::{Code, CodeRows};
pub use codec::{decode, encode, encode_and_decode_agree, fields, op_name};
pub use context::Context;
pub use outcome::{Burst, Outcome};
