//! The words of stack that a body needs. A number that does not fit 64 bits is the greatest number
//! of 64 bits.

ghost use Rattle.std.specs.Prelude.{◌≡◌, min};
ghost use Rattle.pal_meaning.specs.Program as cost;
ghost use Rattle.pal_base.specs.ProgramView.{body_of, block_of};

use crate::operands::operands_of_block;
use crate::program::{Body, Stmt};

/// The frame of the body of INIT, of the handler or of a process: its locals, the most operands
/// that wait together, and two words for the place and the frame of a caller.
pub fn frame_of_body(body: &Body) -> u64
    ensures { result ≡ min (cost.frame_of_body (body_of body.now)) u64.MAX }
{
    (body.locals as u64)
        .saturating_add(operands_of_block(&body.block))
        .saturating_add(2)
}

/// The frame of a procedure: its parameters too, and the 0 with which it closes is an operand.
pub fn frame_of_procedure(parameters: u8, locals: u8, block: &[Stmt]) -> u64
    ensures { result
        ≡ min
        (cost.frame_of_procedure
        (record { parameters = parameters; locals = locals; block = block_of block.now }))
        u64.MAX }
{
    (parameters as u64)
        .saturating_add(locals as u64)
        .saturating_add(operands_of_block(block).max(1))
        .saturating_add(2)
}
