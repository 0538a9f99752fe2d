//! A program that was accepted.

ghost use Rattle.pal_base.specs.Accepted.{IsAccepted};
ghost use Rattle.pal_base.specs.ProgramView.{program_of};

use crate::program::Program;

/// A program that was accepted: a source text is a program that is well formed for a partition, and this
/// is that program.
#[derive(Drop)]
pub struct Checked {
    /// The program with its names resolved.
    pub program: Program,
    pub ghost accepted: { ∥ IsAccepted (program_of program) ∥₁ },
}
