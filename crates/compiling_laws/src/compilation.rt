//! Laws over compilation: a compiled program is its source to everyone outside.

ghost use Rattle.pal_meaning.specs.Program.{Program};
ghost use Rattle.compiling_laws.specs.Fits.{Fits};
ghost use Rattle.compiling_laws.specs.Related.{CompiledCorrectly};

/// The processor over the section of a program that fits behaves as the program's source: at each
/// start of a body, in each tick over any data, and with each reply.
pub fn compiled_correctly()
    ensures { (program : Program) → Fits program → CompiledCorrectly program }
{}
