//! Programs and their words.

ghost use Rattle.std.specs.Prelude.{◌≡◌, ◌≤◌, ◌-◌, ℕ, List, length, Ok, Err};
ghost use Rattle.pal_meaning.specs.Beginning.{LeavesAt};
ghost use Rattle.pal_laws.specs.GrammarReading.{program_at};
ghost use Rattle.pal_meaning.specs.Grammar.{IsWritten, Word};
ghost use Rattle.pal_meaning.specs.Syntax.{Program};

/// A program that is read is written so: the words are those of the program, its operators are in
/// the order of their ranks, and it opens at most 64 levels.
pub fn program_is_written_so()
    ensures { (words : List Word) (program : Program) → program_at words ≡ Ok program
        → IsWritten words program }
{}

/// The words of a written program are read as that program.
pub fn written_program_is_read()
    ensures { (words : List Word) (program : Program) → IsWritten words program
        → program_at words ≡ Ok program }
{}

/// Words are written as one program at most.
pub fn words_are_of_one_program()
    ensures { (words : List Word) (first second : Program) → IsWritten words first
        → IsWritten words second → first ≡ second }
{}

/// Refused words leave the grammar at the reported place: the words before the place begin a
/// program, and no program begins with these words and the word at the place.
pub fn refused_words_leave_the_grammar()
    ensures { (words : List Word) (left : ℕ) → program_at words ≡ Err left
        → (left ≤ length words) × LeavesAt words (length words - left) }
{}
