//! A program breaks a rule if and only if something is found.

ghost use Rattle.std.specs.Prelude.{◌≡◌, ◌↔◌, nat_le, true, ℕ, List, Ok};
ghost use Rattle.apex_types.specs.declared.cost.Costs.{Costs};
ghost use Rattle.apex_types.specs.Limits.{MOST_INSTRUCTIONS};
ghost use Rattle.apex_types.specs.declared.row.PortRow.{PortRow};
ghost use Rattle.pal.specs.Costs.{costs_of};
ghost use Rattle.pal.specs.ProcedureNames.{names_of_procedures, procedure_names};
ghost use Rattle.pal_base.specs.ProgramView.{program_of};
ghost use Rattle.pal_base.specs.declared.fault.Refusal.TheVariants as rule;
ghost use Rattle.pal_base.specs.declared.fault.Refusal.{Refusal};
ghost use Rattle.pal_base.specs.declared.program.Program.{Program};
ghost use Rattle.pal_meaning.specs.Grammar.{IsProgramOf, IsText};
ghost use Rattle.pal_meaning.specs.Program.{size_of};
ghost use Rattle.pal_meaning.specs.Syntax as written;
ghost use Rattle.pal_meaning.specs.WellFormed.{
  kinds_hold,
  limits_hold,
  names_hold,
  periods_hold,
  verdict,
};
ghost use Rattle.finding_laws.specs.Bytes.{AreOfBytes};
ghost use Rattle.finding_laws.specs.Found.{has_none};
ghost use Rattle.finding_laws.specs.Passed.{AreOfBodies};
ghost use Rattle.finding_laws.specs.Placed.{ArePlaced};
ghost use Rattle.source_findings.specs.Bodies.{wrongs};
ghost use Rattle.source_findings.specs.Lengths.{length_wrongs};
ghost use Rattle.source_findings.specs.Texts.{text_wrongs};

/// A text is ASCII, and no longer than it may be, if and only if nothing is found by the rule on texts.
pub fn texts_are_found()
    ensures { (text : List ℕ) → (has_none (text_wrongs text) ≡ true) ↔ IsText text }
{}

/// Each place that is found by the rule on texts is that of a byte above 127 with none just before it,
/// and what is said gives this byte. Or no byte is above 127, and the place is that of the first one
/// that is too many.
pub fn places_are_bytes()
    ensures { (text : List ℕ) → AreOfBytes text (text_wrongs text) }
{}

/// Each name of a program is declared, and once, if and only if nothing is found by this rule.
pub fn names_are_found()
    ensures { (ports : List PortRow) (period : ℕ) (text : List ℕ) (p : written.Program)
        → names_hold ports p ≡ has_none (wrongs rule.Name period text p) }
{}

/// Each name has the right kind, and each call its arguments and targets, if and only if nothing is
/// found by this rule.
pub fn kinds_are_found()
    ensures { (ports : List PortRow) (period : ℕ) (text : List ℕ) (p : written.Program)
        → kinds_hold ports p ≡ has_none (wrongs rule.Kind period text p) }
{}

/// Everything is within its limits if and only if nothing is found by this rule.
pub fn limits_are_found()
    ensures { (ports : List PortRow) (period : ℕ) (text : List ℕ) (p : written.Program)
        → limits_hold ports p ≡ has_none (wrongs rule.Limit period text p) }
{}

/// Each finite period is a multiple of the partition's if and only if nothing is found by this rule.
pub fn periods_are_found()
    ensures { (period : ℕ) (text : List ℕ) (p : written.Program)
        → periods_hold period p ≡ has_none (wrongs rule.Period period text p) }
{}

/// A program has no more instructions than it may have if and only if no body is found.
pub fn lengths_are_found()
    ensures { (costs : Costs) (text : List ℕ) (p : Program)
        → nat_le (size_of (program_of p)) MOST_INSTRUCTIONS
        ≡ has_none (length_wrongs text (costs_of costs p)) }
{}

/// The place that is found where a program has more instructions than it may have is that of the word
/// with which a body begins in the text. It is the body with which there are too many.
pub fn lengths_are_placed()
    ensures { (costs : Costs) (ports : List PortRow) (period : ℕ) (text : List ℕ)
        (tree : written.Program) (p : Program)
        → IsProgramOf text tree
        → verdict ports period tree ≡ Ok (program_of p)
        → names_of_procedures p.procedures.items ≡ procedure_names tree.declarations
        → AreOfBodies text tree (costs_of costs p) (length_wrongs text (costs_of costs p)) }
{}

/// Each place that is found in the text of a program is that of one of its words, and what is said
/// there names this word or gives its number.
pub fn places_are_words()
    ensures { (rule : Refusal) (period : ℕ) (text : List ℕ) (p : written.Program)
        → IsProgramOf text p
        → ArePlaced text (wrongs rule period text p) }
{}
