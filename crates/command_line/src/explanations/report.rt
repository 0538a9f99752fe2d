//! The explanation of a refusal: the sentence of its rule, and what is wrong.

ghost use Rattle.std.specs.Prelude.{◌≡◌, IfSome, string_bytes};
ghost use Rattle.command_line.specs.Explanation as spec;
ghost use Rattle.finding_lines.specs.Reports.{form_of};

use finding_lines::Form;
use std::alloc::Global;

/// A sentence on a line, and the lines after it. Objects of findings have no sentence. There is
/// none if memory runs out.
pub fn explanation(alloc: Global, form: Form<'_>, sentence: &str, lines: &str) -> Option<String>
    ensures { IfSome result
        (λ text. string_bytes text
        ≡ spec.explanation (form_of form.entry) sentence.now lines.now) }
{
    match form {
        Form::Plain => format!(in alloc; "{sentence}\n{lines}").ok(),
        Form::Json(_) => String::from_str(alloc, lines).ok(),
    }
}
