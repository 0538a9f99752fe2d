//! The lines of what is wrong with a text.

ghost use Rattle.std.specs.Prelude.{◌-◌, IfOk, length, option_map, string_bytes};
ghost use Rattle.finding_lines.specs.Lines.{IsAt};
ghost use Rattle.finding_lines.specs.Reports.{report_of};
ghost use Rattle.image_findings.specs.ExplainedText as spec;
ghost use Rattle.image_findings.specs.Views.{names_of};

use crate::finding::Wrong;
use crate::first::first_wrong;
use crate::names::Names;
use crate::phrases::{Said, advice, odd_byte_advice};
use finding_lines::{Report, lines_at};
use std::alloc::{AllocError, Global};

/// What is wrong with a text of these names: the place, what was found there, the line with a mark,
/// and what to do. There is nothing to say of an accepted text.
///
/// # Errors
///
/// Only if memory runs out.
pub fn explain_text(
    alloc: Global,
    report: Report<'_>,
    names: &Names<'_>,
    text: &[u8],
) -> Result<Option<String>, AllocError>
    ensures { IfOk result
        (λ lines. spec.IsExplanation (report_of report.entry) (names_of names.now) text.now
        (option_map string_bytes lines)) }
{
    match first_wrong(alloc, names, text)? {
        Some(wrong) => Ok(Some(wrong_lines(alloc, report, names, text, wrong)?)),
        None => Ok(None),
    }
}

/// The lines of what is wrong where so much of the text is left.
fn wrong_lines(
    alloc: Global,
    report: Report<'_>,
    names: &Names<'_>,
    text: &[u8],
    wrong: Wrong<'_>,
) -> Result<String, AllocError>
    ensures { IfOk result
        (λ lines. IsAt (report_of report.entry) text.now (length text.now - wrong.entry.left)
        (string_bytes lines)) }
{
    let said = Said {
        kind: names.kind,
        what: wrong.what,
    };
    let said = format!(in alloc; "{said}")?;
    let offset = text.len().saturating_sub(wrong.left);
    let advice = match odd_byte_advice(text, offset) {
        Some(advice) => String::from_str(alloc, advice)?,
        None => advice(alloc, names, wrong.what)?,
    };
    lines_at(alloc, report, text, offset, said.as_str(), advice.as_str())
}
