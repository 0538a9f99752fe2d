//! The lines of a finding.

ghost use Rattle.std.specs.Prelude.{◌≡◌, IfOk, string_bytes};
ghost use Rattle.finding_lines.specs.Lines as spec;
ghost use Rattle.finding_lines.specs.Reports.{report_of};

use crate::objects::{at_byte, at_place, object_line, of_file, of_rule};
use crate::report::{Form, Report};
use crate::shown::marked_line;
use crate::text::place_of;
use std::alloc::{AllocError, Global};

/// A finding at an offset of a text: the line with its place and what it says, the line of the text
/// with a mark below the place, and the advice.
///
/// # Errors
///
/// Only if memory runs out.
pub fn lines_at(
    alloc: Global,
    report: Report<'_>,
    text: &[u8],
    offset: usize,
    said: &str,
    advice: &str,
) -> Result<String, AllocError>
    ensures { IfOk result
        (λ lines. spec.IsAt (report_of report.entry) text.now offset (string_bytes lines)) }
{
    let file = report.file;
    let place = place_of(text, offset);
    match report.form {
        Form::Plain => {
            let (line, column) = (place.line, place.column);
            let marked = marked_line(alloc, text, offset)?;
            let marked = marked.as_str();
            format!(in alloc; "{file}:{line}:{column}: {said}\n{marked}{advice}\n")
        }
        Form::Json(rule) => {
            object_line(alloc, &at_place(alloc, file, place, rule, said, advice)?)
        }
    }
}

/// A finding at a byte of a file that is no text, counted from 0.
///
/// # Errors
///
/// Only if memory runs out.
pub fn byte_lines(
    alloc: Global,
    report: Report<'_>,
    offset: usize,
    said: &str,
    advice: &str,
) -> Result<String, AllocError>
    ensures { IfOk result
        (λ lines. spec.IsAtByte (report_of report.entry) offset (string_bytes lines)) }
{
    let file = report.file;
    match report.form {
        Form::Plain => format!(in alloc; "{file}: byte {offset}: {said}\n{advice}\n"),
        Form::Json(rule) => {
            object_line(alloc, &at_byte(alloc, file, offset, rule, said, advice)?)
        }
    }
}

/// A finding without a place.
///
/// # Errors
///
/// Only if memory runs out.
pub fn file_lines(
    alloc: Global,
    report: Report<'_>,
    said: &str,
    advice: &str,
) -> Result<String, AllocError>
    ensures { IfOk result (λ lines. spec.IsOfFile (report_of report.entry) (string_bytes lines)) }
{
    let file = report.file;
    match report.form {
        Form::Plain => format!(in alloc; "{file}: {said}\n{advice}\n"),
        Form::Json(rule) => object_line(alloc, &of_file(alloc, file, rule, said, advice)?),
    }
}

/// The object of a refusal that is about no file.
///
/// # Errors
///
/// Only if memory runs out.
pub fn rule_line(alloc: Global, rule: &str, said: &str, advice: &str) -> Result<String, AllocError>
    ensures { IfOk result
        (λ line. string_bytes line ≡ spec.rule_line rule.now said.now advice.now) }
{
    object_line(alloc, &of_rule(alloc, rule, said, advice)?)
}
