//! The place where a text leaves the grammar.

ghost use Rattle.std.specs.Prelude.{IfOk, string_bytes};
ghost use Rattle.finding_lines.specs.Lines.{IsAt};
ghost use Rattle.finding_lines.specs.Reports.{report_of};
ghost use Rattle.source_findings.specs.Explained.{unfit_offset};

use crate::choices::wanted_at;
use crate::habits::foreign_advice;
use crate::spot::Spot;
use crate::suggestion::suggested;
use finding_lines::{DidYouMean, Report, Shown, lines_at};
use pal_base::looking::LookedFor;
use source_places::from_word;
use std::alloc::{AllocError, Global};

/// The lines of the place where a text leaves the grammar.
///
/// # Errors
///
/// Only if memory runs out.
pub fn unfit_lines(
    alloc: Global,
    report: Report<'_>,
    text: &[u8],
    looked_for: &LookedFor,
) -> Result<String, AllocError>
    ensures { IfOk result
        (λ lines. IsAt (report_of report.entry) text.now (unfit_offset text.now looked_for.now)
        (string_bytes lines)) }
{
    let rest = from_word(text, looked_for.place);
    let spot = Spot::new(text, rest, looked_for.place);
    let said = unfit_said(alloc, spot, looked_for)?;
    let advice = unfit_advice(alloc, spot, looked_for)?;
    let offset = text.len().saturating_sub(rest.len());
    lines_at(alloc, report, text, offset, said.as_str(), advice.as_str())
}

/// What is there where the grammar is left.
fn unfit_said(alloc: Global, spot: Spot<'_>, looked_for: &LookedFor) -> Result<String, AllocError> {
    let wanted = wanted_at(looked_for);
    if spot.ahead.is_empty() {
        return format!(in alloc; "the text ends where {wanted} is wanted");
    }
    let word = Shown(spot.shown_word());
    if looked_for.is_too_deep {
        format!(in alloc; "`{word}` opens more than 64 levels")
    } else if spot.word == b"\0".as_slice() {
        format!(in alloc; "a NUL stands where {wanted} is wanted")
    } else {
        format!(in alloc; "`{word}` stands where {wanted} is wanted")
    }
}

/// What is advised: the nearest word that fits, what Pal has for what is there, or else what to write
/// there.
fn unfit_advice(
    alloc: Global,
    spot: Spot<'_>,
    looked_for: &LookedFor,
) -> Result<String, AllocError> {
    if let Some(advice) = foreign_advice(spot.word) {
        return String::from_str(alloc, advice);
    }
    if let Some(near) = suggested(alloc, spot.text, looked_for)? {
        return format!(in alloc; "{}", DidYouMean(near));
    }
    if looked_for.is_too_deep {
        return String::from_str(
            alloc,
            "Open at most 64 levels of braces, brackets and parentheses, one within another.",
        );
    }
    if let Some(advice) = spot.advice(alloc, looked_for)? {
        return Ok(advice);
    }
    let wanted = wanted_at(looked_for);
    format!(in alloc; "Write {wanted} here.")
}
