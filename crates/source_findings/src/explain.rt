//! The lines of what is wrong with a source.

ghost use Rattle.std.specs.Prelude.{IfOk, IfSome, Some, string_bytes};
ghost use Rattle.finding_lines.specs.Lines.{IsAt};
ghost use Rattle.pal_base.specs.Leaving.{IsLookedFor};
ghost use Rattle.pal_base.specs.WrittenView.{program_of};
ghost use Rattle.pal_meaning.specs.Grammar.{IsProgramOf};
ghost use Rattle.source_findings.specs.Bodies.{wrongs};
ghost use Rattle.finding_lines.specs.Reports.{report_of};
ghost use Rattle.source_findings.specs.Explained as spec;
ghost use Rattle.source_findings.specs.Texts.{text_wrongs};
ghost use Rattle.source_findings.specs.Views.{wrong_of, wrongs_of};

use crate::declarations::wrongs;
use crate::finding::Wrong;
use crate::lengths::length_wrongs;
use crate::phrases::Advice;
use crate::texts::text_wrongs;
use crate::unfit::unfit_lines;
use finding_lines::{Report, lines_at};
use pal::BodyCost;
use pal_base::fault::Refusal;
use pal_base::looking::{LookedFor, looked_for};
use pal_base::parse::parse;
use pal_base::syntax::Program;
use std::alloc::{AllocError, Global};

/// The bytes with which some editors begin a text.
static BYTE_ORDER_MARK: &[u8] = b"\xEF\xBB\xBF";

/// What is wrong with a source by the rule of its refusal, for a partition of this period: each place
/// where the rule is broken, at most twenty of them, what was found there, the line with a mark, and
/// what to do. There is none if memory runs out, or if the text is refused by another rule.
pub fn explain_source(
    alloc: Global,
    report: Report<'_>,
    period: u32,
    text: &[u8],
    rule: Refusal,
) -> Option<String>
    ensures { IfSome result
        (λ lines. spec.IsExplanation (report_of report.entry) period text.now rule (string_bytes lines)) }
{
    match rule {
        Refusal::Text => text_lines(alloc, report, text),
        Refusal::Grammar => grammar_lines(alloc, report, text),
        _ => program_lines(alloc, report, period, text, rule),
    }
}

/// The body that makes a program of this text too long, by the costs of its bodies: its first word,
/// how many instructions all bodies and this body have, the line with a mark, and what to do. There
/// is none if memory runs out.
pub fn explain_length(
    alloc: Global,
    report: Report<'_>,
    text: &[u8],
    bodies: &[BodyCost],
) -> Option<String>
    ensures { IfSome result
        (λ lines. spec.IsOfLength (report_of report.entry) text.now bodies.now (string_bytes lines)) }
{
    let found = length_wrongs(alloc, text, bodies).ok()?;
    all_lines(alloc, report, text, found.as_slice()).ok()
}

/// What is wrong with a text that is no source.
fn text_lines(alloc: Global, report: Report<'_>, text: &[u8]) -> Option<String>
    ensures { IfSome result
        (λ lines. spec.AreOf (report_of report.entry) text.now (text_wrongs text.now) (string_bytes lines)) }
{
    let found = text_wrongs(alloc, text).ok()?;
    all_lines(alloc, report, text, found.as_slice()).ok()
}

/// The place where a text leaves the grammar.
fn grammar_lines(alloc: Global, report: Report<'_>, text: &[u8]) -> Option<String>
    ensures { IfSome result (λ lines. spec.IsUnfit (report_of report.entry) text.now (string_bytes lines)) }
{
    let place = unfit_place(alloc, text)?;
    place_lines(alloc, report, text, &place)
}

/// Where a text leaves the grammar, if it does and there is memory for it.
fn unfit_place(alloc: Global, text: &[u8]) -> Option<LookedFor>
    ensures { IfSome result (λ place. IsLookedFor text.now (Some place)) }
{
    match looked_for(alloc, text) {
        Ok(place) => place,
        Err(_) => None,
    }
}

/// The lines of the place where a text leaves the grammar.
fn place_lines(alloc: Global, report: Report<'_>, text: &[u8], place: &LookedFor) -> Option<String>
    ensures { IfSome result
        (λ lines. IsAt (report_of report.entry) text.now (spec.unfit_offset text.now place.now) (string_bytes lines)) }
{
    unfit_lines(alloc, report, text, place).ok()
}

/// Each place where the program of a text breaks a rule.
fn program_lines(
    alloc: Global,
    report: Report<'_>,
    period: u32,
    text: &[u8],
    rule: Refusal,
) -> Option<String>
    ensures { IfSome result
        (λ lines. spec.IsOfProgram (report_of report.entry) period text.now rule (string_bytes lines)) }
{
    let program = read_program(alloc, text)?;
    broken_lines(alloc, report, period, text, rule, &program)
}

/// The program of a text, if it is one and there is memory for it.
fn read_program(alloc: Global, text: &[u8]) -> Option<Program>
    ensures { IfSome result (λ program. IsProgramOf text.now (program_of program)) }
{
    match parse(alloc, text) {
        Ok(program) => Some(program),
        Err(_) => None,
    }
}

/// Each place where a program breaks a rule.
fn broken_lines(
    alloc: Global,
    report: Report<'_>,
    period: u32,
    text: &[u8],
    rule: Refusal,
    program: &Program,
) -> Option<String>
    ensures { IfSome result
        (λ lines. spec.AreOf (report_of report.entry) text.now
        (wrongs rule period text.now (program_of program.now)) (string_bytes lines)) }
{
    let found = wrongs(alloc, rule, period, text, program).ok()?;
    all_lines(alloc, report, text, found.as_slice()).ok()
}

/// The lines of all places.
fn all_lines(
    alloc: Global,
    report: Report<'_>,
    text: &[u8],
    found: &[Wrong<'_>],
) -> Result<String, AllocError>
    ensures { IfOk result
        (λ lines. spec.AreOf (report_of report.entry) text.now (wrongs_of found.now) (string_bytes lines)) }
{
    let mut lines = String::new(alloc);
    for wrong in found {
        lines.push_str(&wrong_lines(alloc, report, text, *wrong)?)?;
    }
    Ok(lines)
}

/// The lines of a place.
pub fn wrong_lines(
    alloc: Global,
    report: Report<'_>,
    text: &[u8],
    wrong: Wrong<'_>,
) -> Result<String, AllocError>
    ensures { IfOk result
        (λ lines. IsAt (report_of report.entry) text.now
        (spec.offset_of text.now (wrong_of wrong.entry)) (string_bytes lines)) }
{
    let (said, advice) = (wrong.what, Advice(wrong.what));
    let (said, advice) = (format!(in alloc; "{said}")?, format!(in alloc; "{advice}")?);
    let offset = text.len().saturating_sub(wrong.left);
    if offset == 0 && text.starts_with(BYTE_ORDER_MARK) {
        let said = "the text begins with a byte order mark";
        return lines_at(
            alloc,
            report,
            text,
            offset,
            said,
            "Save it without this mark.",
        );
    }
    lines_at(alloc, report, text, offset, said.as_str(), advice.as_str())
}
