//! The explanations of a refused source, of a program that is too long, and of a refused table.

ghost use Rattle.std.specs.Prelude.{IfSome, string_bytes};
ghost use Rattle.command_line.specs.Explanation.{IsLengthExplanation, IsSourceExplanation, IsTableExplanation};
ghost use Rattle.finding_lines.specs.Reports.{report_of};

use crate::explanations::report::explanation;
use crate::explanations::sentences::{
    CommandFault, command_sentence, source_sentence, table_sentence,
};
use finding_lines::Report;
use pal::BodyCost;
use pal_base::fault::Refusal;
use std::alloc::Global;
use window_table::TableFault;

/// The explanation of a refusal of that source, for a partition of this period: a line with the
/// sentence of the rule, and the lines of what is wrong with it. There is none if memory runs out.
pub fn explain_source(
    alloc: Global,
    report: Report<'_>,
    period: u32,
    source: &[u8],
    refusal: Refusal,
) -> Option<String>
    ensures { IfSome result
        (λ text.
        IsSourceExplanation (report_of report.entry) period source.now refusal
        (string_bytes text)) }
{
    let lines = source_findings::explain_source(alloc, report, period, source, refusal)?;
    explanation(alloc, report.form, source_sentence(refusal), lines.as_str())
}

/// The explanation that the program of that source is too long, by the costs of its bodies: a line with
/// the sentence of the rule, and the lines of the body with which it is. There is none if memory runs
/// out.
pub fn explain_length(
    alloc: Global,
    report: Report<'_>,
    source: &[u8],
    bodies: &[BodyCost],
) -> Option<String>
    ensures { IfSome result
        (λ text.
        IsLengthExplanation (report_of report.entry) source.now bodies.now (string_bytes text)) }
{
    let lines = source_findings::explain_length(alloc, report, source, bodies)?;
    let sentence = command_sentence(CommandFault::Compile);
    explanation(alloc, report.form, sentence, lines.as_str())
}

/// The explanation of a refusal of that table: a line with the sentence of the rule, and the lines of
/// what is wrong with it. There is none if memory runs out.
pub fn explain_table(
    alloc: Global,
    report: Report<'_>,
    table: &[u8],
    fault: TableFault,
) -> Option<String>
    ensures { IfSome result
        (λ text.
        IsTableExplanation (report_of report.entry) table.now fault (string_bytes text)) }
{
    let lines = table_findings::explain_table(alloc, report, table, fault)?;
    explanation(alloc, report.form, table_sentence(fault), lines.as_str())
}
