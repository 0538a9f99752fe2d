//! What is wrong with a table that is refused.

ghost use Rattle.std.specs.Prelude.{◌≡◌, ◌++◌, IfSome, OnSome, string_bytes};
ghost use Rattle.finding_lines.specs.Reports.{report_of};
ghost use Rattle.toml.specs.Errors.{IsMemory, IsWithin};
ghost use Rattle.toml.specs.View.{table_view};
ghost use Rattle.table_findings.specs.Refused as spec;
ghost use Rattle.table_findings.specs.Views.{findings_of};
ghost use Rattle.window_table.specs.Views.{table_text};

use crate::actions::health;
use crate::bounds::limits;
use crate::durations::short_periods;
use crate::explained::findings_text;
use crate::finding::Finding;
use crate::fitting::ends;
use crate::forms::shape;
use crate::no_toml::{Remark, told};
use crate::repeated::repeated_names;
use crate::schedule::{odd_periods, overlaps, without_release};
use crate::unknown::unknown_names;
use finding_lines::{Report, TomlPlaces, lines_at};
use std::alloc::Global;
use toml::Table;
use toml::de::Error;
use window_table::{TableFault, WrittenTable, read_written};

/// What is wrong with a table that is refused by this rule: the lines of the first twenty findings.
/// There are none if memory runs out.
pub fn explain_table(
    alloc: Global,
    report: Report<'_>,
    bytes: &[u8],
    fault: TableFault,
) -> Option<String>
    ensures { IfSome result
        (λ lines. spec.IsExplanation (report_of report.entry) bytes.now fault (string_bytes lines)) }
{
    match toml::table_from_slice(alloc, bytes) {
        Ok(document) => {
            let text = std::str::from_utf8(bytes).ok()?;
            explain_document(alloc, report, text, &document, fault)
        }
        Err(error) => explain_error(alloc, report, bytes, &error),
    }
}

/// Where the reading of a document ended, and why.
fn explain_error(alloc: Global, report: Report<'_>, bytes: &[u8], error: &Error) -> Option<String>
    requires { IsWithin bytes.now error.now }
    ensures ended { IfSome result
        (λ lines. spec.IsEnded (report_of report.entry) bytes.now (string_bytes lines)) }
    ensures text { IfSome result (λ lines. ¬ IsMemory error.now) }
{
    let span = error.span()?;
    let Remark { said, advice } = told(alloc, bytes, span.start, error.message())?;
    lines_at(
        alloc,
        report,
        bytes,
        span.start,
        said.as_str(),
        advice.as_str(),
    )
    .ok()
}

/// The findings of a document.
fn explain_document(
    alloc: Global,
    report: Report<'_>,
    text: &str,
    document: &Table,
    fault: TableFault,
) -> Option<String>
    ensures { IfSome result
        (λ lines. spec.IsOfDocument (report_of report.entry) text.now (table_view document.now) fault
        (string_bytes lines)) }
{
    let places = TomlPlaces::read(alloc, text)?;
    let mut found = Vec::new(alloc);
    findings(alloc, &mut found, document, fault)?;
    findings_text(alloc, report, text, &places, found.as_slice()).ok()
}

/// Adds what breaks a rule in a document.
pub fn findings<'a>(
    alloc: Global,
    found: &mut Vec<Finding<'a>>,
    document: &'a Table,
    fault: TableFault,
) -> Option<()>
    ensures { OnSome result
        (findings_of found.new.items
        ≡ findings_of found.old.items ++ spec.findings fault (table_view document.now)) }
{
    match fault {
        TableFault::Shape => shape(found, document).ok(),
        TableFault::Health => health(found, document).ok(),
        _ => { findings_with(alloc, found, document, fault) }
    }
}

/// The same, if its keys and types are right.
fn findings_with<'a>(
    alloc: Global,
    found: &mut Vec<Finding<'a>>,
    document: &'a Table,
    fault: TableFault,
) -> Option<()>
    ensures { OnSome result
        (findings_of found.new.items
        ≡ findings_of found.old.items ++ spec.findings_with fault (table_view document.now)) }
{
    match read_written(alloc, document) {
        Ok(table) => findings_in(alloc, found, &table, fault),
        Err(_) => None,
    }
}

/// Adds what breaks a rule in a table whose keys and types are right.
fn findings_in<'a>(
    alloc: Global,
    found: &mut Vec<Finding<'a>>,
    table: &WrittenTable<'a>,
    fault: TableFault,
) -> Option<()>
    ensures { OnSome result
        (findings_of found.new.items
        ≡ findings_of found.old.items ++ spec.findings_in fault (table_text table.now)) }
{
    match fault {
        TableFault::Limit => limits(found, table).ok(),
        TableFault::Name => {
            repeated_names(alloc, found, table).ok()?;
            unknown_names(alloc, found, table).ok()
        }
        TableFault::Overlap => overlaps(found, table).ok(),
        TableFault::Period => odd_periods(found, table).ok(),
        TableFault::Duration => short_periods(found, table).ok(),
        TableFault::Ends => ends(alloc, found, table).ok(),
        TableFault::Release => without_release(found, table).ok(),
        _ => Some(()),
    }
}
