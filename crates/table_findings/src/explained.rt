//! The findings of a table, each with its place, the line there, and advice.

ghost use Rattle.std.specs.Prelude.{◌≡◌, IfOk, map, option_map, string_bytes, take};
ghost use Rattle.finding_lines.specs.Lines.{AreAt, IsAt};
ghost use Rattle.finding_lines.specs.Reports.{report_of};
ghost use Rattle.finding_lines.specs.Views.{entries_in, entry_of, path_of};
ghost use Rattle.table_findings.specs.Explained as spec;
ghost use Rattle.table_findings.specs.Views.{finding_of, findings_of, what_of};

use crate::finding::{Finding, What};
use crate::lookup::Lookup;
use crate::subject::{push_key, subject_path};
use finding_lines::{Entry, Report, Step, TomlPlaces, lines_at};
use std::alloc::{AllocError, Global};

/// The most findings that are shown.
const MOST_FINDINGS: usize = 20;

/// The lines of the first twenty findings in a text with these places.
///
/// # Errors
///
/// Only if memory runs out.
pub fn findings_text(
    alloc: Global,
    report: Report<'_>,
    text: &str,
    places: &TomlPlaces,
    found: &[Finding<'_>],
) -> Result<String, AllocError>
    ensures { IfOk result
        (λ lines. spec.AreOf (report_of report.entry) text.now (entries_in places.now)
        (findings_of found.now) (string_bytes lines)) }
{
    all_lines(alloc, report, text, places, first_findings(found))
}

/// The first twenty findings.
#[tactic(auto, using(std::proofs::lemmas::List::take_min, crate::proofs::Steps::findings_taken))]
fn first_findings<'f, 'a>(found: &'f [Finding<'a>]) -> &'f [Finding<'a>]
    ensures { findings_of result.now ≡ take 20 (findings_of found.now) }
{
    let (first, _) = found.split_at(MOST_FINDINGS.min(found.len()));
    first
}

/// The lines of findings.
fn all_lines(
    alloc: Global,
    report: Report<'_>,
    text: &str,
    places: &TomlPlaces,
    found: &[Finding<'_>],
) -> Result<String, AllocError>
    ensures { IfOk result
        (λ lines. AreAt (report_of report.entry) text.now
        (map (spec.offset_of text.now (entries_in places.now)) (findings_of found.now))
        (string_bytes lines)) }
{
    let mut lines = String::new(alloc);
    for finding in found {
        lines.push_str(&lines_of(alloc, report, text, places, *finding)?)?;
    }
    Ok(lines)
}

/// The lines of a finding: its place and what it says, the line there with a mark, and the advice.
fn lines_of(
    alloc: Global,
    report: Report<'_>,
    text: &str,
    places: &TomlPlaces,
    finding: Finding<'_>,
) -> Result<String, AllocError>
    ensures { IfOk result
        (λ lines. IsAt (report_of report.entry) text.now
        (spec.offset_of text.now (entries_in places.now) (finding_of finding.entry))
        (string_bytes lines)) }
{
    let path = finding_path(alloc, finding)?;
    let left = left_at(text.len(), finding.what, places.first_at(path.as_slice()));
    let offset = text.len().saturating_sub(left);
    let said = format!(in alloc; "{finding}")?;
    let advice = Lookup { text, places }.advice(alloc, finding)?;
    lines_at(
        alloc,
        report,
        text.as_bytes(),
        offset,
        said.as_str(),
        advice.as_str(),
    )
}

/// The key path of a finding.
fn finding_path<'a>(alloc: Global, finding: Finding<'a>) -> Result<Vec<Step<'a>>, AllocError>
    ensures { IfOk result (λ path. path_of path.items ≡ spec.finding_path (finding_of finding.entry)) }
{
    let mut path = subject_path(alloc, finding.subject)?;
    if let Some(key) = finding.key {
        push_key(&mut path, key)?;
    }
    Ok(path)
}

/// How much of the text is left at the place of a finding.
fn left_at(whole: usize, what: What<'_>, entry: Option<&Entry>) -> usize
    ensures { result ≡ spec.left_at whole (what_of what.entry) (option_map (λ e. entry_of e.now) entry.entry) }
{
    match entry {
        None => whole,
        Some(entry) => {
            if is_of_key(what) {
                entry.key_left
            } else {
                entry.value_left
            }
        }
    }
}

/// Returns true if what is found is about the key, and not about its value.
fn is_of_key(what: What<'_>) -> bool
    ensures { result ≡ spec.is_of_key (what_of what.entry) }
{
    matches!(what, What::Missing(..) | What::Unknown(_))
}
