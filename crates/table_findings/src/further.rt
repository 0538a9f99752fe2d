//! What is wrong with a table by the rules after the one of its refusal. `tests/explanations` holds the
//! lines.

use crate::explain::findings;
use crate::explained::findings_text;
use crate::finding::{Finding, What};
use crate::subject::Subject;
use finding_lines::{Form, Report, TomlPlaces};
use std::alloc::{AllocError, Global};
use toml::Table;
use window_table::TableFault;

/// What is wrong with a table by one rule.
#[derive(Drop)]
pub struct Further {
    pub rule: TableFault,
    pub lines: String,
}

/// The rules that a table may break together, in their order.
static RULES: [TableFault; 8] = [
    TableFault::Limit,
    TableFault::Name,
    TableFault::Overlap,
    TableFault::Period,
    TableFault::Duration,
    TableFault::Release,
    TableFault::Ends,
    TableFault::Health,
];

/// What of a table is wrong already: a rule is not judged by what is.
#[derive(Clone, Copy)]
struct Spoilt {
    /// A name that others refer to, or one that refers to nothing.
    names: bool,
    /// A number of the frame, a partition or a window.
    times: bool,
    /// Windows and periods do not fit the frame.
    windows: bool,
    /// A port or an end of a channel.
    ends: bool,
}

impl Spoilt {
    /// Nothing is wrong yet.
    const NOT: Self = Spoilt {
        names: false,
        times: false,
        windows: false,
        ends: false,
    };

    /// With some findings more.
    fn by_all(self, found: &[Finding<'_>]) -> Spoilt {
        let mut spoilt = self;
        for finding in found {
            spoilt = spoilt.by(*finding);
        }
        spoilt
    }

    /// With a finding more.
    fn by(self, finding: Finding<'_>) -> Spoilt {
        let mut spoilt = self;
        match (finding.what, finding.subject) {
            (What::NoEnd(_), _) => spoilt.ends = true,
            (What::NoName(_) | What::SameName { .. } | What::NoPartition { .. }, _) => {
                spoilt.names = true;
            }
            (What::Overlaps { .. } | What::PastFrame { .. } | What::OddPeriod { .. }, _) => {
                spoilt.windows = true;
            }
            (_, Subject::Module | Subject::Partition(_) | Subject::Window(_)) => {
                spoilt.times = true;
            }
            (_, Subject::Port { .. } | Subject::Channel(_) | Subject::Destination(..)) => {
                spoilt.ends = true;
            }
            (_, Subject::Costs | Subject::Health(_)) => {}
        }
        spoilt
    }

    /// Returns true if what breaks this rule does not follow from what is wrong already.
    fn spares(self, rule: TableFault) -> bool {
        match rule {
            TableFault::Name | TableFault::Release => !self.names,
            TableFault::Overlap | TableFault::Period => !self.times,
            TableFault::Duration => !self.names && !self.times && !self.windows,
            TableFault::Ends => !self.names && !self.ends,
            _ => true,
        }
    }
}

/// What is wrong with a table by the rules after the one of its refusal, where it does not follow from
/// what is wrong before. Nothing follows a text whose keys and types are wrong.
///
/// # Errors
///
/// Only if memory runs out.
pub fn explain_further(
    alloc: Global,
    file: &str,
    bytes: &[u8],
    first: TableFault,
    is_plain: bool,
) -> Result<Vec<Further>, AllocError> {
    let (Ok(document), Ok(text)) = (toml::table_from_slice(alloc, bytes), str::from_utf8(bytes))
    else {
        return Ok(Vec::new(alloc));
    };
    let Some(places) = TomlPlaces::read(alloc, text) else {
        return Ok(Vec::new(alloc));
    };
    let table = PlacedTable {
        file,
        text,
        places: &places,
        is_plain,
    };
    further_in(alloc, &table, &document, first)
}

/// A table as it is shown: the name of its file, its text, and where its entries are.
#[derive(Clone, Copy)]
struct PlacedTable<'a> {
    file: &'a str,
    text: &'a str,
    places: &'a TomlPlaces,
    is_plain: bool,
}

fn further_in(
    alloc: Global,
    table: &PlacedTable<'_>,
    document: &Table,
    first: TableFault,
) -> Result<Vec<Further>, AllocError> {
    let mut all = Vec::new(alloc);
    let mut spoilt = Spoilt::NOT;
    for rule in &RULES {
        if first.number() <= rule.number() && spoilt.spares(*rule) {
            let mut found = Vec::new(alloc);
            if findings(alloc, &mut found, document, *rule).is_none() {
                return Ok(all);
            }
            spoilt = spoilt.by_all(found.as_slice());
            if first.number() < rule.number() && !found.is_empty() {
                all.push(table.further(alloc, *rule, found.as_slice())?)?;
            }
        }
    }
    Ok(all)
}

impl PlacedTable<'_> {
    fn further(
        &self,
        alloc: Global,
        rule: TableFault,
        found: &[Finding<'_>],
    ) -> Result<Further, AllocError> {
        let told = format!(in alloc; "table {}", rule.number())?;
        let report = report(self.file, self.is_plain, told.as_str());
        let lines = findings_text(alloc, report, self.text, self.places, found)?;
        Ok(Further { rule, lines })
    }
}

fn report<'a>(file: &'a str, is_plain: bool, rule: &'a str) -> Report<'a> {
    let form = if is_plain {
        Form::Plain
    } else {
        Form::Json(rule)
    };
    Report { file, form }
}
