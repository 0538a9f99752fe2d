//! What is wrong with the health tables and with the actions of a table.

ghost use Rattle.std.specs.Prelude.{◌≡◌, ◌++◌, OnOk};
ghost use Rattle.toml.specs.View.{items_view, table_view, view as value_view};
ghost use Rattle.table_findings.specs.Health as spec;
ghost use Rattle.table_findings.specs.Shape.{each};
ghost use Rattle.table_findings.specs.Views.{findings_of, row_of, subject_of};

use crate::fields::Part;
use crate::finding::{Finding, What};
use crate::members::{items_at, table_at};
use crate::part::{add, of_part, word};
use crate::rows::row_at;
use crate::subject::{Row, Subject};
use crate::words::Words;
use std::alloc::AllocError;
use toml::{Table, Value};

/// Adds each key that a health table lacks or has not, and each action that is none of its words.
///
/// # Errors
///
/// Only if memory runs out.
pub fn health<'a>(found: &mut Vec<Finding<'a>>, document: &'a Table) -> Result<(), AllocError>
    ensures { OnOk result
        (findings_of found.new.items
        ≡ findings_of found.old.items ++ spec.health (table_view document.now)) }
{
    word(
        found,
        Subject::Module,
        "fault",
        Words::ModuleAction,
        document,
    )?;
    partitions(found, items_at(document, "partition"))
}

#[tactic(auto, using(std::proofs::lemmas::List::drop_more, std::proofs::lemmas::List::append_assoc, crate::proofs::Steps::append_nil))]
fn partitions<'a>(found: &mut Vec<Finding<'a>>, values: &'a [Value]) -> Result<(), AllocError>
    ensures { OnOk result
        (findings_of found.new.items
        ≡ findings_of found.old.items ++ each spec.partition 0 (items_view values.now)) }
{
    for (index, value) in values.iter().enumerate() {
        partition(found, index, value)?;
    }
    Ok(())
}

fn partition<'a>(
    found: &mut Vec<Finding<'a>>,
    index: usize,
    value: &'a Value,
) -> Result<(), AllocError>
    ensures { OnOk result
        (findings_of found.new.items
        ≡ findings_of found.old.items ++ spec.partition index (value_view value.now)) }
{
    match value.as_table() {
        None => Ok(()),
        Some(table) => errors(found, row_at(index, "name", table), table),
    }
}

/// Adds what is wrong with the health table of a partition.
fn errors<'a>(
    found: &mut Vec<Finding<'a>>,
    row: Row<'a>,
    table: &'a Table,
) -> Result<(), AllocError>
    ensures { OnOk result
        (findings_of found.new.items
        ≡ findings_of found.old.items ++ spec.errors (row_of row.entry) (table_view table.now)) }
{
    match table_at(table, "hm") {
        None => Ok(()),
        Some(errors) => {
            of_part(found, Subject::Health(row), Part::Health, errors)?;
            actions(found, Subject::Health(row), errors)
        }
    }
}

/// Adds each text of a health table that is no action.
fn actions<'a>(
    found: &mut Vec<Finding<'a>>,
    subject: Subject<'a>,
    table: &'a Table,
) -> Result<(), AllocError>
    ensures { OnOk result
        (findings_of found.new.items
        ≡ findings_of found.old.items ++ spec.actions (subject_of subject.entry) (table_view table.now)) }
{
    for (key, value) in table {
        action(found, subject, key.as_str(), value)?;
    }
    Ok(())
}

fn action<'a>(
    found: &mut Vec<Finding<'a>>,
    subject: Subject<'a>,
    key: &'a str,
    value: &'a Value,
) -> Result<(), AllocError>
    ensures { OnOk result
        (findings_of found.new.items
        ≡ findings_of found.old.items
        ++ spec.action (subject_of subject.entry) key.now (value_view value.now)) }
{
    let words = Words::PartitionAction;
    match value.as_str() {
        None => Ok(()),
        Some(text) => {
            if words.has(text) {
                Ok(())
            } else {
                add(found, subject, Some(key), What::NoWord { text, words })
            }
        }
    }
}
