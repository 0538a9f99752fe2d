//! What is wrong with the keys of a part of a table, and with the types of their values.

ghost use Rattle.std.specs.Prelude.{◌≡◌, ◌++◌, map, OnOk, option_copied};
ghost use Rattle.toml.specs.View.{table_view, view as value_view};
ghost use Rattle.table_findings.specs.Shape as spec;
ghost use Rattle.table_findings.specs.Views.{findings_of, subject_of, what_of};

use crate::fields::Part;
use crate::finding::{Finding, What};
use crate::members::{member, text_at};
use crate::subject::Subject;
use crate::words::Words;
use std::alloc::AllocError;
use toml::{Table, Value};

/// Adds what is wrong with the keys of a part, and with the types of their values.
pub fn of_part<'a>(
    found: &mut Vec<Finding<'a>>,
    subject: Subject<'a>,
    part: Part,
    table: &'a Table,
) -> Result<(), AllocError>
    ensures { OnOk result
        (findings_of found.new.items
        ≡ findings_of found.old.items ++ spec.of_part (subject_of subject.entry) part (table_view table.now)) }
{
    missing(found, subject, part, part.needed(), table)?;
    members(found, subject, part, table)
}

/// Adds the keys of these that a table lacks.
#[tactic(auto, using(std::proofs::lemmas::List::drop_more, std::proofs::lemmas::List::append_assoc, crate::proofs::Steps::append_nil))]
fn missing<'a>(
    found: &mut Vec<Finding<'a>>,
    subject: Subject<'a>,
    part: Part,
    keys: &[&'static str],
    table: &'a Table,
) -> Result<(), AllocError>
    ensures { OnOk result
        (findings_of found.new.items
        ≡ findings_of found.old.items
        ++ spec.missing (subject_of subject.entry) part (table_view table.now) (map (λ key. key.now) keys.now)) }
{
    for key in keys {
        if member(table, key).is_none() {
            add(found, subject, None, What::Missing(*key, part))?;
        }
    }
    Ok(())
}

/// Adds the keys that a part has not, and the values of another type.
fn members<'a>(
    found: &mut Vec<Finding<'a>>,
    subject: Subject<'a>,
    part: Part,
    table: &'a Table,
) -> Result<(), AllocError>
    ensures { OnOk result
        (findings_of found.new.items
        ≡ findings_of found.old.items ++ spec.members (subject_of subject.entry) part (table_view table.now)) }
{
    for (key, value) in table {
        one_member(found, subject, part, key.as_str(), value)?;
    }
    Ok(())
}

/// Adds a key that the part has not, or a value of another type.
fn one_member<'a>(
    found: &mut Vec<Finding<'a>>,
    subject: Subject<'a>,
    part: Part,
    key: &'a str,
    value: &'a Value,
) -> Result<(), AllocError>
    ensures { OnOk result
        (findings_of found.new.items
        ≡ findings_of found.old.items
        ++ spec.one_member (subject_of subject.entry) part key.now (value_view value.now)) }
{
    match part.wanted(key) {
        None => add(found, subject, Some(key), What::Unknown(part)),
        Some(wanted) => of_type(found, subject, Some(key), wanted, value),
    }
}

/// Adds a value of another type.
pub fn of_type<'a>(
    found: &mut Vec<Finding<'a>>,
    subject: Subject<'a>,
    key: Option<&'a str>,
    wanted: &'static str,
    value: &'a Value,
) -> Result<(), AllocError>
    ensures { OnOk result
        (findings_of found.new.items
        ≡ findings_of found.old.items
        ++ spec.of_type (subject_of subject.entry) (option_copied key.entry) wanted.now (value_view value.now)) }
{
    let found_type = value.type_str();
    if found_type == wanted {
        return Ok(());
    }
    let what = What::OtherType {
        wanted,
        found: found_type,
    };
    add(found, subject, key, what)
}

/// Adds a text that is none of its words.
pub fn word<'a>(
    found: &mut Vec<Finding<'a>>,
    subject: Subject<'a>,
    key: &'static str,
    words: Words,
    table: &'a Table,
) -> Result<(), AllocError>
    ensures { OnOk result
        (findings_of found.new.items
        ≡ findings_of found.old.items
        ++ spec.word (subject_of subject.entry) key.now words (table_view table.now)) }
{
    match text_at(table, key) {
        None => Ok(()),
        Some(text) => {
            if words.has(text) {
                Ok(())
            } else {
                add(found, subject, Some(key), What::NoWord { text, words })
            }
        }
    }
}

/// Adds a finding.
pub fn add<'a>(
    found: &mut Vec<Finding<'a>>,
    subject: Subject<'a>,
    key: Option<&'a str>,
    what: What<'a>,
) -> Result<(), AllocError>
    ensures { OnOk result
        (findings_of found.new.items
        ≡ findings_of found.old.items
        ++ spec.one (subject_of subject.entry) (option_copied key.entry) (what_of what.entry)) }
{
    found.extend_from_slice(&[Finding { subject, key, what }])
}
