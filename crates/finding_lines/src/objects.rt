//! The JSON objects of findings, one a line.

ghost use Rattle.std.specs.Prelude.{◌≡◌, false, IfOk, OnOk, string_bytes};
ghost use Rattle.finding_lines.specs.Objects as spec;
ghost use Rattle.serde_json.specs.Data.{number, put as with_member, string, unsigned};
ghost use Rattle.serde_json.specs.View.{members_view, view};
ghost use Rattle.serde_json.specs.Written.{has_float};

use crate::text::Place;
use serde_json::{Map, Value, put};
use std::alloc::{AllocError, Global};

/// What each object has: the rule, what is said, and the advice.
fn members(
    alloc: Global,
    rule: &str,
    said: &str,
    advice: &str,
) -> Result<Map<String, Value>, AllocError>
    ensures { IfOk result
        (λ m. members_view m.entries ≡ spec.told rule.now said.now advice.now) }
{
    let mut members = Map::new(alloc);
    put_text(alloc, &mut members, "rule", rule)?;
    put_text(alloc, &mut members, "message", said)?;
    put_text(alloc, &mut members, "advice", advice)?;
    Ok(members)
}

/// Adds a member that is a text.
fn put_text(
    alloc: Global,
    members: &mut Map<String, Value>,
    key: &str,
    text: &str,
) -> Result<(), AllocError>
    ensures { OnOk result
        (members_view members.new.entries
        ≡ with_member key.now (string text.now) (members_view members.old.entries)) }
{
    put(members, alloc, key, Value::try_from_str(alloc, text)?)
}

/// Adds a member that is a number.
fn put_count(
    alloc: Global,
    members: &mut Map<String, Value>,
    key: &str,
    count: usize,
) -> Result<(), AllocError>
    ensures { OnOk result
        (members_view members.new.entries
        ≡ with_member key.now (number (unsigned count)) (members_view members.old.entries)) }
{
    put(members, alloc, key, Value::from(count))
}

/// The object of a finding at a place of a text.
pub fn at_place(
    alloc: Global,
    file: &str,
    place: Place,
    rule: &str,
    said: &str,
    advice: &str,
) -> Result<Value, AllocError>
    ensures { IfOk result
        (λ v. view v
        ≡ spec.at_place file.now place.line place.column rule.now said.now advice.now) }
{
    let mut members = members(alloc, rule, said, advice)?;
    put_text(alloc, &mut members, "file", file)?;
    put_count(alloc, &mut members, "line", place.line)?;
    put_count(alloc, &mut members, "column", place.column)?;
    Ok(Value::Object(members))
}

/// The object of a finding at a byte of a file.
pub fn at_byte(
    alloc: Global,
    file: &str,
    offset: usize,
    rule: &str,
    said: &str,
    advice: &str,
) -> Result<Value, AllocError>
    ensures { IfOk result
        (λ v. view v ≡ spec.at_byte file.now offset rule.now said.now advice.now) }
{
    let mut members = members(alloc, rule, said, advice)?;
    put_text(alloc, &mut members, "file", file)?;
    put_count(alloc, &mut members, "byte", offset)?;
    Ok(Value::Object(members))
}

/// The object of a finding on a whole file.
pub fn of_file(
    alloc: Global,
    file: &str,
    rule: &str,
    said: &str,
    advice: &str,
) -> Result<Value, AllocError>
    ensures { IfOk result (λ v. view v ≡ spec.of_file file.now rule.now said.now advice.now) }
{
    let mut members = members(alloc, rule, said, advice)?;
    put_text(alloc, &mut members, "file", file)?;
    Ok(Value::Object(members))
}

/// The object of a refusal that is about no file.
pub fn of_rule(alloc: Global, rule: &str, said: &str, advice: &str) -> Result<Value, AllocError>
    ensures { IfOk result (λ v. view v ≡ spec.of_rule rule.now said.now advice.now) }
{
    Ok(Value::Object(members(alloc, rule, said, advice)?))
}

/// An object on one line.
pub fn object_line(alloc: Global, object: &Value) -> Result<String, AllocError>
    requires { has_float (view object.now) ≡ false }
    ensures { IfOk result (λ line. string_bytes line ≡ spec.object_line (view object.now)) }
{
    let text = object.to_string(alloc)?;
    let text = text.as_str();
    format!(in alloc; "{text}\n")
}
