//! Look-ups in a TOML table: the value of a type at a key.

ghost use Rattle.std.specs.Prelude.{◌≡◌, option_map, option_copied};
ghost use Rattle.toml.specs.Data.{get_member};
ghost use Rattle.toml.specs.View.{view as value_view, table_view, items_view};
ghost use Rattle.module_meaning.specs.TableRules.{text_at, integer_at, boolean_at, table_at, array_at, optional_array_at, optional_table_at, has_only, has_texts_only};
ghost use Rattle.window_table.specs.Keys.{is_key};

use crate::keys::Part;
use toml::{Table, Value};

/// The value at a key.
pub fn member<'a>(table: &'a Table, key: &str) -> Option<&'a Value>
    ensures { option_map (λ v. value_view v.now) result
        ≡ get_member key.now (table_view table.now) }
{
    table.get(key)
}

/// The text at a key.
pub fn text<'a>(table: &'a Table, key: &str) -> Option<&'a str>
    ensures { option_copied result ≡ text_at key.now (table_view table.now) }
{
    match member(table, key) {
        Some(value) => value.as_str(),
        None => None,
    }
}

/// The integer at a key.
pub fn integer(table: &Table, key: &str) -> Option<i64>
    ensures { result ≡ integer_at key.now (table_view table.now) }
{
    match member(table, key) {
        Some(value) => value.as_integer(),
        None => None,
    }
}

/// The boolean at a key.
pub fn boolean(table: &Table, key: &str) -> Option<bool>
    ensures { result ≡ boolean_at key.now (table_view table.now) }
{
    match member(table, key) {
        Some(value) => value.as_bool(),
        None => None,
    }
}

/// The table at a key.
pub fn subtable<'a>(table: &'a Table, key: &str) -> Option<&'a Table>
    ensures { option_map (λ t. table_view t.now) result ≡ table_at key.now (table_view table.now) }
{
    match member(table, key) {
        Some(value) => value.as_table(),
        None => None,
    }
}

/// The table at a key that may be absent: none where it is, refused where the key has another value.
pub fn optional_table<'a>(table: &'a Table, key: &str) -> Option<Option<&'a Table>>
    ensures { option_map (λ o. option_map (λ t. table_view t.now) o) result
        ≡ optional_table_at key.now (table_view table.now) }
{
    match member(table, key) {
        Some(value) => match value.as_table() {
            Some(found) => Some(Some(found)),
            None => None,
        },
        None => Some(None),
    }
}

/// The elements of the array at a key.
pub fn array<'a>(table: &'a Table, key: &str) -> Option<&'a [Value]>
    ensures { option_map (λ vs. items_view vs.now) result
        ≡ array_at key.now (table_view table.now) }
{
    match member(table, key) {
        Some(value) => match value.as_array() {
            Some(values) => Some(values.as_slice()),
            None => None,
        },
        None => None,
    }
}

/// The elements of the array at a key that may be absent.
pub fn optional_array<'a>(table: &'a Table, key: &str) -> Option<&'a [Value]>
    ensures { option_map (λ vs. items_view vs.now) result
        ≡ optional_array_at key.now (table_view table.now) }
{
    match member(table, key) {
        Some(value) => match value.as_array() {
            Some(values) => Some(values.as_slice()),
            None => None,
        },
        None => Some(&[]),
    }
}

/// Returns true if a table has only keys of a part.
pub fn has_only(table: &Table, part: Part) -> bool
    ensures { result ≡ has_only (is_key part) (table_view table.now) }
{
    for (key, _) in table {
        if !part.has_key(key.as_str()) {
            return false;
        }
    }
    true
}

/// Returns true if each value of a table is a text.
pub fn has_texts_only(table: &Table) -> bool
    ensures { result ≡ has_texts_only (table_view table.now) }
{
    for (_, value) in table {
        if !value.is_str() {
            return false;
        }
    }
    true
}
