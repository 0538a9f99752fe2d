//! Fields of rows.

ghost use Rattle.std.specs.Prelude.{◌≡◌};
ghost use Rattle.state_rows.specs.Fields.{field_of};
ghost use Rattle.state_rows.specs.Rows.{Words};
ghost use Rattle.state_rows.specs.States as meaning;

use crate::row::{Field, Value};
use apex_types::Ticks;

/// A number.
pub fn number<'a>(key: &'a str, n: u64) -> Field<'a>
    ensures { field_of result ≡ meaning.number key.entry.now n }
{
    Field {
        key,
        value: Value::Count(n),
    }
}

/// A word.
pub fn word<'a>(key: &'a str, text: &'a [u8]) -> Field<'a>
    ensures { field_of result ≡ meaning.word key.entry.now text.entry.now }
{
    Field {
        key,
        value: Value::Word(text),
    }
}

/// Several numbers.
pub fn words<'a>(key: &'a str, values: &'a [i64]) -> Field<'a>
    ensures { field_of result ≡ meaning.field key.entry.now (Words values.entry.now) }
{
    Field {
        key,
        value: Value::Words(values),
    }
}

/// 1 or 0.
pub fn flag<'a>(key: &'a str, holds: bool) -> Field<'a>
    ensures { field_of result ≡ meaning.flag key.entry.now holds }
{
    number(key, if holds { 1 } else { 0 })
}

/// A tick, if there is one.
pub fn tick<'a>(key: &'a str, tick: Option<Ticks>) -> Field<'a>
    ensures { field_of result ≡ meaning.field key.entry.now (meaning.tick_or_none tick) }
{
    let value = match tick {
        Some(Ticks(n)) => Value::Count(n),
        None => Value::Nothing,
    };
    Field { key, value }
}
