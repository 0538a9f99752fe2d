//! The rows of the declared names of a source.

ghost use Rattle.std.specs.Prelude.{◌≡◌, ◌++◌, ◌∷◌, [], OnOk, codes, drop, map};
ghost use Rattle.pal_base.specs.View.{declaration_of, texts};
ghost use Rattle.state_rows.specs.Fields.{value_of};
ghost use Rattle.state_rows.specs.Named as meaning;
ghost use Rattle.state_rows.specs.Rows.{rows_in};
ghost use Rattle.state_rows.specs.States as rows;
ghost use Rattle.state_rows.specs.States.{row};

use crate::heading::Heading;
use crate::words::write_words;
use apex_types::{Denotation, ObjectKind, Place, PortRow};
use indexmap::IndexSet;
use pal::{Counts, text_of};
use pal_base::syntax::Declaration;
use state_rows::{Field, Value, number, word};
use std::alloc::AllocError;

/// A word, if it is there.
pub(crate) fn signed_value<'a>(word: Option<i64>) -> Value<'a>
    ensures { value_of result ≡ meaning.signed_or_none word }
{
    match word {
        Some(word) => Value::Signed(word),
        None => Value::Nothing,
    }
}

/// The words from a place on.
pub(crate) fn words_from(words: &[i64], place: usize) -> &[i64]
    ensures { result.now ≡ drop place words.now }
{
    match words.get(place..) {
        Some(rest) => rest,
        None => &[],
    }
}

/// The key of the number of an object.
fn kind_key(kind: ObjectKind) -> &'static str
    ensures { result.now ≡ meaning.kind_word kind }
{
    match kind {
        ObjectKind::Semaphore => "semaphore",
        ObjectKind::Event => "event",
        ObjectKind::Buffer => "buffer",
        ObjectKind::Blackboard => "blackboard",
        ObjectKind::Port => "port",
        ObjectKind::Process => "process",
    }
}

/// The words of an array of this size, whose first one has this place.
fn array_in(data: &[i64], place: u32, size: i64) -> &[i64]
    ensures { result.now ≡ meaning.array_in data.now place size }
{
    if size < 0 {
        return &[];
    }
    let words = words_from(data, place as usize);
    &words[..words.len().min(size as usize)]
}

/// Appends the row of a variable.
fn write_variable(
    of: &Heading,
    name: &[u8],
    value: Option<i64>,
    text: &mut Vec<u8>,
) -> Result<(), AllocError>
    ensures { OnOk result
        (text.new.items
        ≡ text.old.items
        ++ rows_in of.now.form
        (row of.now.name
        (rows.word (codes "variable") name.now
        ∷ rows.field (codes "value") (meaning.signed_or_none value) ∷ [])
        ∷ [])) }
{
    let value = Field {
        key: "value",
        value: signed_value(value),
    };
    of.row(&[word("variable", name), value], text)
}

/// Appends the rows of a declared name.
fn write_meaning(
    of: &Heading,
    data: &[i64],
    name: &[u8],
    denoted: Denotation,
    text: &mut Vec<u8>,
) -> Result<(), AllocError>
    ensures { OnOk result
        (text.new.items
        ≡ text.old.items
        ++ rows_in of.now.form (meaning.meaning_rows of.now.name data.now name.now denoted)) }
{
    match denoted {
        Denotation::Scalar(Place::Data(place)) => {
            write_variable(of, name, data.get(place as usize).copied(), text)
        }
        Denotation::Scalar(Place::Slot(_)) => Ok(()),
        Denotation::Array(place, size) => {
            let words = array_in(data, place, size);
            write_words(of, "array", &[word("name", name)], words, text)
        }
        Denotation::Object(kind, n) => {
            let object = number(kind_key(kind), u64::from(n));
            of.row(&[word("object", name), object], text)
        }
        Denotation::Procedure(_, _) => Ok(()),
    }
}

/// Appends the rows of the declared names, which have these texts.
pub(crate) fn write_declared(
    of: &Heading,
    ports: &[PortRow],
    data: &[i64],
    names: &IndexSet<String>,
    declarations: &[Declaration],
    text: &mut Vec<u8>,
) -> Result<(), AllocError>
    ensures { OnOk result
        (text.new.items
        ≡ text.old.items
        ++ rows_in of.now.form
        (meaning.declared_rows of.now.name ports.now data.now
        (map (declaration_of (texts names.now.keys)) declarations.now))) }
{
    let mut counts = Counts::NONE;
    for declaration in declarations {
        let name = text_of(names, declaration.name.name);
        let denoted = counts.meaning(&declaration.kind, ports, name);
        write_meaning(of, data, name.as_bytes(), denoted, text)?;
        counts = counts.after(&declaration.kind).unwrap_or(counts);
    }
    Ok(())
}
