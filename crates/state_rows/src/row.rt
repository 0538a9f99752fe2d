//! Rows of keys and values, as text and as JSON.

ghost use Rattle.std.specs.Prelude.{◌≡◌, ◌++◌, ◌∷◌, [], OnOk};
ghost use Rattle.std.specs.Fmt.{decimal, signed_decimal};
ghost use Rattle.apex_types.specs.Line.{partition_text, space, words_text};
ghost use Rattle.state_rows.specs.Fields.{field_of, fields_of, value_of};
ghost use Rattle.state_rows.specs.Rows.{end_in, field_in, fields_in, head_in, more_words, partition_json, quoted, row_in, value_json, value_text, words_json};

use apex_types::Name;
use std::alloc::AllocError;

/// How rows are written.
#[derive(Clone, Copy)]
pub enum Form {
    /// Words between spaces.
    Text,
    /// A JSON object a row.
    Json,
}

/// What a key has.
#[derive(Clone, Copy)]
pub enum Value<'a> {
    Nothing,
    Count(u64),
    Signed(i64),
    /// Letters, digits and underscores.
    Word(&'a [u8]),
    /// Several numbers.
    Words(&'a [i64]),
}

/// A key with its value.
#[derive(Clone, Copy)]
pub struct Field<'a> {
    pub key: &'a str,
    pub value: Value<'a>,
}

/// Appends the beginning of a row of a partition, or of the module.
pub fn begin_row(form: Form, partition: &Option<Name>, text: &mut Vec<u8>) -> Result<(), AllocError>
    ensures { OnOk result (text.new.items ≡ text.old.items ++ head_in form partition.now) }
{
    match form {
        Form::Text => write_partition(partition, text),
        Form::Json => {
            text.extend_from_slice(b"{\"partition\":")?;
            write_json_partition(partition, text)
        }
    }
}

/// Appends fields of a row that has begun.
pub fn write_fields(form: Form, fields: &[Field<'_>], text: &mut Vec<u8>) -> Result<(), AllocError>
    ensures { OnOk result
        (text.new.items ≡ text.old.items ++ fields_in form (fields_of fields.now)) }
{
    for field in fields {
        write_field(form, field, text)?;
    }
    Ok(())
}

/// Appends the end of a row.
pub fn end_row(form: Form, text: &mut Vec<u8>) -> Result<(), AllocError>
    ensures { OnOk result (text.new.items ≡ text.old.items ++ end_in form) }
{
    match form {
        Form::Text => text.extend_from_slice(b"\n"),
        Form::Json => text.extend_from_slice(b"}\n"),
    }
}

/// Appends a row of a partition, or of the module.
pub fn write_row(
    form: Form,
    partition: &Option<Name>,
    fields: &[Field<'_>],
    text: &mut Vec<u8>,
) -> Result<(), AllocError>
    ensures { OnOk result
        (text.new.items
        ≡ text.old.items
        ++ row_in form (record { partition = partition.now; fields = fields_of fields.now })) }
{
    begin_row(form, partition, text)?;
    write_fields(form, fields, text)?;
    end_row(form, text)
}

fn write_partition(partition: &Option<Name>, text: &mut Vec<u8>) -> Result<(), AllocError>
    ensures { OnOk result (text.new.items ≡ text.old.items ++ partition_text partition.now) }
{
    match partition {
        Some(name) => text.extend_from_slice(name.as_bytes()),
        None => text.extend_from_slice(b"-"),
    }
}

fn write_json_partition(partition: &Option<Name>, text: &mut Vec<u8>) -> Result<(), AllocError>
    ensures { OnOk result (text.new.items ≡ text.old.items ++ partition_json partition.now) }
{
    match partition {
        Some(name) => write_quoted(name.as_bytes(), text),
        None => text.extend_from_slice(b"null"),
    }
}

fn write_field(form: Form, field: &Field<'_>, text: &mut Vec<u8>) -> Result<(), AllocError>
    ensures { OnOk result (text.new.items ≡ text.old.items ++ field_in form (field_of field.now)) }
{
    match form {
        Form::Text => write_text_field(field, text),
        Form::Json => write_json_field(field, text),
    }
}

fn write_text_field(field: &Field<'_>, text: &mut Vec<u8>) -> Result<(), AllocError>
    ensures { OnOk result
        (text.new.items ≡ text.old.items ++ field_in Form.Text (field_of field.now)) }
{
    text.extend_from_slice(b" ")?;
    text.extend_from_slice(field.key.as_bytes())?;
    write_value(field.value, text)
}

fn write_json_field(field: &Field<'_>, text: &mut Vec<u8>) -> Result<(), AllocError>
    ensures { OnOk result
        (text.new.items ≡ text.old.items ++ field_in Form.Json (field_of field.now)) }
{
    text.extend_from_slice(b",")?;
    write_quoted(field.key.as_bytes(), text)?;
    text.extend_from_slice(b":")?;
    write_json_value(field.value, text)
}

fn write_value(value: Value<'_>, text: &mut Vec<u8>) -> Result<(), AllocError>
    ensures { OnOk result (text.new.items ≡ text.old.items ++ value_text (value_of value.entry)) }
{
    match value {
        Value::Nothing => text.extend_from_slice(b" -"),
        Value::Count(number) => write_spaced(number, text),
        Value::Signed(number) => write_after(b' ', number, text),
        Value::Word(word) => write_spaced_word(word, text),
        Value::Words(words) => write_words(words, text),
    }
}

fn write_json_value(value: Value<'_>, text: &mut Vec<u8>) -> Result<(), AllocError>
    ensures { OnOk result (text.new.items ≡ text.old.items ++ value_json (value_of value.entry)) }
{
    match value {
        Value::Nothing => text.extend_from_slice(b"null"),
        Value::Count(number) => write_number(number, text),
        Value::Signed(number) => write_word(number, text),
        Value::Word(word) => write_quoted(word, text),
        Value::Words(words) => write_json_words(words, text),
    }
}

fn write_spaced(number: u64, text: &mut Vec<u8>) -> Result<(), AllocError>
    ensures { OnOk result (text.new.items ≡ text.old.items ++ (space ∷ decimal number)) }
{
    text.extend_from_slice(b" ")?;
    write_number(number, text)
}

fn write_spaced_word(word: &[u8], text: &mut Vec<u8>) -> Result<(), AllocError>
    ensures { OnOk result (text.new.items ≡ text.old.items ++ (space ∷ word.now)) }
{
    text.extend_from_slice(b" ")?;
    text.extend_from_slice(word)
}

fn write_words(words: &[i64], text: &mut Vec<u8>) -> Result<(), AllocError>
    ensures { OnOk result (text.new.items ≡ text.old.items ++ words_text words.now) }
{
    for word in words {
        write_after(b' ', *word, text)?;
    }
    Ok(())
}

/// Appends a sign, and a number after it.
fn write_after(sign: u8, word: i64, text: &mut Vec<u8>) -> Result<(), AllocError>
    ensures { OnOk result (text.new.items ≡ text.old.items ++ (sign ∷ signed_decimal word)) }
{
    text.push(sign)?;
    write_word(word, text)
}

fn write_json_words(words: &[i64], text: &mut Vec<u8>) -> Result<(), AllocError>
    ensures { OnOk result (text.new.items ≡ text.old.items ++ words_json words.now) }
{
    match words.split_first() {
        None => text.extend_from_slice(b"[]"),
        Some((first, rest)) => {
            write_after(b'[', *first, text)?;
            write_more_words(rest, text)?;
            text.extend_from_slice(b"]")
        }
    }
}

fn write_more_words(words: &[i64], text: &mut Vec<u8>) -> Result<(), AllocError>
    ensures { OnOk result (text.new.items ≡ text.old.items ++ more_words words.now) }
{
    for word in words {
        write_after(b',', *word, text)?;
    }
    Ok(())
}

fn write_quoted(word: &[u8], text: &mut Vec<u8>) -> Result<(), AllocError>
    ensures { OnOk result (text.new.items ≡ text.old.items ++ quoted word.now) }
{
    text.extend_from_slice(b"\"")?;
    text.extend_from_slice(word)?;
    text.extend_from_slice(b"\"")
}

fn write_number(number: u64, text: &mut Vec<u8>) -> Result<(), AllocError>
    ensures { OnOk result (text.new.items ≡ text.old.items ++ decimal number) }
{
    text.extend_from_slice(itoa::Buffer::new().format(number).as_bytes())
}

fn write_word(word: i64, text: &mut Vec<u8>) -> Result<(), AllocError>
    ensures { OnOk result (text.new.items ≡ text.old.items ++ signed_decimal word) }
{
    text.extend_from_slice(itoa::Buffer::new().format(word).as_bytes())
}
