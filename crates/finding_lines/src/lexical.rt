//! The pieces between the keys and values of a TOML text, as `toml` reads them.

ghost use Rattle.std.specs.Prelude.{◌≡◌, ◌<◌, ◌≤◌, length, IfSome, Some};
ghost use Rattle.toml_parser.specs.Reading.{key_view};
ghost use Rattle.toml.specs.Parse.{after_byte, after_element, header_key, key_equals, skip_bom};
ghost use Rattle.finding_lines.specs.Entries.{behind_atom};

use std::alloc::Global;
use toml_parser::text::{byte_at, first, skip, skip_blank, skip_ws};
use toml_parser::{Key, dotted_key, quoted, starts_string, unquoted};

/// The text without a byte order mark.
pub fn skip_bom(text: &str) -> &str
    ensures rest { result.now ≡ skip_bom text.now }
    ensures within { length result.now ≤ length text.now }
{
    if first(text) == 0xEF && byte_at(text, 1) == 0xBB && byte_at(text, 2) == 0xBF {
        &text[3..]
    } else {
        text
    }
}

/// After a string or a scalar, if there is memory to read it.
pub fn behind_atom(alloc: Global, text: &str) -> Option<&str>
    ensures value { IfSome result (λ rest. behind_atom text.now ≡ Some rest.now) }
    ensures shorter { IfSome result (λ rest. length rest.now < length text.now) }
{
    if starts_string(text) {
        let (_, rest) = quoted(alloc, text).ok()?;
        Some(rest)
    } else {
        let (_, rest) = unquoted(alloc, text).ok()?;
        Some(rest)
    }
}

/// After the comma that follows an element, or at the closing bracket.
pub fn after_element(text: &str, closing: u8) -> Option<&str>
    ensures value { IfSome result (λ rest. after_element closing text.now ≡ Some rest.now) }
    ensures within { IfSome result (λ rest. length rest.now ≤ length text.now) }
{
    let rest = skip_blank(text, true);
    if first(rest) == b',' {
        Some(skip(rest, 1))
    } else if first(rest) == closing {
        Some(rest)
    } else {
        None
    }
}

/// A key, and what follows its `=` and the white space after it.
pub fn key_equals(alloc: Global, text: &str) -> Option<(Key, &str)>
    ensures value { IfSome result
        (λ found. key_equals text.now ≡ Some (key_view found.0, found.1.now)) }
    ensures shorter { IfSome result (λ found. length found.1.now < length text.now) }
{
    let (key, rest) = dotted_key(alloc, text).ok()?;
    if first(rest) != b'=' {
        return None;
    }
    Some((key, skip_ws(skip(rest, 1))))
}

/// The key of a header, and what follows its first closing bracket.
pub fn header_key(alloc: Global, text: &str) -> Option<(Key, &str)>
    ensures value { IfSome result
        (λ found. header_key text.now ≡ Some (key_view found.0, found.1.now)) }
    ensures shorter { IfSome result (λ found. length found.1.now < length text.now) }
{
    let (key, rest) = dotted_key(alloc, skip_ws(text)).ok()?;
    Some((key, after_bracket(rest)?))
}

/// What follows a closing bracket.
pub fn after_bracket(text: &str) -> Option<&str>
    ensures value { IfSome result (λ rest. after_byte 93 text.now ≡ Some rest.now) }
    ensures shorter { IfSome result (λ rest. length rest.now < length text.now) }
{
    if first(text) != b']' {
        return None;
    }
    Some(skip(text, 1))
}
