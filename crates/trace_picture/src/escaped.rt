//! Text as XML writes it.

ghost use Rattle.std.specs.Prelude.{◌≡◌, ◌++◌, OnOk, string_bytes, true};
ghost use Rattle.trace_picture.specs.Escaped.{character_text, escaped, is_allowed, is_plain};

use std::alloc::AllocError;

/// Appends a text with its escapes in XML: the five characters that XML gives a meaning are written
/// as its entities, and a character that XML does not allow as the replacement character. So no `<`,
/// `>`, `"` or `'` is written, and each `&` that is written begins an entity.
///
/// # Errors
///
/// Memory ran out. Then a beginning of the text may be there.
#[tactic(auto, using(crate::proofs::Plain::escaped_is_plain))]
pub fn push_escaped(out: &mut String, text: &str) -> Result<(), AllocError>
    ensures text { OnOk result (string_bytes out.new ≡ string_bytes out.old ++ escaped text.now) }
    ensures plain { is_plain (escaped text.now) ≡ true }
{
    for character in text.chars() {
        push_character(out, character)?;
    }
    Ok(())
}

fn push_character(out: &mut String, character: char) -> Result<(), AllocError>
    ensures { OnOk result
        (string_bytes out.new ≡ string_bytes out.old ++ character_text character) }
{
    match character {
        '&' => out.push_str("&amp;"),
        '<' => out.push_str("&lt;"),
        '>' => out.push_str("&gt;"),
        '"' => out.push_str("&quot;"),
        '\'' => out.push_str("&apos;"),
        _ => out.push(if is_allowed(character) {
            character
        } else {
            '\u{FFFD}'
        }),
    }
}

/// Returns true if XML allows this character.
fn is_allowed(character: char) -> bool
    ensures { result ≡ is_allowed character }
{
    match character {
        '\t' | '\n' | '\r' => true,
        '\u{0}'..='\u{1F}' | '\u{FFFE}'..='\u{FFFF}' => false,
        _ => true,
    }
}
