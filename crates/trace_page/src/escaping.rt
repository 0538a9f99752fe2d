//! Text in a string of a script.

ghost use Rattle.std.specs.Prelude.{◌≡◌, ◌++◌, false, OnOk};
ghost use Rattle.trace_page.specs.Escaping.{ends_within, escaped, escaped_byte};

use std::alloc::AllocError;

/// Appends a text with its escapes, so that it does not end the string of the script.
///
/// # Errors
///
/// Memory ran out. Then a beginning of the text may be there.
#[tactic(auto, using(std::proofs::lemmas::List::drop_more, crate::proofs::Escaped::never_ends))]
pub fn push_escaped(out: &mut Vec<u8>, text: &[u8]) -> Result<(), AllocError>
    ensures text { OnOk result (out.new.items ≡ out.old.items ++ escaped text.now) }
    ensures within { ends_within false (escaped text.now) ≡ false }
{
    for byte in text {
        push_byte(out, *byte)?;
    }
    Ok(())
}

fn push_byte(out: &mut Vec<u8>, byte: u8) -> Result<(), AllocError>
    ensures { OnOk result (out.new.items ≡ out.old.items ++ escaped_byte byte) }
{
    match byte {
        b'"' => out.extend_from_slice(b"\\\""),
        b'\\' => out.extend_from_slice(b"\\\\"),
        b'\n' => out.extend_from_slice(b"\\n"),
        b'<' => out.extend_from_slice(b"\\x3c"),
        _ => out.extend_from_slice(&[byte]),
    }
}
