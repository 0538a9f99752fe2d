//! What is wrong with a text that is no source.

ghost use Rattle.std.specs.Prelude.{◌≡◌, IfOk, option_map, [], false};
ghost use Rattle.source_findings.specs.Texts as spec;
ghost use Rattle.source_findings.specs.Views.{what_of, wrongs_of};

use crate::finding::{What, Wrong};
use crate::walk::Walk;
use apex_types::limits::MOST_SOURCE_BYTES;
use std::alloc::{AllocError, Global};

/// What is wrong with a text that is no source: its bytes above 127, or else its length.
///
/// # Errors
///
/// Only if memory runs out.
pub fn text_wrongs(alloc: Global, text: &[u8]) -> Result<Vec<Wrong<'_>>, AllocError>
    ensures { IfOk result (λ found. wrongs_of found.items ≡ spec.text_wrongs text.now) }
{
    let found = strays(alloc, text)?;
    if found.is_empty() {
        too_long(alloc, text)
    } else {
        Ok(found)
    }
}

/// The bytes above 127, each unless the one before it is too.
fn strays(alloc: Global, text: &[u8]) -> Result<Vec<Wrong<'_>>, AllocError>
    ensures { IfOk result (λ found. wrongs_of found.items ≡ spec.strays false text.now []) }
{
    let mut walk = Walk {
        text,
        found: Vec::new(alloc),
    };
    let mut before = false;
    while let Some((byte, rest)) = walk.text.split_first() {
        walk.note(stray(before, *byte))?;
        before = 127 < *byte;
        walk.text = rest;
    }
    let Walk { found, .. } = walk;
    Ok(found)
}

fn stray(before: bool, byte: u8) -> Option<What<'static>>
    ensures { option_map what_of result ≡ spec.stray before byte }
{
    if !before && 127 < byte {
        Some(What::NoAscii(byte))
    } else {
        None
    }
}

/// Where a text is longer than it may be.
fn too_long(alloc: Global, text: &[u8]) -> Result<Vec<Wrong<'_>>, AllocError>
    ensures { IfOk result (λ found. wrongs_of found.items ≡ spec.too_long text.now) }
{
    let mut found = Vec::new(alloc);
    let most = MOST_SOURCE_BYTES as usize;
    if most < text.len() {
        found.push(Wrong {
            left: text.len() - most,
            what: What::TooLong,
        })?;
    }
    Ok(found)
}
