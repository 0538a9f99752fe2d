//! Where a fault of an image was seen.

ghost use Rattle.std.specs.Prelude.{◌≡◌, false, IfOk};
ghost use Rattle.image_findings.specs.Seen.{IsSeenAt, is_cut, is_truncated};
ghost use Rattle.machine_meaning.specs.ImageReading.{image_at};

use crate::beginnings::is_cut;
use std::alloc::{AllocError, Global};

/// The place of the byte with which the bytes do not end within a field any more: with it a field
/// came to its end that is the last one, or wrong. Places count from 0.
///
/// # Errors
///
/// Only if memory runs out.
pub fn seen_at(alloc: Global, bytes: &[u8]) -> Result<usize, AllocError>
    requires { is_truncated (image_at bytes.now) ≡ false }
    ensures { IfOk result (λ place. IsSeenAt place bytes.now) }
{
    let mut cut = 0;
    let mut whole = bytes.len();
    while cut + 1 < whole {
        let middle = cut + (whole - cut) / 2;
        if is_cut(alloc, bytes, middle)? {
            cut = middle;
        } else {
            whole = middle;
        }
    }
    Ok(cut)
}
