//! The verdicts on beginnings of an image, and on the image with a byte more.

ghost use Rattle.std.specs.Prelude.{◌≡◌, IfOk, take};
ghost use Rattle.image.specs.Named.{named};
ghost use Rattle.machine_meaning.specs.ImageReading.{image_at};
ghost use Rattle.image_findings.specs.Seen as spec;

use image::{ImageFault, load_image};
use std::alloc::{AllocError, Global};

/// Returns true if the first `count` bytes end within a field of an image.
#[tactic(auto, using(crate::proofs::Judged::by_fault))]
pub fn is_cut(alloc: Global, bytes: &[u8], count: usize) -> Result<bool, AllocError>
    ensures { IfOk result (λ cut. cut ≡ spec.is_cut count bytes.now) }
{
    match load_image(alloc, first_bytes(bytes, count)) {
        Ok(_) => Ok(false),
        Err(fault) => is_truncated(fault),
    }
}

/// The first `count` bytes, or all.
#[tactic(auto, using(std::proofs::lemmas::List::take_min))]
fn first_bytes(bytes: &[u8], count: usize) -> &[u8]
    ensures { result.now ≡ take count bytes.now }
{
    let (first, _) = bytes.split_at(count.min(bytes.len()));
    first
}

fn is_truncated(fault: ImageFault) -> Result<bool, AllocError>
    ensures { IfOk result (λ answer. spec.IsAnswer spec.is_truncated (named fault) answer) }
{
    match fault {
        ImageFault::Truncated => Ok(true),
        ImageFault::Foreign => Ok(false),
        ImageFault::Limit => Ok(false),
        ImageFault::Order => Ok(false),
        ImageFault::Trailing => Ok(false),
        ImageFault::Memory => Err(AllocError),
    }
}

fn is_trailing(fault: ImageFault) -> Result<bool, AllocError>
    ensures { IfOk result (λ answer. spec.IsAnswer spec.is_trailing (named fault) answer) }
{
    match fault {
        ImageFault::Truncated => Ok(false),
        ImageFault::Foreign => Ok(false),
        ImageFault::Limit => Ok(false),
        ImageFault::Order => Ok(false),
        ImageFault::Trailing => Ok(true),
        ImageFault::Memory => Err(AllocError),
    }
}

/// Returns true if a byte more would be one too many: then all fields are there, each within its
/// limit.
pub fn has_all_fields(alloc: Global, bytes: &[u8]) -> Result<bool, AllocError>
    ensures { IfOk result (λ all. all ≡ spec.has_all_fields bytes.now) }
{
    let mut longer = Vec::with_capacity(alloc, bytes.len())?;
    longer.extend_from_slice(bytes)?;
    longer.push(0)?;
    has_trailing_byte(alloc, longer.as_slice())
}

/// Returns true if bytes follow an image.
#[tactic(auto, using(crate::proofs::Judged::by_fault))]
fn has_trailing_byte(alloc: Global, bytes: &[u8]) -> Result<bool, AllocError>
    ensures { IfOk result (λ answer. answer ≡ spec.is_trailing (image_at bytes.now)) }
{
    match load_image(alloc, bytes) {
        Ok(_) => Ok(false),
        Err(fault) => is_trailing(fault),
    }
}
