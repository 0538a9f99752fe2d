//! The lines of what is wrong with an image.

ghost use Rattle.std.specs.Prelude.{◌≡◌, false, Err, IfOk, IfSome, string_bytes};
ghost use Rattle.finding_lines.specs.Reports.{report_of};
ghost use Rattle.image_findings.specs.Explained as spec;
ghost use Rattle.image.specs.Named.{named};
ghost use Rattle.image_findings.specs.Seen.{is_truncated};
ghost use Rattle.machine_meaning.specs.ImageReading.{image_at};

use crate::beginnings::has_all_fields;
use crate::foreign::foreign_lines;
use crate::seen::seen_at;
use finding_lines::{Report, byte_lines, file_lines};
use image::{ImageFault, load_image};
use std::alloc::{AllocError, Global};

/// What is advised where values do not fit one another.
const CHANGED: &str = "Bytes of the image were changed: build it anew.";

/// What is wrong with the bytes of an image: the byte at which it was seen, what it is, and what to
/// do. There is nothing to say of an image that is accepted, and nothing is said if memory runs out.
pub fn explain_image(alloc: Global, report: Report<'_>, bytes: &[u8]) -> Option<String>
    ensures { IfSome result (λ lines. spec.IsExplanation (report_of report.entry) bytes.now (string_bytes lines)) }
{
    match load_image(alloc, bytes) {
        Ok(_) => None,
        Err(fault) => fault_lines(alloc, report, bytes, fault),
    }
}

/// The lines that report a fault of these bytes.
#[tactic(auto, using(crate::proofs::Told::of_fault))]
fn fault_lines(alloc: Global, report: Report<'_>, bytes: &[u8], fault: ImageFault) -> Option<String>
    requires { IfSome (named fault) (λ f. image_at bytes.now ≡ Err f) }
    ensures { IfSome result (λ lines. spec.IsExplanation (report_of report.entry) bytes.now (string_bytes lines)) }
{
    match fault {
        ImageFault::Truncated => {
            let said = "the file ends here, within the image";
            let advice = "Copy the whole file, or build the image anew.";
            byte_lines(alloc, report, bytes.len(), said, advice).ok()
        }
        ImageFault::Foreign => foreign_lines(alloc, report, bytes).ok(),
        ImageFault::Limit => limit_lines(alloc, report, bytes).ok(),
        ImageFault::Order => {
            let said =
                "the name that ends with this byte was used before, or the window begins too early";
            seen_lines(alloc, report, bytes, said).ok()
        }
        ImageFault::Trailing => trailing_lines(alloc, report, bytes).ok(),
        ImageFault::Memory => None,
    }
}

/// That a value is outside its limit, or that all of them break a rule together.
#[tactic(auto, using(crate::proofs::Told::of_limit))]
fn limit_lines(alloc: Global, report: Report<'_>, bytes: &[u8]) -> Result<String, AllocError>
    requires { is_truncated (image_at bytes.now) ≡ false }
    ensures { IfOk result (λ lines. spec.IsOfLimit (report_of report.entry) bytes.now (string_bytes lines)) }
{
    let all = has_all_fields(alloc, bytes)?;
    limit_lines_if(alloc, report, bytes, all)
}

/// The same, by whether all fields are there.
fn limit_lines_if(
    alloc: Global,
    report: Report<'_>,
    bytes: &[u8],
    all: bool,
) -> Result<String, AllocError>
    requires { is_truncated (image_at bytes.now) ≡ false }
    ensures { IfOk result (λ lines. spec.IsOfLimitIf all (report_of report.entry) bytes.now (string_bytes lines)) }
{
    if all {
        let said =
            "each value is within its limit, and together they break a rule of the module table";
        file_lines(alloc, report, said, CHANGED)
    } else {
        let said = "the value that ends with this byte is outside its limit";
        seen_lines(alloc, report, bytes, said)
    }
}

/// That the byte with which the fault was seen ends something wrong.
#[tactic(auto, using(crate::proofs::Told::of_seen))]
fn seen_lines(
    alloc: Global,
    report: Report<'_>,
    bytes: &[u8],
    said: &str,
) -> Result<String, AllocError>
    requires { is_truncated (image_at bytes.now) ≡ false }
    ensures { IfOk result (λ lines. spec.IsOfSeen (report_of report.entry) bytes.now (string_bytes lines)) }
{
    let place = seen_at(alloc, bytes)?;
    byte_lines(alloc, report, place, said, CHANGED)
}

/// How many bytes the image has, and how many the file.
#[tactic(auto, using(crate::proofs::Told::of_trailing))]
fn trailing_lines(alloc: Global, report: Report<'_>, bytes: &[u8]) -> Result<String, AllocError>
    requires { is_truncated (image_at bytes.now) ≡ false }
    ensures { IfOk result
        (λ lines. spec.IsOfTrailing (report_of report.entry) bytes.now (string_bytes lines)) }
{
    let place = seen_at(alloc, bytes)?;
    let (image, length) = (place.saturating_add(1), bytes.len());
    let said = format!(in alloc; "the image has {image} bytes, and the file {length}")?;
    let advice = "Leave out what follows the image, or build it anew.";
    byte_lines(alloc, report, image, said.as_str(), advice)
}
