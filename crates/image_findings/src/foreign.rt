//! Bytes that are no image of a known version.

ghost use Rattle.std.specs.Prelude.{◌≡◌, ◌+◌, ◌≤◌, IfOk, length, string_bytes};
ghost use Rattle.finding_lines.specs.Lines.{IsAtByte};
ghost use Rattle.finding_lines.specs.Reports.{report_of};
ghost use Rattle.image_findings.specs.Explained.{first_other, foreign_place};

use apex_types::MAGIC;
use finding_lines::{Report, byte_lines};
use std::alloc::{AllocError, Global};

/// The place of the version, after the magic.
const VERSION_PLACE: usize = 8;

/// The first byte that is not that of an image, or the version.
pub fn foreign_lines(alloc: Global, report: Report<'_>, bytes: &[u8]) -> Result<String, AllocError>
    ensures { IfOk result
        (λ lines. IsAtByte (report_of report.entry) (foreign_place bytes.now) (string_bytes lines)) }
{
    match first_other(0, bytes, MAGIC.as_slice()) {
        Some(place) => {
            let said = "an image begins with the eight bytes `AP653IMG`";
            byte_lines(
                alloc,
                report,
                place,
                said,
                "Name a file that `mb build` wrote.",
            )
        }
        None => {
            let number = version_number(bytes);
            let said = format!(in alloc; "the version is {number}, and 1, 2 and 3 are known")?;
            let advice = "Use the `mb` that wrote it, or build the image anew.";
            byte_lines(alloc, report, VERSION_PLACE, said.as_str(), advice)
        }
    }
}

/// The place of the first byte that is not the wanted one.
fn first_other(place: usize, bytes: &[u8], wanted: &[u8]) -> Option<usize>
    requires { place + length wanted.now ≤ 8 }
    ensures { result ≡ first_other place bytes.now wanted.now }
{
    match (bytes.split_first(), wanted.split_first()) {
        (Some((byte, bytes)), Some((letter, wanted))) => {
            if *byte == *letter {
                first_other(place + 1, bytes, wanted)
            } else {
                Some(place)
            }
        }
        _ => None,
    }
}

/// The number of the version: two bytes after the magic, the lower one first.
fn version_number(bytes: &[u8]) -> u32 {
    let (_, rest) = bytes.split_at(VERSION_PLACE.min(bytes.len()));
    match rest {
        [low, high, ..] => u32::from(*low) + u32::from(*high) * 256,
        _ => 0,
    }
}
