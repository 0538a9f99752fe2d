//! The parts of a line, and how much of the line is left at each.

ghost use Rattle.std.specs.Prelude.{◌≡◌, IfOk};
ghost use Rattle.apex_types.specs.Line.{space};
ghost use Rattle.module_meaning.specs.DeviceText.{pieces};
ghost use Rattle.image_findings.specs.Parts as spec;
ghost use Rattle.image_findings.specs.Views.{parts_of};

use std::alloc::{AllocError, Global};
use text_lines::split_at;

/// A part of a line, and how many bytes of the line are left from its beginning on.
#[derive(Clone, Copy)]
pub struct Part<'a> {
    pub text: &'a [u8],
    pub left: usize,
}

/// The parts of a line between its spaces.
#[tactic(auto, using(crate::proofs::Pieces::next_part, crate::proofs::Pieces::all_parts))]
pub fn parts<'a>(alloc: Global, line: &'a [u8]) -> Result<Vec<Part<'a>>, AllocError>
    ensures { IfOk result (λ parts. parts_of parts.items ≡ spec.parts (pieces space line.now)) }
{
    let mut parts = Vec::new(alloc);
    let mut rest = Some(line);
    while let Some(text) = rest {
        let (piece, behind) = split_at(b' ', text);
        parts.push(Part {
            text: piece,
            left: text.len(),
        })?;
        rest = behind;
    }
    Ok(parts)
}
