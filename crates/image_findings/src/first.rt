//! The first wrong line of a text, and what is wrong with it.

ghost use Rattle.std.specs.Prelude.{◌≡◌, IfOk, length, option_map};
ghost use Rattle.apex_types.specs.Line.{space};
ghost use Rattle.module_meaning.specs.DeviceText.{piece, pieces};
ghost use Rattle.image_findings.specs.First as spec;
ghost use Rattle.image_findings.specs.Naming as naming;
ghost use Rattle.image_findings.specs.Views.{names_of, wrong_of};

use crate::finding::{What, Wrong};
use crate::form::form_wrong;
use crate::names::Names;
use crate::naming::{meaning_wrong, tick_of};
use crate::parts::parts;
use std::alloc::{AllocError, Global};
use text_lines::split_at;

/// What is wrong with the first wrong line of a text, and how much of the text is left at the first
/// part of the line that breaks the rule. There is nothing wrong with a text that is accepted.
///
/// # Errors
///
/// Only if memory runs out.
#[tactic(auto, unfolding(crate::specs::First::first_wrong), using(crate::proofs::Lines::wrong_line, crate::proofs::Lines::right_line, crate::proofs::Lines::no_more, crate::proofs::Lines::no_line_feed))]
pub fn first_wrong<'a>(
    alloc: Global,
    names: &Names<'_>,
    text: &'a [u8],
) -> Result<Option<Wrong<'a>>, AllocError>
    ensures { IfOk result
        (λ found. option_map wrong_of found
        ≡ spec.first_wrong (names_of names.now) 0 0 (pieces 10 text.now)) }
{
    let mut count = 0;
    let mut before = 0;
    let mut rest = text;
    while !rest.is_empty() {
        let (line, Some(behind)) = split_at(b'\n', rest) else {
            return Ok(Some(unended()));
        };
        if let Some(wrong) = line_wrong(alloc, names, count, before, line)? {
            return Ok(Some(in_text(rest, line, wrong)));
        }
        count += 1;
        before = line_tick(line);
        rest = behind;
    }
    Ok(None)
}

fn unended() -> Wrong<'static>
    ensures { wrong_of result ≡ spec.no_feed }
{
    Wrong {
        left: 0,
        what: What::Unended,
    }
}

/// What is wrong with a line that is the first one of the rest of a text, by what is left of the
/// text.
fn in_text<'a>(rest: &[u8], line: &[u8], wrong: Wrong<'a>) -> Wrong<'a>
    ensures { wrong_of result
        ≡ spec.in_text (length rest.now) (length line.now) (wrong_of wrong.entry) }
{
    let Wrong { left, what } = wrong;
    Wrong {
        left: rest.len().saturating_sub(line.len().saturating_sub(left)),
        what,
    }
}

/// The tick of a line.
fn line_tick(line: &[u8]) -> u64
    ensures { result ≡ naming.tick_of (piece space line.now) }
{
    let (tick, _) = split_at(b' ', line);
    tick_of(tick)
}

/// What is wrong with a line after `count` others of which the last has the tick `before`: with its
/// form, or else with what it means.
fn line_wrong<'a>(
    alloc: Global,
    names: &Names<'_>,
    count: usize,
    before: u64,
    line: &'a [u8],
) -> Result<Option<Wrong<'a>>, AllocError>
    ensures { IfOk result
        (λ found. option_map wrong_of found
        ≡ spec.line_wrong (names_of names.now) count before line.now) }
{
    let parts = parts(alloc, line)?;
    Ok(match form_wrong(names.kind, line, parts.as_slice()) {
        Some(wrong) => Some(wrong),
        None => meaning_wrong(names, count, before, parts.as_slice()),
    })
}
