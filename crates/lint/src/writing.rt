//! Findings as lines for a reader.

ghost use Rattle.std.specs.Prelude.{◌-◌, ◌^◌, ◌<◌, flat_map};
ghost use Rattle.lint.specs.Listed.{IsListed};
ghost use Rattle.lint.specs.Pieces.{piece_text};
ghost use Rattle.lint.specs.Sentences.{finding_line, findings_text, place_text};

use crate::finding::Finding;
use crate::report::PartitionFindings;
use apex_types::{Sink, SinkFault, put_all};

/// A piece of the line of a finding.
#[derive(Clone, Copy)]
enum Piece<'a> {
    Words(&'static str),
    Name(&'a str),
    /// The line in the source, or 0 if there is none.
    Place(u32),
}

/// Writes a line for each finding: the partition, the line in its source if the finding has one,
/// what was found, and what to do about it.
///
/// # Errors
///
/// Only if the sink fails; then a beginning of the text is out.
pub fn write_findings<S: Sink>(
    found: &[PartitionFindings<'_>],
    sink: &mut S,
) -> Result<(), SinkFault>
    requires { S.failures sink.old < 2 ^ 64 - 1 }
    ensures { IsListed (findings_text found.now) (S.taken sink.old) (S.taken sink.new)
        (S.failures sink.old) (S.failures sink.new) result }
{
    for partition in found {
        write_lines(partition.partition, &partition.findings, sink)?;
    }
    Ok(())
}

/// Writes the lines of the findings of a partition.
fn write_lines<'x, S: Sink>(
    partition: &'x str,
    findings: &[Finding<'x>],
    sink: &mut S,
) -> Result<(), SinkFault>
    requires { S.failures sink.old < 2 ^ 64 - 1 }
    ensures { IsListed (flat_map (finding_line partition.now) findings.now) (S.taken sink.old)
        (S.taken sink.new) (S.failures sink.old) (S.failures sink.new) result }
{
    for finding in findings {
        write_finding(partition, finding, sink)?;
    }
    Ok(())
}

/// Writes the line of a finding.
fn write_finding<'x, S: Sink>(
    partition: &'x str,
    finding: &Finding<'x>,
    sink: &mut S,
) -> Result<(), SinkFault>
    requires { S.failures sink.old < 2 ^ 64 - 1 }
    ensures { IsListed (finding_line partition.now finding.now) (S.taken sink.old)
        (S.taken sink.new) (S.failures sink.old) (S.failures sink.new) result }
{
    let pieces = [
        Piece::Name(partition),
        Piece::Place(finding.line),
        Piece::Words(": "),
        Piece::Words(finding.kind.opening()),
        Piece::Name(finding.subject),
        Piece::Words("; "),
        Piece::Words(finding.kind.advice()),
        Piece::Words("\n"),
    ];
    write_pieces(&pieces, sink)
}

/// Writes the pieces of a line, in their order.
fn write_pieces<S: Sink>(pieces: &[Piece<'_>], sink: &mut S) -> Result<(), SinkFault>
    requires { S.failures sink.old < 2 ^ 64 - 1 }
    ensures { IsListed (flat_map piece_text pieces.now) (S.taken sink.old) (S.taken sink.new)
        (S.failures sink.old) (S.failures sink.new) result }
{
    for piece in pieces {
        write_piece(piece, sink)?;
    }
    Ok(())
}

/// Writes a piece of a line.
fn write_piece<S: Sink>(piece: &Piece<'_>, sink: &mut S) -> Result<(), SinkFault>
    requires { S.failures sink.old < 2 ^ 64 - 1 }
    ensures { IsListed (piece_text piece.now) (S.taken sink.old) (S.taken sink.new)
        (S.failures sink.old) (S.failures sink.new) result }
{
    match *piece {
        Piece::Words(words) => write_text(words, sink),
        Piece::Name(name) => write_text(name, sink),
        Piece::Place(line) => write_place(line, sink),
    }
}

/// Writes the line of a finding in its source, if it has one.
fn write_place<S: Sink>(line: u32, sink: &mut S) -> Result<(), SinkFault>
    requires { S.failures sink.old < 2 ^ 64 - 1 }
    ensures { IsListed (place_text line) (S.taken sink.old) (S.taken sink.new)
        (S.failures sink.old) (S.failures sink.new) result }
{
    if line == 0 {
        return write_text("", sink);
    }
    write_text(" line ", sink)?;
    write_text(itoa::Buffer::new().format(line), sink)
}

/// Writes a text. Fails only if the sink fails; then a beginning of the text is out.
fn write_text<S: Sink>(text: &str, sink: &mut S) -> Result<(), SinkFault>
    requires { S.failures sink.old < 2 ^ 64 - 1 }
    ensures { IsListed text.now (S.taken sink.old) (S.taken sink.new) (S.failures sink.old)
        (S.failures sink.new) result }
{
    put_all(sink, text.as_bytes())
}
