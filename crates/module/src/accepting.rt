//! Sources that are accepted for the partitions of a module table.

ghost use Rattle.std.specs.Prelude.{◌≡◌, length, map, None, IfOk, IfErr};
ghost use Rattle.image.specs.Items.{partition_of};
ghost use Rattle.pal_base.specs.ProgramView.{program_of};
ghost use Rattle.module.specs.Refusals.{IsNotAccepted, first_too_long, is_too_long};
ghost use Rattle.module.specs.Building.{IsSourceRefusal, AreSourceRefusals, IsLengthRefusal, refusal_of};
ghost use Rattle.module.specs.Sources.{IsSource, AreSources, programs_of};

use crate::fault::BuildFault;
use apex_types::Name;
use apex_types::limits::MOST_INSTRUCTIONS;
use compiler::{CompileFault, size_of_program};
use pal::{Checked, check};
use pal_base::fault::{PalFault, Refusal};
use pal_base::parse::parse;
use std::alloc::Global;
use window_table::PartitionRow;

/// The sources of these partitions, in their order, if each is accepted; otherwise the refusal of
/// the first that is not.
pub fn accept_sources(
    alloc: Global,
    rows: &[PartitionRow],
    sources: &[&[u8]],
) -> Result<Vec<Checked>, BuildFault>
    requires { length sources.now ≡ length rows.now }
    ensures accepted { IfOk result
        (λ accepted.
        AreSources (map partition_of rows.now) (map (λ s. s.now) sources.now) accepted.items) }
    ensures refused { IfErr result
        (λ fault.
        AreSourceRefusals (map partition_of rows.now) (map (λ s. s.now) sources.now) fault) }
{
    let mut accepted = Vec::with_capacity(alloc, rows.len())?;
    for row in rows {
        let source = sources[accepted.len()];
        accepted.push(accept(alloc, row, source)?)?;
    }
    Ok(accepted)
}

/// The source of one partition, if it is accepted.
fn accept(alloc: Global, row: &PartitionRow, source: &[u8]) -> Result<Checked, BuildFault>
    ensures accepted { IfOk result
        (λ accepted. IsSource (partition_of row.now) source.now accepted) }
    ensures refused { IfErr result
        (λ fault. IsSourceRefusal (partition_of row.now) source.now fault) }
{
    match judge(alloc, row, source) {
        Ok(accepted) => Ok(accepted),
        Err(fault) => Err(refused(row.name, fault)),
    }
}

/// The source as a program that is well formed for its partition.
fn judge(alloc: Global, row: &PartitionRow, source: &[u8]) -> Result<Checked, PalFault>
    ensures accepted { IfOk result
        (λ accepted. IsSource (partition_of row.now) source.now accepted) }
    ensures refused { IfErr result
        (λ fault. IsNotAccepted (partition_of row.now) source.now fault.refusal) }
{
    let written = parse(alloc, source)?;
    check(alloc, written, row)
}

/// The refusal of the source of the partition with this name.
fn refused(partition: Name, fault: PalFault) -> BuildFault
    ensures { result ≡ refusal_of partition fault }
{
    match fault.refusal {
        Refusal::Memory => BuildFault::Memory,
        _ => BuildFault::Pal { partition, fault },
    }
}

/// Refuses the first program that is too long, by the name of its partition.
pub fn judge_lengths(rows: &[PartitionRow], sources: &[Checked]) -> Result<(), BuildFault>
    ensures none { IfOk result
        (λ _. first_too_long (map partition_of rows.now) (programs_of sources.now) ≡ None) }
    ensures refused { IfErr result
        (λ fault. IsLengthRefusal (map partition_of rows.now) (programs_of sources.now) fault) }
{
    match first_too_long(rows, sources) {
        Some(partition) => Err(BuildFault::Compile {
            partition,
            fault: CompileFault::TooLong,
        }),
        None => Ok(()),
    }
}

/// The name of the first partition whose program is too long.
fn first_too_long(rows: &[PartitionRow], sources: &[Checked]) -> Option<Name>
    ensures { result ≡ first_too_long (map partition_of rows.now) (programs_of sources.now) }
{
    match (rows.split_first(), sources.split_first()) {
        (Some((row, rows)), Some((source, sources))) => {
            if is_too_long(source) {
                Some(row.name)
            } else {
                first_too_long(rows, sources)
            }
        }
        _ => None,
    }
}

/// Whether a program would have more than 65,536 instructions.
fn is_too_long(source: &Checked) -> bool
    ensures { result ≡ is_too_long (program_of source.now.program) }
{
    size_of_program(source) > MOST_INSTRUCTIONS
}
