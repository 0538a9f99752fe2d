//! From a module table and sources to the bytes of an image.

ghost use Rattle.std.specs.Prelude.{◌≡◌, ℕ, List, length, map, IfOk, IfErr, false};
ghost use Rattle.std.specs.List.{list_any};
ghost use Rattle.compiling_laws.specs.CompiledCode as code_of;
ghost use Rattle.machine_meaning.specs.ImageSpelling.{spelling};
ghost use Rattle.image.specs.Items.{item_of, items_of, partition_of, section_of};
ghost use Rattle.image.specs.Views.{image_of};
ghost use Rattle.pal_base.specs.ProgramView.{program_of};
ghost use Rattle.window_table.specs.Views.{table_of};
ghost use Rattle.module_meaning.specs.Accepted.{IsJudged, IsTable};
ghost use Rattle.module.specs.Building.{IsImageOf, IsTableRefusal};
ghost use Rattle.module.specs.Refusals.{IsRefusal, IsRefusedWith, is_too_long};
ghost use Rattle.module.specs.Built.{BecomesLawful, IsBuiltFrom, IsCoded, AreCoded, built_image, built_item, built_items};
ghost use Rattle.module.specs.Sources.{programs_of};

use crate::accepting::{accept_sources, judge_lengths};
use crate::fault::BuildFault;
use apex_types::{ImageVersion, Section};
use compiler::{CompileFault, compile};
use image::{Image, PartitionItem, write_image};
use pal::Checked;
use std::alloc::{AllocError, Global};
use window_table::{ModuleTable, PartitionRow, TableFault, read_table};

/// Builds a module table and the source text of each of its partitions, in their order, into the
/// bytes of one image.
///
/// # Errors
///
/// `Memory` if no memory is left. Otherwise, in this order: the lowest rule that the table breaks;
/// a number of sources that is not the number of partitions; the lowest rule that a source breaks,
/// with its line, of the first partition whose source is refused; and the first partition whose
/// program would have more than 65,536 instructions.
pub fn build(alloc: Global, table: &[u8], sources: &[&[u8]]) -> Result<Vec<u8>, BuildFault>
    ensures image { IfOk result
        (λ bytes. IsImageOf table.now (map (λ s. s.now) sources.now) bytes.items) }
    ensures refused { IfErr result
        (λ fault. IsRefusal table.now (map (λ s. s.now) sources.now) fault) }
{
    let table = accept_table(alloc, table)?;
    build_table(alloc, table, sources)
}

/// A table and its sources have one image: what [`build`] returns for them is always the same.
pub fn module_has_one_image()
    ensures { (table : List ℕ) (sources : List (List ℕ)) (first second : List ℕ)
        → IsImageOf table sources first → IsImageOf table sources second → first ≡ second }
{}

/// The module table that the text is.
///
/// # Errors
///
/// The lowest rule that the text breaks, or `Memory`.
pub fn accept_table(alloc: Global, text: &[u8]) -> Result<ModuleTable, BuildFault>
    ensures table { IfOk result (λ table. IsTable text.now (table_of table)) }
    ensures refused { IfErr result (λ fault. IsTableRefusal text.now fault) }
{
    match read_table(alloc, text) {
        Ok(table) => Ok(table),
        Err(TableFault::Memory) => Err(BuildFault::Memory),
        Err(fault) => Err(BuildFault::Table(fault)),
    }
}

/// The bytes of the image of an accepted table and its sources.
fn build_table(alloc: Global, table: ModuleTable, sources: &[&[u8]]) -> Result<Vec<u8>, BuildFault>
    requires { IsJudged (table_of table) }
    ensures built { IfOk result
        (λ bytes. IsBuiltFrom (table_of table) (map (λ s. s.now) sources.now) bytes.items) }
    ensures refused { IfErr result
        (λ fault. IsRefusedWith (table_of table) (map (λ s. s.now) sources.now) fault) }
{
    if sources.len() != table.partitions.len() {
        return Err(BuildFault::Sources);
    }
    let accepted = accept_sources(alloc, table.partitions.as_slice(), sources)?;
    judge_lengths(table.partitions.as_slice(), &accepted)?;
    Ok(build_accepted(alloc, table, &accepted)?)
}

/// The bytes of the image of a table and its accepted sources, none of them too long.
fn build_accepted(
    alloc: Global,
    table: ModuleTable,
    sources: &[Checked],
) -> Result<Vec<u8>, AllocError>
    requires count { length sources.now ≡ length table.partitions.items }
    requires lawful { BecomesLawful (table_of table) (programs_of sources.now) }
    requires short { list_any is_too_long (programs_of sources.now) ≡ false }
    ensures spelled { IfOk result
        (λ bytes. bytes.items ≡ spelling (built_image (table_of table) (programs_of sources.now))) }
    ensures coded { IfOk result (λ bytes. AreCoded (programs_of sources.now)) }
{
    let image = build_image(alloc, table, sources)?;
    match write_image(alloc, &image) {
        Ok(bytes) => Ok(bytes),
        Err(_) => Err(AllocError),
    }
}

/// The image of a table and the programs of its partitions.
fn build_image(alloc: Global, table: ModuleTable, sources: &[Checked]) -> Result<Image, AllocError>
    requires count { length sources.now ≡ length table.partitions.items }
    requires lawful { BecomesLawful (table_of table) (programs_of sources.now) }
    requires short { list_any is_too_long (programs_of sources.now) ≡ false }
    ensures image { IfOk result
        (λ image. image_of image ≡ built_image (table_of table) (programs_of sources.now)) }
    ensures coded { IfOk result (λ image. AreCoded (programs_of sources.now)) }
{
    let ModuleTable {
        schedule,
        fault,
        costs,
        partitions,
        channels,
    } = table;
    let partitions = build_items(alloc, partitions, sources)?;
    Ok(Image {
        schedule,
        fault,
        version: ImageVersion::Third { costs },
        partitions,
        channels,
    })
}

/// Each partition with its compiled program.
fn build_items(
    alloc: Global,
    rows: Vec<PartitionRow>,
    sources: &[Checked],
) -> Result<Vec<PartitionItem>, AllocError>
    requires count { length sources.now ≡ length rows.items }
    requires short { list_any is_too_long (programs_of sources.now) ≡ false }
    ensures items { IfOk result
        (λ items. items_of items.items
        ≡ built_items (map partition_of rows.items) (programs_of sources.now)) }
    ensures coded { IfOk result (λ items. AreCoded (programs_of sources.now)) }
{
    let mut items = Vec::with_capacity(alloc, sources.len())?;
    let mut place = 0usize;
    for row in rows {
        let source = &sources[place];
        items.push(build_item(alloc, row, source)?)?;
        place += 1;
    }
    Ok(items)
}

/// A partition with its compiled program.
fn build_item(
    alloc: Global,
    row: PartitionRow,
    source: &Checked,
) -> Result<PartitionItem, AllocError>
    requires { is_too_long (program_of source.now.program) ≡ false }
    ensures item { IfOk result
        (λ item. item_of item ≡ built_item (partition_of row) (program_of source.now.program)) }
    ensures coded { IfOk result (λ item. IsCoded (program_of source.now.program)) }
{
    let section = compiled(alloc, source)?;
    Ok(PartitionItem { row, section })
}

/// The section of a program that is not too long.
#[tactic(auto, using(crate::proofs::Built::coded_section, crate::proofs::Built::short_enough))]
fn compiled(alloc: Global, source: &Checked) -> Result<Section, AllocError>
    requires { is_too_long (program_of source.now.program) ≡ false }
    ensures section { IfOk result
        (λ section. section_of section ≡ code_of.section_of (program_of source.now.program)) }
    ensures coded { IfOk result (λ section. IsCoded (program_of source.now.program)) }
{
    match compile(alloc, source) {
        Ok(section) => Ok(section),
        Err(CompileFault::Memory) => Err(AllocError),
        Err(CompileFault::TooLong) => unreachable!(),
    }
}
