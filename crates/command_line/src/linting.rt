//! What of a module is accepted and probably not meant.

ghost use Rattle.std.specs.Prelude.{◌≡◌, ◌≤◌, ◌+◌, ◌-◌, ◌^◌, ◌<◌, length, map, IfOk, IfErr, OnOk};
ghost use Rattle.lint.specs.Sentences.{findings_text};
ghost use Rattle.pal_base.specs.WrittenView.{program_of};
ghost use Rattle.pal_base.specs.declared.fault.Refusal.TheVariants.{Memory};
ghost use Rattle.pal_meaning.specs.Grammar.{IsProgramOf};
ghost use Rattle.window_table.specs.Views.{table_of};
ghost use Rattle.command_line.specs.Orders.{Lint};
ghost use Rattle.command_line.specs.Reading.{IsUncostedText, texts_of};
ghost use Rattle.command_line.specs.States.{state};
ghost use Rattle.command_line.specs.Told.{IsOfFailed};
ghost use Rattle.command_line.specs.Done.{IsModuleIn};
ghost use Rattle.command_line.specs.Ends.{Ends};
ghost use Rattle.command_line.specs.Linting.{AddsFound, AddsTrees, AreToldOf, HasTree, HaveTrees, IsReadModule};
ghost use Rattle.command_line.specs.Listed.{IsShown};
ghost use Rattle.command_line.specs.Refusals.{IsNotCosted};
ghost use Rattle.streams.specs.States.{seen};

use crate::explaining::Note;
use crate::order::ModuleNames;
use crate::outcome::Outcome;
use crate::reading::{module_of_texts, read_sources, read_table};
use crate::refusal::Refusal;
use apex_types::SinkFault;
use lint::{PartitionFindings, partition_findings, write_findings};
use module::AcceptedModule;
use pal::Checked;
use pal_base::fault::PalFault;
use pal_base::parse::parse;
use pal_base::syntax::Program;
use std::alloc::{AllocError, Global};
use streams::{Files, Stream};
use window_table::{ModuleTable, PartitionRow};

/// An accepted module, and its sources as they are written.
#[derive(Drop)]
pub struct ReadModule {
    accepted: AcceptedModule,
    /// One for each partition, in the order of the table.
    trees: Vec<Program>,
}

/// Writes what is found in the sources, a line each.
pub fn lint<F: Files, O: Stream>(
    alloc: Global,
    names: ModuleNames<'_>,
    files: &mut F,
    out: &mut O,
    note: &mut Note,
) -> Result<Outcome, Refusal>
    requires { O.failures out.old < 2 ^ 64 - 1 }
    ensures { Ends (Lint names.entry.table.now (map (λ s. s.now) names.entry.sources.now))
        (state F.contents F.failed F.reads O.taken O.failures O.is_flushed files.old out.old)
        (state F.contents F.failed F.reads O.taken O.failures O.is_flushed files.new out.new)
        result }
{
    let read = module_named(alloc, names, files, note)?;
    show_module(alloc, &read, out)
}

/// Writes what is found in the sources of a module.
fn show_module<O: Stream>(alloc: Global, read: &ReadModule, out: &mut O) -> Result<Outcome, Refusal>
    requires { O.failures out.old < 2 ^ 64 - 1 }
    ensures { AreToldOf read.now (seen O.taken O.failures O.is_flushed out.old)
        (seen O.taken O.failures O.is_flushed out.new) result }
{
    let table = &read.accepted.table;
    let rows = table.partitions.as_slice();
    let trees = read.trees.as_slice();
    let sources = read.accepted.sources.as_slice();
    let mut found = Vec::new(alloc);
    add_found(
        alloc,
        table,
        Rows { number: 1, rows },
        trees,
        sources,
        &mut found,
    )?;
    let shown = found.as_slice();
    show_findings(shown, out)?;
    Ok(Outcome::of_findings(shown))
}

/// The module of the table and the sources in the files of these names. A refusal is explained in
/// `note`.
fn module_named<F: Files>(
    alloc: Global,
    names: ModuleNames<'_>,
    files: &mut F,
    note: &mut Note,
) -> Result<ReadModule, Refusal>
    ensures read { IfOk result
        (λ m. IsModuleIn (F.contents files.old) names.entry.table.now
        (map (λ s. s.now) names.entry.sources.now) m) }
    ensures refused { IfErr result
        (λ r. IsNotCosted (F.contents files.old) names.entry.table.now
        (map (λ s. s.now) names.entry.sources.now) r) }
    ensures unchanged { F.contents files.new ≡ F.contents files.old }
    ensures noted { OnOk result (F.failed files.new ≡ F.failed files.old) }
    ensures named { IfErr result (λ r. IsOfFailed (F.failed files.old) (F.failed files.new) r) }
{
    let table = read_table(alloc, names.table, files)?;
    let sources = read_sources(alloc, names.sources, files)?;
    read_texts(alloc, names, table.as_slice(), sources.as_slice(), note)
}

/// The module of a table and its sources.
fn read_texts(
    alloc: Global,
    names: ModuleNames<'_>,
    table: &[u8],
    sources: &[Vec<u8>],
    note: &mut Note,
) -> Result<ReadModule, Refusal>
    ensures read { IfOk result (λ m. IsReadModule table.now (texts_of sources.now) m) }
    ensures refused { IfErr result (λ r. IsUncostedText table.now (texts_of sources.now) r) }
{
    let accepted = module_of_texts(alloc, names, table, sources, note)?;
    let mut trees = Vec::new(alloc);
    add_trees(alloc, sources, &mut trees)?;
    Ok(ReadModule { accepted, trees })
}

/// The tree of a source that has one.
///
/// # Errors
///
/// Memory ran out; there is no other.
fn tree_of(alloc: Global, source: &[u8]) -> Result<Program, PalFault>
    requires { HasTree source.now }
    ensures tree { IfOk result (λ program. IsProgramOf source.now (program_of program)) }
    ensures memory { IfErr result (λ fault. fault.refusal ≡ Memory) }
{
    parse(alloc, source)
}

/// Adds sources that have trees as they are written.
pub fn add_trees(
    alloc: Global,
    sources: &[Vec<u8>],
    trees: &mut Vec<Program>,
) -> Result<(), AllocError>
    requires { HaveTrees (texts_of sources.now) }
    ensures { OnOk result (AddsTrees (texts_of sources.now) trees.old.items trees.new.items) }
{
    let Some((source, sources)) = sources.split_first() else {
        return Ok(());
    };
    let Ok(tree) = tree_of(alloc, source.as_slice()) else {
        return Err(AllocError);
    };
    trees.push(tree)?;
    add_trees(alloc, sources, trees)
}

/// Rows of a table, the first of which has this number in it.
#[derive(Clone, Copy)]
struct Rows<'a> {
    number: usize,
    rows: &'a [PartitionRow],
}

/// Adds what is found for the partitions of these rows of the table, with their sources as written
/// and as accepted.
#[tactic(auto, using(crate::proofs::Linted::no_rows, crate::proofs::Linted::no_trees, crate::proofs::Linted::no_sources))]
fn add_found<'a>(
    alloc: Global,
    table: &'a ModuleTable,
    rows: Rows<'a>,
    trees: &'a [Program],
    sources: &'a [Checked],
    found: &mut Vec<PartitionFindings<'a>>,
) -> Result<(), AllocError>
    requires { rows.number + length rows.rows.now ≤ u64.MAX }
    ensures { OnOk result
        (AddsFound (table_of table.now) rows.entry.number rows.entry.rows.now trees.now sources.now
        found.old.items found.new.items) }
{
    let Some((row, later)) = rows.rows.split_first() else {
        return Ok(());
    };
    let Some((tree, trees)) = trees.split_first() else {
        return Ok(());
    };
    let Some((source, sources)) = sources.split_first() else {
        return Ok(());
    };
    let number = rows.number;
    found.push(partition_findings(alloc, table, number, row, tree, &source.program)?)?;
    let rows = Rows {
        number: number + 1,
        rows: later,
    };
    add_found(alloc, table, rows, trees, sources, found)
}

/// Writes the lines of findings, to their end.
fn show_findings<O: Stream>(found: &[PartitionFindings<'_>], out: &mut O) -> Result<(), SinkFault>
    requires { O.failures out.old < 2 ^ 64 - 1 }
    ensures { IsShown (findings_text found.now) (seen O.taken O.failures O.is_flushed out.old)
        (seen O.taken O.failures O.is_flushed out.new) result }
{
    write_findings(found, out)?;
    out.flush()
}
