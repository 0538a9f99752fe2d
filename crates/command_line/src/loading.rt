//! The load of a schedule.

ghost use Rattle.std.specs.Prelude.{◌≡◌, ◌-◌, ◌^◌, ◌<◌, ◌++◌, map, IfOk, IfErr, OnOk};
ghost use Rattle.command_line.specs.Loading.{AreLoaded, IsLoadOfText, IsRefusedTable, IsShownOf, IsTextOf, loads_of_sources, source_loads};
ghost use Rattle.command_line.specs.Loaded.{shown_of};
ghost use Rattle.command_line.specs.Orders.{Load};
ghost use Rattle.command_line.specs.Reading.{IsUncostedText, texts_of};
ghost use Rattle.command_line.specs.States.{state};
ghost use Rattle.command_line.specs.Told.{IsOfFailed};
ghost use Rattle.window_table.specs.Views.{partition_view, table_of};
ghost use Rattle.trace_picture.specs.Page.{IsPicture};
ghost use Rattle.command_line.specs.Done.{IsLoadIn};
ghost use Rattle.command_line.specs.Ends.{Ends};
ghost use Rattle.command_line.specs.Refusals.{IsNotLoadedFrom};

use crate::explaining::Note;
use crate::form::Form;
use crate::order::ModuleNames;
use crate::outcome::Outcome;
use crate::reading::{module_of_texts, read_sources, read_table};
use crate::refusal::Refusal;
use apex_types::Costs;
use module::{AcceptedModule, accept_table};
use pal::Checked;
use schedule_load::{FrameLoad, LoadReport, PartitionBodies, body_loads, frame_load};
use std::alloc::{AllocError, Global};
use streams::{Files, Stream, write_bytes};
use window_table::{ModuleTable, PartitionRow};

/// The load of a module table, and of the bodies of its sources if these are given.
#[derive(Drop)]
struct Loaded {
    table: ModuleTable,
    load: FrameLoad,
    bodies: Vec<PartitionBodies>,
}

/// Shows the load of a module table, and what the bodies of its sources cost if these are named.
pub fn load<F: Files, O: Stream>(
    alloc: Global,
    form: Form,
    names: ModuleNames<'_>,
    files: &mut F,
    out: &mut O,
    note: &mut Note,
) -> Result<Outcome, Refusal>
    requires { O.failures out.old < 2 ^ 64 - 1 }
    ensures { Ends (Load form names.entry.table.now (map (λ s. s.now) names.entry.sources.now))
        (state F.contents F.failed F.reads O.taken O.failures O.is_flushed files.old out.old)
        (state F.contents F.failed F.reads O.taken O.failures O.is_flushed files.new out.new)
        result }
{
    let loaded = loaded_named(alloc, names, files, note)?;
    let text = shown(alloc, form, &loaded)?;
    write_bytes(out, text.as_slice())?;
    Ok(Outcome::Usual)
}

/// The load of the table, with its sources if there are any, in the files of these names. A refusal
/// is explained in `note`.
fn loaded_named<F: Files>(
    alloc: Global,
    names: ModuleNames<'_>,
    files: &mut F,
    note: &mut Note,
) -> Result<Loaded, Refusal>
    ensures loaded { IfOk result
        (λ loaded.
        IsLoadIn (F.contents files.old) names.entry.table.now
        (map (λ s. s.now) names.entry.sources.now) (shown_of loaded)) }
    ensures refused { IfErr result
        (λ r. IsNotLoadedFrom (F.contents files.old) names.entry.table.now
        (map (λ s. s.now) names.entry.sources.now) r) }
    ensures unchanged { F.contents files.new ≡ F.contents files.old }
    ensures noted { OnOk result (F.failed files.new ≡ F.failed files.old) }
    ensures named { IfErr result (λ r. IsOfFailed (F.failed files.old) (F.failed files.new) r) }
{
    let table = read_table(alloc, names.table, files)?;
    match names.sources.split_first() {
        None => load_of_text(alloc, names, table.as_slice(), note),
        Some(_) => {
            let sources = read_sources(alloc, names.sources, files)?;
            load_of_texts(alloc, names, table.as_slice(), sources.as_slice(), note)
        }
    }
}

/// The load of a table.
fn load_of_text(
    alloc: Global,
    names: ModuleNames<'_>,
    table: &[u8],
    note: &mut Note,
) -> Result<Loaded, Refusal>
    ensures loaded { IfOk result (λ loaded. IsLoadOfText table.now (shown_of loaded)) }
    ensures refused { IfErr result (λ r. IsRefusedTable table.now r) }
{
    match accept_table(alloc, table) {
        Ok(accepted) => Ok(load_of_accepted(alloc, accepted, Vec::new(alloc))?),
        Err(fault) => {
            note.explain(alloc, names, table, &[], &fault);
            Err(Refusal::Build(fault))
        }
    }
}

/// The load of a table and its sources.
fn load_of_texts(
    alloc: Global,
    names: ModuleNames<'_>,
    table: &[u8],
    sources: &[Vec<u8>],
    note: &mut Note,
) -> Result<Loaded, Refusal>
    ensures loaded { IfOk result
        (λ loaded. AreLoaded table.now (texts_of sources.now) (shown_of loaded)) }
    ensures refused { IfErr result (λ r. IsUncostedText table.now (texts_of sources.now) r) }
{
    let AcceptedModule { table, sources } = module_of_texts(alloc, names, table, sources, note)?;
    Ok(load_of_accepted(alloc, table, sources)?)
}

/// The load of an accepted table and accepted sources.
fn load_of_accepted(
    alloc: Global,
    table: ModuleTable,
    sources: Vec<Checked>,
) -> Result<Loaded, AllocError>
    ensures { IfOk result (λ loaded. IsShownOf (table_of table) sources.items (shown_of loaded)) }
{
    let load = frame_load(alloc, &table)?;
    let mut bodies = Vec::new(alloc);
    let rows = table.partitions.as_slice();
    add_bodies(alloc, &table.costs, rows, sources.as_slice(), &mut bodies)?;
    Ok(Loaded {
        table,
        load,
        bodies,
    })
}

/// Adds the costs of the bodies of accepted sources, for the partitions of these rows.
#[tactic(auto, using(std::proofs::lemmas::List::map_push))]
fn add_bodies(
    alloc: Global,
    costs: &Costs,
    rows: &[PartitionRow],
    sources: &[Checked],
    bodies: &mut Vec<PartitionBodies>,
) -> Result<(), AllocError>
    ensures { OnOk result
        (map source_loads bodies.new.items
        ≡ map source_loads bodies.old.items
        ++ loads_of_sources costs.now (map partition_view rows.now) sources.now) }
{
    let Some((row, rows)) = rows.split_first() else {
        return Ok(());
    };
    let Some((source, sources)) = sources.split_first() else {
        return Ok(());
    };
    bodies.push(PartitionBodies {
        partition: row.name,
        bodies: body_loads(alloc, costs, &source.program)?,
    })?;
    add_bodies(alloc, costs, rows, sources, bodies)
}

/// The text of a load.
fn shown(alloc: Global, form: Form, loaded: &Loaded) -> Result<Vec<u8>, AllocError>
    ensures { IfOk result (λ text. IsTextOf form text.items) }
{
    let report = LoadReport {
        load: &loaded.load,
        windows: loaded.table.schedule.windows.as_slice(),
        bodies: loaded.bodies.as_slice(),
    };
    match form {
        Form::Tables => report.tables(alloc),
        Form::Rows => report.sheet(alloc),
        Form::Picture => picture(alloc, &report),
    }
}

/// The picture of a frame.
fn picture(alloc: Global, report: &LoadReport<'_>) -> Result<Vec<u8>, AllocError>
    ensures { IfOk result (λ text. ∥ IsPicture text.items ∥₁) }
{
    let drawn = report.picture(alloc)?;
    let mut text = Vec::new(alloc);
    text.extend_from_slice(drawn.as_bytes())?;
    Ok(text)
}
