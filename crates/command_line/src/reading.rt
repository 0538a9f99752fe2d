//! The texts of the files that the words name.

ghost use Rattle.std.specs.Prelude.{◌≡◌, ◌∷◌, map, Ok, IfOk, IfErr, OnOk};
ghost use Rattle.machine_meaning.specs.ImageReading.{image_at};
ghost use Rattle.image.specs.Views.{image_of};
ghost use Rattle.streams.specs.Beginnings.{HoldsFrom};
ghost use Rattle.streams.specs.Reads.{Remembers};
ghost use Rattle.text_beginnings.specs.Kinds.{settles};
ghost use Rattle.text_beginnings.specs.Settled.{settles_source};
ghost use Rattle.command_line.specs.Done.{AreCosted, AreRead, IsBuilt, IsImageIn, IsTableIn, IsUpgradedIn};
ghost use Rattle.command_line.specs.Reading.{IsRefusedText, HoldAllFrom, IsHeld, IsNoTable, IsUncostedText, IsUnread, IsUnreadAmong, texts_of};
ghost use Rattle.module.specs.Building.{IsImageOf};
ghost use Rattle.module.specs.Costs.{AreCosts, IsAcceptedModule};
ghost use Rattle.module.specs.Running.{IsRefused};
ghost use Rattle.module.specs.Upgrades.{IsUpgraded};
ghost use Rattle.command_line.specs.Refusals.{IsNotBuilt, IsNotCosted, IsNotLoaded};
ghost use Rattle.command_line.specs.Told.{IsOfFailed};

use crate::explaining::Note;
use crate::order::ModuleNames;
use crate::refusal::Refusal;
use apex_types::limits::MOST_SOURCE_BYTES;
use image::{Image, load_image};
use module::{AcceptedModule, PartitionCosts, RunFault, upgrade};
use std::alloc::{AllocError, Global};
use streams::Files;
use text_beginnings::{TextKind, is_longer_than_a_table};

/// The bytes of the file of that name, as far as a text of this kind needs them.
pub fn read_as<F: Files>(
    alloc: Global,
    kind: TextKind,
    name: &str,
    files: &mut F,
) -> Result<Vec<u8>, Refusal>
    ensures held { IfOk result
        (λ bytes. HoldsFrom (settles kind) (F.contents files.old) name.now bytes.items) }
    ensures known { OnOk result (IsHeld (F.contents files.old) name.now) }
    ensures refused { IfErr result (λ r. IsUnread name.now r) }
    ensures remembered { OnOk result (Remembers name.now (F.reads files.old) (F.reads files.new)) }
    ensures unchanged { F.contents files.new ≡ F.contents files.old }
    ensures noted { OnOk result (F.failed files.new ≡ F.failed files.old) }
    ensures named { IfErr result (λ r. IsOfFailed (F.failed files.old) (F.failed files.new) r) }
{
    let told = String::from_str(alloc, name)?;
    match files.read_until(alloc, name, &kind) {
        Ok(text) => Ok(text),
        Err(fault) => Err(Refusal::of_file(told, fault)),
    }
}

/// All bytes of the table of that name, if there are not too many.
pub fn read_table<F: Files>(alloc: Global, name: &str, files: &mut F) -> Result<Vec<u8>, Refusal>
    ensures held { IfOk result
        (λ bytes. IsTableIn (F.contents files.old) name.now bytes.items) }
    ensures known { OnOk result (IsHeld (F.contents files.old) name.now) }
    ensures refused { IfErr result (λ r. IsNoTable (F.contents files.old) name.now r) }
    ensures remembered { OnOk result (Remembers name.now (F.reads files.old) (F.reads files.new)) }
    ensures unchanged { F.contents files.new ≡ F.contents files.old }
    ensures noted { OnOk result (F.failed files.new ≡ F.failed files.old) }
    ensures named { IfErr result (λ r. IsOfFailed (F.failed files.old) (F.failed files.new) r) }
{
    let bytes = read_as(alloc, TextKind::Table, name, files)?;
    if is_longer_than_a_table(bytes.as_slice()) {
        return Err(Refusal::LongTable(String::from_str(alloc, name)?));
    }
    Ok(bytes)
}

/// The bytes of the files of these names, in their order, as far as sources need them: a source that
/// is too long has one byte more than it may.
#[tactic(auto, using(crate::proofs::Read::read_first))]
pub fn read_sources<F: Files>(
    alloc: Global,
    names: &[&str],
    files: &mut F,
) -> Result<Vec<Vec<u8>>, Refusal>
    ensures held { IfOk result
        (λ texts.
        HoldAllFrom settles_source (F.contents files.old) (map (λ s. s.now) names.now)
        (texts_of texts.items)) }
    ensures refused { IfErr result
        (λ r. IsUnreadAmong (F.contents files.old) (map (λ s. s.now) names.now) r) }
    ensures remembered { OnOk result
        (AreRead (map (λ s. s.now) names.now) (F.reads files.old) (F.reads files.new)) }
    ensures unchanged { F.contents files.new ≡ F.contents files.old }
    ensures noted { OnOk result (F.failed files.new ≡ F.failed files.old) }
    ensures named { IfErr result (λ r. IsOfFailed (F.failed files.old) (F.failed files.new) r) }
{
    let mut texts = Vec::new(alloc);
    for name in names {
        texts.push(read_source(alloc, name, files)?)?;
    }
    Ok(texts)
}

/// The bytes of the source of that name: all of them, or one more than a source may have.
fn read_source<F: Files>(alloc: Global, name: &str, files: &mut F) -> Result<Vec<u8>, Refusal>
    ensures held { IfOk result
        (λ bytes. HoldsFrom settles_source (F.contents files.old) name.now bytes.items) }
    ensures known { OnOk result (IsHeld (F.contents files.old) name.now) }
    ensures refused { IfErr result (λ r. IsUnread name.now r) }
    ensures remembered { OnOk result (Remembers name.now (F.reads files.old) (F.reads files.new)) }
    ensures unchanged { F.contents files.new ≡ F.contents files.old }
    ensures noted { OnOk result (F.failed files.new ≡ F.failed files.old) }
    ensures named { IfErr result (λ r. IsOfFailed (F.failed files.old) (F.failed files.new) r) }
{
    let mut bytes = read_as(alloc, TextKind::Source, name, files)?;
    bytes.truncate(MOST_SOURCE_BYTES as usize + 1);
    Ok(bytes)
}

/// The image of the table and the sources in the files of these names. The refusal of a source is
/// explained in `note`.
pub fn build_named<F: Files>(
    alloc: Global,
    names: ModuleNames<'_>,
    files: &mut F,
    note: &mut Note,
) -> Result<Vec<u8>, Refusal>
    ensures built { IfOk result
        (λ image.
        IsBuilt (F.contents files.old) names.entry.table.now
        (map (λ s. s.now) names.entry.sources.now) image.items) }
    ensures refused { IfErr result
        (λ r. IsNotBuilt (F.contents files.old) names.entry.table.now
        (map (λ s. s.now) names.entry.sources.now) r) }
    ensures remembered { OnOk result
        (AreRead (names.entry.table.now ∷ map (λ s. s.now) names.entry.sources.now)
        (F.reads files.old) (F.reads files.new)) }
    ensures unchanged { F.contents files.new ≡ F.contents files.old }
    ensures noted { OnOk result (F.failed files.new ≡ F.failed files.old) }
    ensures named { IfErr result (λ r. IsOfFailed (F.failed files.old) (F.failed files.new) r) }
{
    let table = read_table(alloc, names.table, files)?;
    let sources = read_sources(alloc, names.sources, files)?;
    build_texts(alloc, names, table.as_slice(), sources.as_slice(), note)
}

/// The image of a table and its sources.
pub fn build_texts(
    alloc: Global,
    names: ModuleNames<'_>,
    table: &[u8],
    sources: &[Vec<u8>],
    note: &mut Note,
) -> Result<Vec<u8>, Refusal>
    ensures built { IfOk result (λ image. IsImageOf table.now (texts_of sources.now) image.items) }
    ensures refused { IfErr result (λ r. IsRefusedText table.now (texts_of sources.now) r) }
{
    let texts = slices(alloc, sources)?;
    match module::build(alloc, table, texts.as_slice()) {
        Ok(image) => Ok(image),
        Err(fault) => {
            note.explain(alloc, names, table, texts.as_slice(), &fault);
            Err(Refusal::Build(fault))
        }
    }
}

/// The costs of the table and the sources in the files of these names. The refusal of a source is
/// explained in `note`.
pub fn costs_named<F: Files>(
    alloc: Global,
    names: ModuleNames<'_>,
    files: &mut F,
    note: &mut Note,
) -> Result<Vec<PartitionCosts>, Refusal>
    ensures costed { IfOk result
        (λ costs.
        AreCosted (F.contents files.old) names.entry.table.now
        (map (λ s. s.now) names.entry.sources.now) costs.items) }
    ensures refused { IfErr result
        (λ r. IsNotCosted (F.contents files.old) names.entry.table.now
        (map (λ s. s.now) names.entry.sources.now) r) }
    ensures unchanged { F.contents files.new ≡ F.contents files.old }
    ensures noted { OnOk result (F.failed files.new ≡ F.failed files.old) }
    ensures named { IfErr result (λ r. IsOfFailed (F.failed files.old) (F.failed files.new) r) }
{
    let table = read_table(alloc, names.table, files)?;
    let sources = read_sources(alloc, names.sources, files)?;
    costs_of_texts(alloc, names, table.as_slice(), sources.as_slice(), note)
}

/// The costs of a table and its sources.
fn costs_of_texts(
    alloc: Global,
    names: ModuleNames<'_>,
    table: &[u8],
    sources: &[Vec<u8>],
    note: &mut Note,
) -> Result<Vec<PartitionCosts>, Refusal>
    ensures costed { IfOk result (λ costs. AreCosts table.now (texts_of sources.now) costs.items) }
    ensures refused { IfErr result (λ r. IsUncostedText table.now (texts_of sources.now) r) }
{
    let texts = slices(alloc, sources)?;
    match module::costs(alloc, table, texts.as_slice()) {
        Ok(costs) => Ok(costs),
        Err(fault) => {
            note.explain(alloc, names, table, texts.as_slice(), &fault);
            Err(Refusal::Build(fault))
        }
    }
}

/// An accepted table and its sources. A refusal is explained in `note`.
pub fn module_of_texts(
    alloc: Global,
    names: ModuleNames<'_>,
    table: &[u8],
    sources: &[Vec<u8>],
    note: &mut Note,
) -> Result<AcceptedModule, Refusal>
    ensures accepted { IfOk result
        (λ m. IsAcceptedModule table.now (texts_of sources.now) m) }
    ensures refused { IfErr result (λ r. IsUncostedText table.now (texts_of sources.now) r) }
{
    let texts = slices(alloc, sources)?;
    match module::accept_module(alloc, table, texts.as_slice()) {
        Ok(module) => Ok(module),
        Err(fault) => {
            note.explain(alloc, names, table, texts.as_slice(), &fault);
            Err(Refusal::Build(fault))
        }
    }
}

/// The image in the file of that name.
/// A refusal of the image is explained in `note`.
pub fn load_named<F: Files>(
    alloc: Global,
    name: &str,
    files: &mut F,
    note: &mut Note,
) -> Result<Image, Refusal>
    ensures loaded { IfOk result
        (λ image. IsImageIn (F.contents files.old) name.now (image_of image)) }
    ensures refused { IfErr result (λ r. IsNotLoaded (F.contents files.old) name.now r) }
    ensures unchanged { F.contents files.new ≡ F.contents files.old }
    ensures noted { OnOk result (F.failed files.new ≡ F.failed files.old) }
    ensures named { IfErr result (λ r. IsOfFailed (F.failed files.old) (F.failed files.new) r) }
{
    let bytes = read_as(alloc, TextKind::Image, name, files)?;
    Ok(load(alloc, name, bytes.as_slice(), note)?)
}

/// The image in the bytes.
fn load(alloc: Global, name: &str, bytes: &[u8], note: &mut Note) -> Result<Image, RunFault>
    ensures loaded { IfOk result (λ image. image_at bytes.now ≡ Ok (image_of image)) }
    ensures refused { IfErr result (λ fault. IsRefused (image_at bytes.now) fault) }
{
    let loaded = load_image(alloc, bytes);
    if let Err(fault) = &loaded {
        note.explain_image(alloc, name, bytes, *fault);
    }
    Ok(loaded?)
}

/// The image in the file of that name, upgraded.
/// A refusal of the image is explained in `note`.
pub fn upgrade_named<F: Files>(
    alloc: Global,
    name: &str,
    files: &mut F,
    note: &mut Note,
) -> Result<Vec<u8>, Refusal>
    ensures upgraded { IfOk result
        (λ bytes. IsUpgradedIn (F.contents files.old) name.now bytes.items) }
    ensures refused { IfErr result (λ r. IsNotLoaded (F.contents files.old) name.now r) }
    ensures unchanged { F.contents files.new ≡ F.contents files.old }
    ensures noted { OnOk result (F.failed files.new ≡ F.failed files.old) }
    ensures named { IfErr result (λ r. IsOfFailed (F.failed files.old) (F.failed files.new) r) }
{
    let bytes = read_as(alloc, TextKind::Image, name, files)?;
    Ok(upgraded(alloc, name, bytes.as_slice(), note)?)
}

/// The image in the bytes, upgraded.
fn upgraded(alloc: Global, name: &str, bytes: &[u8], note: &mut Note) -> Result<Vec<u8>, RunFault>
    ensures upgraded { IfOk result (λ image. IsUpgraded bytes.now image.items) }
    ensures refused { IfErr result (λ fault. IsRefused (image_at bytes.now) fault) }
{
    let upgraded = upgrade(alloc, bytes);
    if let Err(fault) = &upgraded {
        note.explain_image(alloc, name, bytes, *fault);
    }
    Ok(upgraded?)
}

/// Each of them as a slice.
pub fn slices<'a>(alloc: Global, sources: &'a [Vec<u8>]) -> Result<Vec<&'a [u8]>, AllocError>
    ensures { IfOk result (λ slices. map (λ s. s.now) slices.items ≡ texts_of sources.now) }
{
    let mut slices = Vec::with_capacity(alloc, sources.len())?;
    for source in sources {
        slices.push(source.as_slice())?;
    }
    Ok(slices)
}
