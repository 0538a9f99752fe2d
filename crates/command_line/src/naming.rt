//! The state of a module before a tick, with the names of its sources.

ghost use Rattle.std.specs.Prelude.{◌-◌, ◌^◌, ◌<◌, ◌≡◌, ◌↔◌, map, IfOk, IfErr, IsTrue, OnOk};
ghost use Rattle.command_line.specs.Done.{AreOnlyLast, IsBuiltIn, IsBuiltWith};
ghost use Rattle.command_line.specs.Ends.{Answers, EndsNamed};
ghost use Rattle.command_line.specs.Made.{made_in};
ghost use Rattle.command_line.specs.Meant.{names_meant, wanted_in};
ghost use Rattle.command_line.specs.Reading.{IsRefusedText, texts_of};
ghost use Rattle.command_line.specs.Refusals.{IsNotBuilt};
ghost use Rattle.command_line.specs.States.{state};
ghost use Rattle.command_line.specs.Told.{IsOfFailed};

use crate::explaining::{Note, RunFiles};
use crate::grammar::{bad_moments, bad_tick};
use crate::linting::add_trees;
use crate::order::{ModuleNames, NamedStateWords, StateWords, Timed};
use crate::outcome::Outcome;
use crate::reading::{build_texts, read_as, read_sources, read_table};
use crate::refusal::Refusal;
use command_words::{Failure, number_of};
use module::{WantedNames, WrittenSources};
use pal_base::syntax::Program;
use std::alloc::Global;
use streams::{Files, Stream};
use text_beginnings::TextKind;

/// The image of a module, and its sources in the order of the table: their texts, and the programs
/// that these are.
#[derive(Drop)]
pub struct BuiltModule {
    image: Vec<u8>,
    texts: Vec<Vec<u8>>,
    trees: Vec<Program>,
}

/// Shows the state of a module before the tick of a word, with the names of its sources.
pub fn show_names<F: Files, O: Stream>(
    alloc: Global,
    words: NamedStateWords<'_>,
    files: &mut F,
    out: &mut O,
    note: &mut Note,
) -> Result<Outcome, Failure<Refusal>>
    requires { O.failures out.old < 2 ^ 64 - 1 }
    ensures { Answers (names_meant words.entry)
        (state F.contents F.failed F.reads O.taken O.failures O.is_flushed files.old out.old)
        (state F.contents F.failed F.reads O.taken O.failures O.is_flushed files.new out.new)
        result }
{
    let Some(ticks) = number_of(words.state.tick) else {
        return Err(Failure::Usage(bad_tick(alloc, words.state.tick)?));
    };
    if !are_last(words.state) {
        return Err(Failure::Usage(bad_moments(alloc)?));
    }
    Ok(show_names_at(alloc, Timed { words, ticks }, files, out, note)?)
}

/// Returns true if the words ask for the last state only.
#[tactic(auto, using(crate::proofs::NamedStates::with_spaces, crate::proofs::NamedStates::with_row))]
fn are_last(words: StateWords<'_>) -> bool
    ensures { IsTrue result ↔ AreOnlyLast (wanted_in words.entry).moments }
{
    match (words.every, words.until) {
        (Some(_), _) => false,
        (None, [_, ..]) => false,
        (None, []) => true,
    }
}

/// Shows the state of a module after so many ticks, with the names of its sources. A refusal is
/// explained in `note`.
fn show_names_at<F: Files, O: Stream>(
    alloc: Global,
    wanted: Timed<NamedStateWords<'_>>,
    files: &mut F,
    out: &mut O,
    note: &mut Note,
) -> Result<Outcome, Refusal>
    requires { O.failures out.old < 2 ^ 64 - 1 }
    ensures { EndsNamed wanted.entry.words.state.image.now
        (map (λ s. s.now) wanted.entry.words.sources.now) wanted.entry.words.state.devices.now
        (wanted_in wanted.entry.words.state) wanted.entry.ticks
        (state F.contents F.failed F.reads O.taken O.failures O.is_flushed files.old out.old)
        (state F.contents F.failed F.reads O.taken O.failures O.is_flushed files.new out.new)
        result }
{
    let words = wanted.words.state;
    let names = ModuleNames {
        table: words.image,
        sources: wanted.words.sources,
        image: None,
    };
    let built = module_named(alloc, names, files, note)?;
    let devices = read_as(alloc, TextKind::Inputs, words.devices, files)?;
    let given = RunFiles {
        image_name: words.image,
        image: built.image.as_slice(),
        text_name: words.devices,
        text: devices.as_slice(),
    };
    let shown = WantedNames {
        devices: given.text,
        tick: wanted.ticks,
        form: words.form,
        partition: words.partition,
    };
    let sources = WrittenSources {
        texts: built.texts.as_slice(),
        trees: built.trees.as_slice(),
    };
    if let Err(fault) = module::named_state(alloc, given.image, sources, shown, out) {
        note.explain_run(alloc, given, &fault);
        return Err(Refusal::Run(fault));
    }
    out.flush()?;
    Ok(Outcome::Usual)
}

/// The module of the table and the sources in the files of these names. A refusal is explained in
/// `note`.
fn module_named<F: Files>(
    alloc: Global,
    names: ModuleNames<'_>,
    files: &mut F,
    note: &mut Note,
) -> Result<BuiltModule, Refusal>
    ensures built { IfOk result
        (λ m. IsBuiltIn (F.contents files.old) names.entry.table.now
        (map (λ s. s.now) names.entry.sources.now) m.image.items (made_in m)) }
    ensures refused { IfErr result
        (λ r. IsNotBuilt (F.contents files.old) names.entry.table.now
        (map (λ s. s.now) names.entry.sources.now) r) }
    ensures unchanged { F.contents files.new ≡ F.contents files.old }
    ensures noted { OnOk result (F.failed files.new ≡ F.failed files.old) }
    ensures named { IfErr result (λ r. IsOfFailed (F.failed files.old) (F.failed files.new) r) }
{
    let table = read_table(alloc, names.table, files)?;
    let sources = read_sources(alloc, names.sources, files)?;
    module_of(alloc, names, table.as_slice(), sources, note)
}

/// The module of a table and its sources.
fn module_of(
    alloc: Global,
    names: ModuleNames<'_>,
    table: &[u8],
    texts: Vec<Vec<u8>>,
    note: &mut Note,
) -> Result<BuiltModule, Refusal>
    ensures built { IfOk result
        (λ m. IsBuiltWith table.now (texts_of texts.items) m.image.items (made_in m)) }
    ensures refused { IfErr result (λ r. IsRefusedText table.now (texts_of texts.items) r) }
{
    let image = build_texts(alloc, names, table, texts.as_slice(), note)?;
    let mut trees = Vec::new(alloc);
    add_trees(alloc, texts.as_slice(), &mut trees)?;
    Ok(BuiltModule {
        image,
        texts,
        trees,
    })
}
