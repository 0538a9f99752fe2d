//! The state of a module before a tick, with the names of its sources.

ghost use Rattle.std.specs.Prelude.{◌≡◌, ◌≢◌, ◌≤◌, ◌<◌, ◌+◌, ◌-◌, ◌^◌, ◌++◌, length, map, option_map, IfErr, IfOk, OnOk, IsErrOf};
ghost use Rattle.apex_types.specs.Limits.{MOST_TICKS};
ghost use Rattle.image.specs.Items.{items_of};
ghost use Rattle.image.specs.Views.{image_of};
ghost use Rattle.machine_meaning.specs.ImageReading.{image_at};
ghost use Rattle.machine_meaning.specs.MachineMeaning.{verdict_for};
ghost use Rattle.pal_base.specs.WrittenView.{program_of};
ghost use Rattle.partition_base.specs.contracts.machine.PartitionProcessorExecutor.TheImpl.{ghosts as machine};
ghost use Rattle.state_rows.specs.Rows.{rows_in};
ghost use Rattle.state_view.specs.Sources.{source_in};
ghost use Rattle.module.specs.Machines.{machine_of};
ghost use Rattle.module.specs.NamedStates as meaning;
ghost use Rattle.module.specs.NamedStates.{NamedStates, names_at, names_for, names_from, names_if, sources_of};
ghost use Rattle.module.specs.Naming.{IsNamedTextFor, named_in, written_in};
ghost use Rattle.module.specs.Running.{AreRefused};
ghost use Rattle.module.specs.Stating.{number_in};
ghost use Rattle.module.specs.Views.{members_in};
ghost use Rattle.apex_types.specs.Places.{place_of_number};

use crate::fault::RunFault;
use crate::machine::Machine;
use crate::member::Members;
use crate::naming::numbered;
use crate::step::number_at;
use apex_types::limits::MOST_TICKS;
use apex_types::{PartitionId, Sink, put_all};
use image::{Image, PartitionItem, load_image};
use pal_base::syntax::Program;
use partition_base::PartitionProcessor;
use source_places::program_places;
use state_rows::Form;
use state_view::{Source, write_names};
use std::alloc::{AllocError, Global};

/// The sources of a module, in the order of its partitions: their texts, and the programs that these
/// are.
#[derive(Clone, Copy)]
pub struct WrittenSources<'a> {
    pub texts: &'a [Vec<u8>],
    pub trees: &'a [Program],
}

/// Which state is wanted with the names of its sources: the one that a run of `tick` ticks with a
/// device text ends in. Of its rows all, or only those of the module and of one partition.
#[derive(Clone, Copy)]
pub struct WantedNames<'a> {
    pub devices: &'a [u8],
    pub tick: u64,
    pub form: Form,
    pub partition: Option<&'a str>,
}

/// Writes what [`state`](crate::state) writes of the last state, and after it the rows with the
/// names of these sources: the variables, arrays and objects of each partition by their names, and
/// where in its source each process is.
///
/// # Errors
///
/// Those of [`state`](crate::state).
pub fn named_state<S: Sink>(
    alloc: Global,
    image: &[u8],
    sources: WrittenSources<'_>,
    wanted: WantedNames<'_>,
    sink: &mut S,
) -> Result<(), RunFault>
    requires { S.failures sink.old < 2 ^ 64 - 1 }
    ensures text { NamedStates (image_at image.now) wanted.entry.devices.now wanted.entry.tick
        (named_in wanted.entry) (written_in sources.entry) (S.taken sink.old)
        (S.taken sink.new) result }
    ensures ok { OnOk result (S.failures sink.new ≡ S.failures sink.old) }
    ensures write { IsErrOf result RunFault.Write → S.failures sink.new ≡ S.failures sink.old + 1 }
    ensures quiet { IfErr result
        (λ fault. fault ≢ RunFault.Write → S.failures sink.new ≡ S.failures sink.old) }
{
    if wanted.tick > MOST_TICKS {
        return Err(RunFault::Ticks);
    }
    let image = load_image(alloc, image)?;
    let Some(only) = wanted_number(&image, wanted.partition) else {
        return Err(RunFault::Partition);
    };
    let text = named_text(alloc, image, sources, only, wanted)?;
    put_all(sink, text.as_slice())?;
    Ok(())
}

/// The text of the wanted state of an image, with the rows of all partitions or of one.
fn named_text(
    alloc: Global,
    image: Image,
    sources: WrittenSources<'_>,
    only: Option<PartitionId>,
    wanted: WantedNames<'_>,
) -> Result<Vec<u8>, RunFault>
    requires { wanted.tick ≤ MOST_TICKS }
    ensures text { IfOk result
        (λ text. IsNamedTextFor (image_of image) wanted.entry.devices.now wanted.entry.tick
        wanted.entry.form (number_in only) (written_in sources.entry) text.items) }
    ensures refused { IfErr result
        (λ fault. AreRefused (verdict_for (image_of image) wanted.entry.devices.now) fault) }
{
    let mut machine = Machine::load(alloc, image)?;
    let lines = machine.devices(alloc, wanted.devices)?;
    machine.pass_over(lines.as_slice(), wanted.tick)?;
    let mut text = Vec::new(alloc);
    machine.state(wanted.form, only, &mut text)?;
    let mut placed = Vec::new(alloc);
    add_sources(alloc, sources.texts, sources.trees, &mut placed)?;
    machine.names(wanted.form, only, placed.as_slice(), &mut text)?;
    Ok(text)
}

/// The number of the wanted partition, or no number if all are wanted.
fn wanted_number(image: &Image, name: Option<&str>) -> Option<Option<PartitionId>>
    ensures { option_map number_in result
        ≡ meaning.wanted_number (image_of image.now) (option_map (λ s. s.now) name.entry) }
{
    let Some(name) = name else {
        return Some(None);
    };
    match numbered(image, name) {
        Some(number) => Some(Some(number)),
        None => None,
    }
}

/// Adds the sources of these texts and programs, with the places of their instructions.
fn add_sources<'a>(
    alloc: Global,
    texts: &'a [Vec<u8>],
    trees: &'a [Program],
    sources: &mut Vec<Source<'a>>,
) -> Result<(), AllocError>
    ensures { OnOk result
        (map source_in sources.new.items
        ≡ map source_in sources.old.items
        ++ sources_of (map (λ t. t.items) texts.now) (map program_of trees.now)) }
{
    let Some((text, texts)) = texts.split_first() else {
        return Ok(());
    };
    let Some((program, trees)) = trees.split_first() else {
        return Ok(());
    };
    let text = text.as_slice();
    sources.push(Source {
        text,
        program,
        places: program_places(alloc, text, program)?,
    })?;
    add_sources(alloc, texts, trees, sources)
}

impl Machine {
    /// Appends the rows with the names of these sources: those of all partitions, or of only the
    /// one with a number.
    fn names(
        &self,
        form: Form,
        only: Option<PartitionId>,
        sources: &[Source<'_>],
        text: &mut Vec<u8>,
    ) -> Result<(), AllocError>
        ensures { OnOk result
            (text.new.items
            ≡ text.old.items
            ++ rows_in form
            (names_for (number_in only) (machine_of self.now).image.items
            (map source_in sources.now) (machine_of self.now).standing.members)) }
    {
        let module = &self.module;
        let items = module.image.partitions.as_slice();
        match only {
            None => module.members.write_all_names(form, items, sources, text),
            Some(number) => module
                .members
                .write_names_of(form, items, sources, number, text),
        }
    }
}

impl Members<PartitionProcessor> {
    /// Appends the rows with names of all partitions, which have these items and sources.
    fn write_all_names(
        &self,
        form: Form,
        items: &[PartitionItem],
        sources: &[Source<'_>],
        text: &mut Vec<u8>,
    ) -> Result<(), AllocError>
        ensures { OnOk result
            (text.new.items
            ≡ text.old.items
            ++ rows_in form
            (names_from (items_of items.now) (map source_in sources.now)
            (members_in machine self.now) (length (items_of items.now)) 0)) }
    {
        for place in 0..items.len() {
            self.write_names_at(form, items, sources, place, text)?;
        }
        Ok(())
    }

    /// Appends the rows with names of the partition with this number, if there is one.
    fn write_names_of(
        &self,
        form: Form,
        items: &[PartitionItem],
        sources: &[Source<'_>],
        number: PartitionId,
        text: &mut Vec<u8>,
    ) -> Result<(), AllocError>
        ensures { OnOk result
            (text.new.items
            ≡ text.old.items
            ++ rows_in form
            (names_if (items_of items.now) (map source_in sources.now)
            (members_in machine self.now) (place_of_number number.0))) }
    {
        match number.place() {
            Some(place) => { self.write_names_at(form, items, sources, usize::from(place), text) }
            None => Ok(()),
        }
    }

    /// Appends the rows with names of the partition at a place, if there is one.
    fn write_names_at(
        &self,
        form: Form,
        items: &[PartitionItem],
        sources: &[Source<'_>],
        place: usize,
        text: &mut Vec<u8>,
    ) -> Result<(), AllocError>
        ensures { OnOk result
            (text.new.items
            ≡ text.old.items
            ++ rows_in form
            (names_at (items_of items.now) (map source_in sources.now)
            (members_in machine self.now) place)) }
    {
        if place >= items.len() {
            return Ok(());
        }
        if place >= sources.len() {
            return Ok(());
        }
        if place >= self.partitions.len() {
            return Ok(());
        }
        let memory = self.memory.part(number_at(place));
        let partition = &self.partitions[place];
        write_names(
            form,
            &items[place],
            &sources[place],
            partition,
            memory,
            text,
        )
    }
}
