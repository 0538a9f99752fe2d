//! The states of a module before ticks.

ghost use Rattle.std.specs.Prelude.{◌≡◌, ◌≢◌, ◌≤◌, ◌<◌, ◌+◌, ◌-◌, ◌^◌, ◌++◌, ℕ, List, Option, Ok, IfErr, OnOk, IsErrOf, map, option_map, slice_get};
ghost use Rattle.apex_types.specs.Limits.{MOST_TICKS};
ghost use Rattle.apex_types.specs.declared.device.DeviceLine.{DeviceLine};
ghost use Rattle.image.specs.Items.{items_of};
ghost use Rattle.image.specs.Views.{image_of};
ghost use Rattle.machine_meaning.specs.Image as meant;
ghost use Rattle.machine_meaning.specs.ImageReading.{image_at};
ghost use Rattle.machine_meaning.specs.MachineMeaning.{machine_module, machine_trace};
ghost use Rattle.module_meaning.specs.Standing.{lines_of};
ghost use Rattle.module_meaning.specs.Table.{at_number};
ghost use Rattle.partition_base.specs.contracts.machine.PartitionProcessorExecutor.TheImpl.{ghosts as machine};
ghost use Rattle.state_rows.specs.Rows.{rows_in};
ghost use Rattle.module.specs.Asked.{asked_rows};
ghost use Rattle.module.specs.Machines as machines;
ghost use Rattle.module.specs.Machines.{HaveTicked, fresh_machine, machine_of};
ghost use Rattle.module.specs.States.{Last, States, rows_of, rows_of_all, rows_of_both, state_before};
ghost use Rattle.module.specs.Stating.{IsFoundFor, IsPut, IsShown, number_in, wanted_in};
ghost use Rattle.module.specs.Views.{members_in};
ghost use Rattle.module.specs.Written.{AreFrom};

use crate::asked::write_asked;
use crate::fault::RunFault;
use crate::first::{Wait, put_first};
use crate::machine::Machine;
use crate::member::Members;
use crate::module_rows::write_module;
use crate::naming::numbered;
use crate::series::{Series, put_series};
use crate::step::number_at;
use apex_types::limits::MOST_TICKS;
use apex_types::{DeviceLine, PartitionId, Sink, put_all};
use image::{Image, PartitionItem, load_image};
use partition_base::PartitionProcessor;
use state_rows::Form;
use std::alloc::{AllocError, Global};

/// Before which ticks of a run the state is wanted.
#[derive(Clone, Copy)]
pub enum Moments<'a> {
    /// Only before the last one.
    Last,
    /// Before tick 0, and before each tick that is so many after another such one. With 0 only before
    /// tick 0.
    Every(u64),
    /// Before the first tick in whose state a row of a partition begins with these words. `_` matches
    /// any word, and `..` any words.
    First(&'a [&'a str]),
}

/// Which states are wanted: of a run of `tick` ticks with a device text those before some ticks, and
/// of their rows all, or only those of the module and of one partition.
#[derive(Clone, Copy)]
pub struct WantedStates<'a> {
    pub devices: &'a [u8],
    pub tick: u64,
    pub moments: Moments<'a>,
    pub form: Form,
    pub partition: Option<&'a str>,
}

/// Runs the image for `tick` ticks with the device text, or for less, and writes the states that its
/// module has before the wanted ticks: a row a thing. Before tick 0 no partition has started. Returns
/// whether there is such a state. After [`RunFault::Write`] the sink has failed once and has taken a
/// prefix of that text; after [`RunFault::Memory`] it has taken nothing, or if several states are
/// wanted a prefix of their text; every other refusal comes before the sink is asked to take
/// anything.
///
/// # Errors
///
/// In this order: a tick above 2^40; bytes that are no image; a name of no partition; the lowest
/// rule that the first wrong line of the device text breaks. Out of memory may come before or after
/// any of these.
pub fn state<S: Sink>(
    alloc: Global,
    image: &[u8],
    wanted: WantedStates<'_>,
    sink: &mut S,
) -> Result<bool, RunFault>
    requires { S.failures sink.old < 2 ^ 64 - 1 }
    ensures text { States (image_at image.now) wanted.entry.devices.now wanted.entry.tick
        (wanted_in wanted.entry) (S.taken sink.old) (S.taken sink.new) result }
    ensures ok { OnOk result (S.failures sink.new ≡ S.failures sink.old) }
    ensures write { IsErrOf result RunFault.Write → S.failures sink.new ≡ S.failures sink.old + 1 }
    ensures quiet { IfErr result
        (λ fault. fault ≢ RunFault.Write → S.failures sink.new ≡ S.failures sink.old) }
{
    if wanted.tick > MOST_TICKS {
        return Err(RunFault::Ticks);
    }
    let image = load_image(alloc, image)?;
    let only = find_wanted(&image, wanted.partition)?;
    let mut machine = Machine::load(alloc, image)?;
    let lines = machine.devices(alloc, wanted.devices)?;
    let shown = Shown {
        form: wanted.form,
        only,
    };
    let mut text = Vec::new(alloc);
    put_wanted(
        &mut machine,
        lines.as_slice(),
        wanted,
        shown,
        &mut text,
        sink,
    )
}

/// The number of the partition with this name, if a name is given.
fn find_wanted(image: &Image, name: Option<&str>) -> Result<Option<PartitionId>, RunFault>
    ensures { IsFoundFor (image_of image.now) (option_map (λ s. s.now) name.entry) result }
{
    let Some(name) = name else {
        return Ok(None);
    };
    match numbered(image, name) {
        Some(number) => Ok(Some(number)),
        None => Err(RunFault::Partition),
    }
}

/// How rows are written, and of which partition, or of all.
#[derive(Clone, Copy)]
pub(crate) struct Shown {
    pub form: Form,
    pub only: Option<PartitionId>,
}

/// Writes the wanted states of a machine, with these lines of the devices. The text of each is made in
/// `text`. Returns whether there is one.
fn put_wanted<S: Sink>(
    machine: &mut Machine,
    devices: &[DeviceLine],
    wanted: WantedStates<'_>,
    shown: Shown,
    text: &mut Vec<u8>,
    sink: &mut S,
) -> Result<bool, RunFault>
    requires few { wanted.tick ≤ MOST_TICKS }
    requires fresh { machine_of machine.old ≡ fresh_machine (machine_of machine.old).image }
    requires order { AreFrom 0 devices.now }
    requires failures { S.failures sink.old < 2 ^ 64 - 1 }
    ensures text { IsShown (wanted_in wanted.entry).moments shown.form
        (number_in shown.only) (machine_of machine.old).image devices.now
        wanted.entry.tick (S.taken sink.old) (S.taken sink.new) result }
    ensures ok { OnOk result (S.failures sink.new ≡ S.failures sink.old) }
    ensures write { IsErrOf result RunFault.Write → S.failures sink.new ≡ S.failures sink.old + 1 }
    ensures quiet { IfErr result
        (λ fault. fault ≢ RunFault.Write → S.failures sink.new ≡ S.failures sink.old) }
{
    match wanted.moments {
        Moments::Last => put_last(machine, devices, wanted.tick, shown, text, sink),
        Moments::Every(every) => {
            let series = Series {
                ticks: wanted.tick,
                every,
            };
            put_series(machine, devices, series, shown, text, sink)
        }
        Moments::First(words) => {
            let wait = Wait {
                ticks: wanted.tick,
                words,
            };
            put_first(machine, devices, wait, shown, text, sink)
        }
    }
}

/// Writes the state of a machine after so many ticks, with these lines of the devices.
fn put_last<S: Sink>(
    machine: &mut Machine,
    devices: &[DeviceLine],
    ticks: u64,
    shown: Shown,
    text: &mut Vec<u8>,
    sink: &mut S,
) -> Result<bool, RunFault>
    requires few { ticks ≤ MOST_TICKS }
    requires fresh { machine_of machine.old ≡ fresh_machine (machine_of machine.old).image }
    requires order { AreFrom 0 devices.now }
    requires failures { S.failures sink.old < 2 ^ 64 - 1 }
    ensures text { IsShown Last shown.form (number_in shown.only)
        (machine_of machine.old).image devices.now ticks (S.taken sink.old) (S.taken sink.new)
        result }
    ensures ok { OnOk result (S.failures sink.new ≡ S.failures sink.old) }
    ensures write { IsErrOf result RunFault.Write → S.failures sink.new ≡ S.failures sink.old + 1 }
    ensures quiet { IfErr result
        (λ fault. fault ≢ RunFault.Write → S.failures sink.new ≡ S.failures sink.old) }
{
    machine.pass_over(devices, ticks)?;
    put_state(machine, shown, text, sink)?;
    Ok(true)
}

/// Writes the state that a machine has now, before its next tick. If memory runs out, the sink has
/// taken nothing.
pub(crate) fn put_state<S: Sink>(
    machine: &Machine,
    shown: Shown,
    text: &mut Vec<u8>,
    sink: &mut S,
) -> Result<(), RunFault>
    requires { S.failures sink.old < 2 ^ 64 - 1 }
    ensures text { IsPut
        (rows_in shown.form
        (rows_of (number_in shown.only) (machine_of machine.now).image
        (machine_of machine.now).standing.now (machine_of machine.now).standing))
        (S.taken sink.old) (S.taken sink.new) result }
    ensures ok { OnOk result (S.failures sink.new ≡ S.failures sink.old) }
    ensures write { IsErrOf result RunFault.Write → S.failures sink.new ≡ S.failures sink.old + 1 }
    ensures quiet { IfErr result
        (λ fault. fault ≢ RunFault.Write → S.failures sink.new ≡ S.failures sink.old) }
{
    text.clear();
    machine.state(shown.form, shown.only, text)?;
    put_all(sink, text.as_slice())?;
    Ok(())
}

impl Machine {
    /// Appends the rows of the state that the module has now, before its next tick: those of all
    /// partitions, or of only the one with a number.
    pub fn state(
        &self,
        form: Form,
        only: Option<PartitionId>,
        text: &mut Vec<u8>,
    ) -> Result<(), AllocError>
        ensures { OnOk result
            (text.new.items
            ≡ text.old.items
            ++ rows_in form
            (rows_of (number_in only) (machine_of self.now).image
            (machine_of self.now).standing.now (machine_of self.now).standing)) }
    {
        let module = &self.module;
        let items = module.image.partitions.as_slice();
        write_module(form, &module.image, module.now, module.origin, text)?;
        match only {
            None => module.members.write_all(form, &[], items, text),
            Some(number) => module.members.write_one(form, &[], items, number, text),
        }
    }
}

impl Members<PartitionProcessor> {
    /// Appends the rows of all partitions, which have these items, among which one with these words is
    /// looked for: with no words all.
    pub(crate) fn write_all(
        &self,
        form: Form,
        asked: &[&str],
        items: &[PartitionItem],
        text: &mut Vec<u8>,
    ) -> Result<(), AllocError>
        ensures { OnOk result
            (text.new.items
            ≡ text.old.items
            ++ rows_in form
            (rows_of_all (asked_rows (map (λ a. a.now) asked.now)) (items_of items.now)
            (members_in machine self.now))) }
    {
        for place in 0..items.len() {
            self.write_at(form, asked, items, place, text)?;
        }
        Ok(())
    }

    /// Appends such rows of the partition with this number, if there is one.
    pub(crate) fn write_one(
        &self,
        form: Form,
        asked: &[&str],
        items: &[PartitionItem],
        number: PartitionId,
        text: &mut Vec<u8>,
    ) -> Result<(), AllocError>
        ensures { OnOk result
            (text.new.items
            ≡ text.old.items
            ++ rows_in form
            (rows_of_both (asked_rows (map (λ a. a.now) asked.now))
            (at_number (items_of items.now) number.0)
            (at_number (members_in machine self.now) number.0))) }
    {
        match number.place() {
            Some(place) => self.write_at(form, asked, items, usize::from(place), text),
            None => Ok(()),
        }
    }

    /// Appends such rows of the partition at a place, if there is one.
    fn write_at(
        &self,
        form: Form,
        asked: &[&str],
        items: &[PartitionItem],
        place: usize,
        text: &mut Vec<u8>,
    ) -> Result<(), AllocError>
        ensures { OnOk result
            (text.new.items
            ≡ text.old.items
            ++ rows_in form
            (rows_of_both (asked_rows (map (λ a. a.now) asked.now))
            (slice_get (items_of items.now) place)
            (slice_get (members_in machine self.now) place))) }
    {
        if place >= items.len() {
            return Ok(());
        }
        if place >= self.partitions.len() {
            return Ok(());
        }
        let memory = self.memory.part(number_at(place));
        let partition = &self.partitions[place];
        write_asked(form, asked, &items[place], partition, memory, text)
    }
}

/// Calls of [`Machine::tick`] and [`Machine::skip`] for an image, in a row, that make n ticks, each
/// tick with its device lines, lead to the state before tick n, which [`Machine::state`] writes.
#[tactic(auto, using(crate::proofs::Elapsed::calls_lead_to_the_state))]
pub fn ticks_make_the_state()
    ensures { (image : meant.Image) (lines : List DeviceLine) (calls n : ℕ)
        (last : machines.Machine) (old new : Option (List ℕ)) (before now : ℕ)
        → HaveTicked lines calls n (fresh_machine image) last old new before now (Ok tt)
        → (last.image ≡ image) × (last.standing ≡ state_before image lines n) }
{}

/// A state decides all that follows: a run of n + m ticks has the trace of n ticks, and then the
/// lines of m ticks from the state before tick n.
#[tactic(auto, using(crate::proofs::Elapsed::state_decides))]
pub fn a_state_decides_the_rest()
    ensures { (image : meant.Image) (lines : List DeviceLine) (n m : ℕ)
        → machine_trace image lines (n + m)
        ≡ machine_trace image lines n
        ++ lines_of (machine_module image).plan lines m (state_before image lines n) }
{}
