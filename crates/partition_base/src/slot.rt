//! The slots of a partition: those of INIT, of its error handler and of its processes.

ghost use Rattle.std.specs.Prelude.{◌≡◌, ◌<◌, ℤ, List, length, map, option_map, slice_get, slice_set, Some, None, true, false};
ghost use Rattle.apex_types.specs.declared.identity.Runner.{Runner};
ghost use Rattle.apex_types.specs.declared.row.BodyRow.{BodyRow};
ghost use Rattle.machine_meaning.specs.MachineControl.{machine_engine, machine_start};
ghost use Rattle.kernel_meaning.specs.Partition.{control_at, no_control, replied, ticked};
ghost use Rattle.kernel_laws.specs.Bursts.{burst, is_nothing};
ghost use Rattle.processor.specs.Views.{asks_of};
ghost use Rattle.regions.specs.Space.{put, stacks_of, zeros};
ghost use Rattle.partition_base.specs.Bursting.{burst_at, ticked_at};
ghost use Rattle.partition_base.specs.Slots.{alone, control_of_slot, control_on, controls_from, stack_lengths};

use apex_types::BodyRow;
use processor::{Burst, Code, Context, Outcome, advance, step};
use regions::PartitionMem;

/// A runner on the processor: its context, and whether it has something left to do.
#[derive(Drop)]
pub(crate) struct Slot {
    pub(crate) context: Context,
    pub(crate) is_active: bool,
}

impl Slot {
    /// The slot of a body that is not begun.
    pub(crate) fn new(body: &BodyRow) -> Slot
        ensures { result.is_active ≡ false }
    {
        Slot {
            context: Context::new(body),
            is_active: false,
        }
    }

    /// Begins a body afresh on the own stack.
    fn begin(&mut self, memory: &mut PartitionMem, body: &BodyRow)
        requires { length memory.old.stack ≡ body.now.stack }
        ensures control { control_of_slot self.new memory.new.stack
            ≡ Some (machine_start body.now) }
        ensures memory { memory.new ≡ put memory.old (zeros body.now.stack) memory.old.words }
    {
        self.context.start(memory, body);
        self.is_active = true;
    }

    /// Stops: nothing is left to do.
    fn stop(&mut self)
        ensures { self.new.is_active ≡ false }
    {
        self.is_active = false;
    }

    /// If something is left to do, executes one tick on the own stack.
    fn tick(&mut self, memory: &mut PartitionMem, code: &Code) -> Outcome
        ensures ticked { (bodies : Runner → BodyRow)
            → record {
              control = control_of_slot self.new memory.new.stack;
              words = memory.new.words;
              asks = asks_of result;
            }
            ≡ ticked
            (machine_engine code.now.costs code.now.instructions.items
            code.now.routines.items bodies)
            (control_of_slot self.old memory.old.stack) memory.old.words }
        ensures memory { memory.new ≡ put memory.old memory.new.stack memory.new.words }
        ensures stack { length memory.new.stack ≡ length memory.old.stack }
        ensures length { length memory.new.words ≡ length memory.old.words }
    {
        if !self.is_active {
            return Outcome::Busy;
        }
        step(&mut self.context, memory, code)
    }

    /// If something is left to do, executes `k` ticks on the own stack, or those up to the first
    /// that makes a request.
    fn advance(&mut self, memory: &mut PartitionMem, code: &Code, k: u32) -> Burst
        ensures burst { (bodies : Runner → BodyRow)
            → record {
              control = control_of_slot self.new memory.new.stack;
              words = memory.new.words;
              told = asks_of result.outcome;
              ticks = result.ticks;
            }
            ≡ burst
            (ticked
            (machine_engine code.now.costs code.now.instructions.items
            code.now.routines.items bodies))
            k (control_of_slot self.old memory.old.stack) memory.old.words }
        ensures memory { memory.new ≡ put memory.old memory.new.stack memory.new.words }
        ensures stack { length memory.new.stack ≡ length memory.old.stack }
        ensures length { length memory.new.words ≡ length memory.old.words }
        ensures whole { is_nothing (asks_of result.outcome) ≡ true → result.ticks ≡ k }
    {
        if !self.is_active {
            return Burst {
                ticks: k,
                outcome: Outcome::Busy,
            };
        }
        advance(&mut self.context, memory, code, k)
    }

    /// If something is left to do, replies to a service call.
    fn reply(&mut self, memory: &mut PartitionMem, answer: &[i64])
        ensures control { (costs : _) (code : _) (routines : _) (bodies : Runner → BodyRow)
            → control_of_slot self.new memory.new.stack
            ≡ replied (machine_engine costs code routines bodies)
            (control_of_slot self.old memory.old.stack) answer.now }
        ensures memory { memory.new ≡ put memory.old memory.new.stack memory.old.words }
        ensures stack { length memory.new.stack ≡ length memory.old.stack }
    {
        if self.is_active {
            self.context.reply(memory, answer);
        }
    }
}

/// The context and the stack of the runner at `place`, if it has something left to do.
#[tactic(auto, using(crate::proofs::Places::controls))]
pub(crate) fn control_of<'a>(
    slots: &'a [Slot],
    place: usize,
    memory: &'a PartitionMem,
) -> Option<(&'a Context, &'a [i64])>
    ensures { option_map (λ c. control_on c.0.now c.1.now) result
        ≡ control_at (controls_from slots.now (stacks_of memory.now)) place }
{
    let slot = slots.get(place)?;
    let stack = memory.stack(place)?;
    if slot.is_active {
        Some((&slot.context, stack))
    } else {
        None
    }
}

/// The runner at `place` begins a body afresh; without such a runner, nothing changes.
#[tactic(auto, using(crate::proofs::Places::views))]
pub(crate) fn begin_at(
    slots: &mut Vec<Slot>,
    place: usize,
    memory: &mut PartitionMem,
    body: &BodyRow,
)
    requires { place < length (stacks_of memory.old)
        → slice_get (stack_lengths memory.old) place ≡ Some body.now.stack }
    ensures controls { controls_from slots.new.items (stacks_of memory.new)
        ≡ slice_set (controls_from slots.old.items (stacks_of memory.old)) place
        (Some (machine_start body.now)) }
    ensures words { memory.new.words ≡ memory.old.words }
    ensures stacks { stack_lengths memory.new ≡ stack_lengths memory.old }
{
    if !memory.select(place) {
        return;
    }
    if let Some(slot) = slots.get_mut(place) {
        slot.begin(memory, body);
    }
}

/// Stops the runner at `place`: it has nothing left to do.
pub(crate) fn stop_at(slots: &mut Vec<Slot>, place: usize)
    ensures { (stacks : List (List ℤ))
        → controls_from slots.new.items stacks
        ≡ slice_set (controls_from slots.old.items stacks) place None }
{
    if let Some(slot) = slots.get_mut(place) {
        slot.stop();
    }
}

/// Stops each runner: it has nothing left to do.
fn stop_each(slots: &mut Vec<Slot>)
    ensures { map alone slots.new.items ≡ map no_control (map alone slots.old.items) }
{
    for slot in slots.iter_mut() {
        slot.stop();
    }
}

/// Stops all runners: none has anything left to do.
pub(crate) fn stop_all(slots: &mut Vec<Slot>)
    ensures { (stacks : List (List ℤ))
        → controls_from slots.new.items stacks
        ≡ map no_control (controls_from slots.old.items stacks) }
{
    stop_each(slots);
}

/// Executes one tick of the runner at `place`.
#[tactic(auto, using(crate::proofs::Places::views))]
pub(crate) fn tick_at(
    slots: &mut Vec<Slot>,
    place: usize,
    memory: &mut PartitionMem,
    code: &Code,
) -> Outcome
    ensures ticked { (bodies : Runner → BodyRow)
        → record {
          control = controls_from slots.new.items (stacks_of memory.new);
          words = memory.new.words;
          asks = asks_of result;
        }
        ≡ ticked_at
        (machine_engine code.now.costs code.now.instructions.items
        code.now.routines.items bodies)
        place (controls_from slots.old.items (stacks_of memory.old)) memory.old.words }
    ensures stacks { stack_lengths memory.new ≡ stack_lengths memory.old }
    ensures length { length memory.new.words ≡ length memory.old.words }
{
    if !memory.select(place) {
        return Outcome::Busy;
    }
    match slots.get_mut(place) {
        Some(slot) => slot.tick(memory, code),
        None => Outcome::Busy,
    }
}

/// Executes `k` ticks of the runner at `place`, or those up to the first that makes a request.
#[tactic(auto, using(crate::proofs::Places::views))]
pub(crate) fn advance_at(
    slots: &mut Vec<Slot>,
    place: usize,
    memory: &mut PartitionMem,
    code: &Code,
    k: u32,
) -> Burst
    ensures burst { (bodies : Runner → BodyRow)
        → record {
          control = controls_from slots.new.items (stacks_of memory.new);
          words = memory.new.words;
          told = asks_of result.outcome;
          ticks = result.ticks;
        }
        ≡ burst_at
        (machine_engine code.now.costs code.now.instructions.items
        code.now.routines.items bodies)
        k place (controls_from slots.old.items (stacks_of memory.old)) memory.old.words }
    ensures stacks { stack_lengths memory.new ≡ stack_lengths memory.old }
    ensures length { length memory.new.words ≡ length memory.old.words }
    ensures whole { is_nothing (asks_of result.outcome) ≡ true → result.ticks ≡ k }
{
    if !memory.select(place) {
        return Burst {
            ticks: k,
            outcome: Outcome::Busy,
        };
    }
    match slots.get_mut(place) {
        Some(slot) => slot.advance(memory, code, k),
        None => Burst {
            ticks: k,
            outcome: Outcome::Busy,
        },
    }
}

/// Replies to the service call of the runner at `place`.
#[tactic(auto, using(crate::proofs::Places::views))]
pub(crate) fn reply_at(
    slots: &mut Vec<Slot>,
    place: usize,
    memory: &mut PartitionMem,
    answer: &[i64],
)
    ensures controls { (costs : _) (code : _) (routines : _) (bodies : Runner → BodyRow)
        → controls_from slots.new.items (stacks_of memory.new)
        ≡ slice_set (controls_from slots.old.items (stacks_of memory.old)) place
        (replied (machine_engine costs code routines bodies)
        (control_at (controls_from slots.old.items (stacks_of memory.old)) place) answer.now) }
    ensures words { memory.new.words ≡ memory.old.words }
    ensures stacks { stack_lengths memory.new ≡ stack_lengths memory.old }
{
    if !memory.select(place) {
        return;
    }
    if let Some(slot) = slots.get_mut(place) {
        slot.reply(memory, answer);
    }
}
