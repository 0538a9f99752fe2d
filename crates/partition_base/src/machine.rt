//! The processor of one partition.

ghost use Rattle.std.specs.Prelude.{◌≡◌, ◌≤◌, ◌<◌, ◌+◌, ◌^◌, ◌∷◌, false, length, map, option_map, replicate, slice_get, Some, IfOk};
ghost use Rattle.apex_types.specs.Limits.{MOST_WORDS};
ghost use Rattle.apex_types.specs.Runners.{place_of};
ghost use Rattle.kernel_meaning.specs.Partition.{control_at, message_from};
ghost use Rattle.engine_meaning.specs.Engine.{or_init};
ghost use Rattle.engine_meaning.specs.Operators.{put_words};
ghost use Rattle.machine_meaning.specs.MachineMeaning.{body_of_row};
ghost use Rattle.regions.specs.Space.{planned, put};
ghost use Rattle.partition_base.specs.Sections.{IsFittingSection, fresh_memory};
ghost use Rattle.partition_base.specs.Slots.{control_on, is_begun, stack_of_body};

use crate::executor::Executor;
use crate::slot::{self, Slot};
use apex_types::{BodyRow, Costs, ProcessRow, Runner, Section};
use processor::{Burst, Code, CodeRows, Context, Outcome};
use regions::{MemoryPlan, PartitionMem, Region};
use std::alloc::{AllocError, Global};

/// The processor of one partition: its code and its bodies, a slot for INIT, one for the error
/// handler and one for each process, and the initial data. Without a handler its slot has INIT's
/// body.
#[derive(Drop)]
pub struct PartitionProcessor {
    code: Code,
    init: BodyRow,
    handler: Option<BodyRow>,
    processes: Vec<BodyRow>,
    slots: Vec<Slot>,
    initial: Vec<i64>,
}

/// The bodies of processes, in order.
fn bodies(alloc: Global, rows: &[ProcessRow]) -> Result<Vec<BodyRow>, AllocError>
    ensures { IfOk result (λ bodies. bodies.items ≡ map body_of_row rows.now) }
{
    let mut bodies = Vec::with_capacity(alloc, rows.len())?;
    for row in rows {
        bodies.push(row.body)?;
    }
    Ok(bodies)
}

/// A slot for INIT, one for the handler and one for each process, none of them begun.
fn fresh_slots(
    alloc: Global,
    init: &BodyRow,
    handler: &BodyRow,
    processes: &[BodyRow],
) -> Result<Vec<Slot>, AllocError>
    ensures { IfOk result
        (λ slots. map is_begun slots.items ≡ replicate (2 + length processes.now) false) }
{
    let mut slots = Vec::with_capacity(alloc, processes.len() + 2)?;
    slots.push(Slot::new(init))?;
    slots.push(Slot::new(handler))?;
    for body in processes {
        slots.push(Slot::new(body))?;
    }
    Ok(slots)
}

/// The words of the stack of each body, in order.
fn stack_sizes(
    alloc: Global,
    init: &BodyRow,
    handler: &BodyRow,
    processes: &[ProcessRow],
) -> Result<Vec<u16>, AllocError>
    ensures { IfOk result
        (λ sizes.
        sizes.items ≡ map stack_of_body (init.now ∷ handler.now ∷ map body_of_row processes.now)) }
{
    let mut sizes = Vec::with_capacity(alloc, processes.len() + 2)?;
    sizes.push(init.stack)?;
    sizes.push(handler.stack)?;
    for process in processes {
        sizes.push(process.body.stack)?;
    }
    Ok(sizes)
}

/// The memory that a section's partition needs. `AllocError`: out of memory.
pub fn memory_plan(alloc: Global, section: &Section) -> Result<MemoryPlan, AllocError>
    ensures { IfOk result (λ plan. planned plan ≡ fresh_memory section.now) }
{
    let handler = section.handler.unwrap_or(section.init);
    Ok(MemoryPlan {
        initial: Vec::from_slice(alloc, &section.initial)?,
        stacks: stack_sizes(alloc, &section.init, &handler, &section.processes)?,
    })
}

/// At most `count` words, from `place` on.
pub fn message(words: &[i64], place: i64, count: u8) -> &[i64]
    ensures { result.now ≡ message_from place count words.now }
{
    if place < 0 {
        return &[];
    }
    match words.get(place.unsigned_abs() as usize..) {
        Some(rest) => {
            let count = rest.len().min(usize::from(count));
            &rest[..count]
        }
        None => &[],
    }
}

/// Writes words into the data, one after another from `place` on, as far as the data reach.
pub fn put(memory: &mut PartitionMem, place: usize, array: &[i64])
    requires { place < 2 ^ 63 }
    ensures { memory.new
        ≡ put memory.old memory.old.stack (put_words memory.old.words place array.now) }
{
    let mut next = place;
    for word in array {
        let _ = memory.store(Region::Data, next, *word);
        next += 1;
    }
}

/// A section that the processor can run: it has no more instructions than there may be, and each routine has
/// room for its slots and two saved words.
#[derive(Clone, Copy)]
pub struct FittingSection<'a> {
    pub section: &'a Section,
    pub ghost fitting: { IsFittingSection section.now },
}

impl PartitionProcessor {
    ghost use Rattle.std.specs.Prelude.{None};
    ghost use Rattle.engine_meaning.specs.Engine.{body_at};
    ghost use Rattle.partition_base.specs.Machines.{engine_of, controls_of, initial_of, bodies_in, layout_of, laid_of};
    ghost use Rattle.partition_base.specs.Sections.{engine_of_section, fresh_memory};

    /// The processor of a partition's section, whose instructions have these costs, before its start.
    /// `AllocError`: out of memory.
    pub fn new(
        alloc: Global,
        costs: &Costs,
        fitting: FittingSection<'_>,
    ) -> Result<PartitionProcessor, AllocError>
        ensures engine { IfOk result
            (λ machine. engine_of machine
            ≡ engine_of_section costs.now fitting.entry.section.now) }
        ensures controls { IfOk result
            (λ machine. controls_of machine (fresh_memory fitting.entry.section.now)
            ≡ replicate (2 + length fitting.entry.section.now.processes.items) None) }
        ensures fits { IfOk result
            (λ machine. laid_of (fresh_memory fitting.entry.section.now) ≡ layout_of machine) }
        ensures initial { IfOk result
            (λ machine. initial_of machine ≡ fitting.entry.section.now.initial.items) }
    {
        let section = fitting.section;
        let rows = CodeRows {
            bytes: &section.code,
            routines: &section.routines,
        };
        let processes = bodies(alloc, &section.processes)?;
        let handler = section.handler.unwrap_or(section.init);
        Ok(PartitionProcessor {
            code: Code::read(alloc, costs, rows)?,
            init: section.init,
            handler: section.handler,
            slots: fresh_slots(alloc, &section.init, &handler, &processes)?,
            processes,
            initial: Vec::from_slice(alloc, &section.initial)?,
        })
    }

    /// The context and the stack of the runner at `place`, if it has something left to do.
    pub fn control<'a>(
        &'a self,
        memory: &'a PartitionMem,
        place: usize,
    ) -> Option<(&'a Context, &'a [i64])>
        ensures { option_map (λ c. control_on c.0.now c.1.now) result
            ≡ control_at (controls_of self.now memory.now) place }
    {
        slot::control_of(&self.slots, place, memory)
    }

    /// The body of INIT, of the handler or of a process; INIT's body if there is no such body.
    fn body(&self, runner: Runner) -> BodyRow
        ensures body { result
            ≡ body_at self.now.init self.now.handler self.now.processes.items runner }
        ensures stack { place_of runner < length (bodies_in self.now)
            → slice_get (map stack_of_body (bodies_in self.now)) (place_of runner)
            ≡ Some result.stack }
    {
        match runner {
            Runner::Init => self.init,
            Runner::Handler => self.handler.unwrap_or(self.init),
            Runner::Process(process) => match self.processes.get(usize::from(process.0)) {
                Some(body) => *body,
                None => self.init,
            },
        }
    }
}

impl Executor for PartitionProcessor {
    ghost use Rattle.machine_meaning.specs.MachineControl.{MachineControl};
    ghost use Rattle.partition_base.specs.Machines.{engine_of, controls_of, initial_of, layout_of, laid_of};

    type Mem = PartitionMem;

    ghost Control = { MachineControl };

    ghost engine = { engine_of };

    ghost controls = { controls_of };

    ghost words = { λ s. s.words };

    ghost initial = { initial_of };

    ghost layout = { layout_of };

    ghost laid = { laid_of };

    #[tactic(auto, using(crate::proofs::Layouts::layouts))]
    fn start(&mut self, mem: &mut PartitionMem, runner: Runner) {
        let body = self.body(runner);
        slot::begin_at(&mut self.slots, runner.place(), mem, &body);
    }

    fn stop(&mut self, _mem: &PartitionMem, runner: Runner) {
        slot::stop_at(&mut self.slots, runner.place());
    }

    fn stop_all(&mut self, _mem: &PartitionMem) {
        slot::stop_all(&mut self.slots);
    }

    fn tick(&mut self, mem: &mut PartitionMem, runner: Runner) -> Outcome {
        slot::tick_at(&mut self.slots, runner.place(), mem, &self.code)
    }

    fn advance(&mut self, mem: &mut PartitionMem, runner: Runner, k: u32) -> Burst {
        slot::advance_at(&mut self.slots, runner.place(), mem, &self.code, k)
    }

    fn reply(&mut self, mem: &mut PartitionMem, runner: Runner, answer: &[i64]) {
        slot::reply_at(&mut self.slots, runner.place(), mem, answer);
    }

    fn read<'a>(&self, mem: &'a PartitionMem, place: i64, count: u8) -> &'a [i64] {
        message(mem.data(), place, count)
    }

    fn write(&self, mem: &mut PartitionMem, place: i64, array: &[i64]) {
        if place >= 0 {
            put(mem, place.unsigned_abs() as usize, array);
        }
    }

    #[tactic(auto, using(crate::proofs::Layouts::layouts))]
    fn restore(&self, mem: &mut PartitionMem) {
        mem.restore(&self.initial);
    }
}
