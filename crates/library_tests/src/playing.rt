//! A partition of INIT and one process that play scripts in place of code.

ghost use Rattle.std.specs.Prelude.{◌≡◌, [], ◌∷◌, length, map, IfOk};
ghost use Rattle.partition.specs.Fresh.{AreWithinLimits};
ghost use Rattle.library_tests.specs.Plays.{laid_of, layout_of};

use crate::executor::Scripted;
use crate::part::Part;
use apex_types::{
    At, BodyRow, Call, ErrorKind, Events, HealthTable, Moment, Name, PartitionAction, PartitionId,
    Priority, ProcessRow, Section, StartCondition, Ticks, TraceBuffer, WriterSink,
};
use partition::{Fixed, Partition, PartitionRows};
use processor::Outcome;
use regions::{Memory, MemoryPlan, PartitionMem};
use std::alloc::{AllocError, Global};
use window_table::{Schedule, read_table};

const TABLE: &str = "frame = 20
fault = 'RESET'
[[partition]]
name = 'flight'
period = 20
duration = 20
hm = { DEADLINE_MISSED = 'IGNORE', APPLICATION_ERROR = 'IGNORE', NUMERIC_ERROR = 'IGNORE', ILLEGAL_REQUEST = 'IGNORE', STACK_OVERFLOW = 'IGNORE', MEMORY_VIOLATION = 'IGNORE', HARDWARE_FAULT = 'IGNORE' }
[[window]]
partition = 'flight'
offset = 0
length = 20
release = true
";

const HEALTH: HealthTable = HealthTable {
    deadline_missed: PartitionAction::Ignore,
    application_error: PartitionAction::Ignore,
    numeric_error: PartitionAction::Ignore,
    illegal_request: PartitionAction::Ignore,
    stack_overflow: PartitionAction::Ignore,
    memory_violation: PartitionAction::Ignore,
    hardware_fault: PartitionAction::Ignore,
};

const BODY: BodyRow = BodyRow {
    stack: 2,
    entry: 0,
    slots: 0,
    frame: 2,
};

/// Prints the lines of a partition whose process asks for the time in its second tick and is faulty
/// in its third, and of one whose process is busy for ever; and how they spend a thousand ticks.
pub fn tell(rt: &HostRuntime) -> Option<()> {
    tell_script(rt, fault_script(rt.alloc()).ok()?, true).ok()?;
    tell_script(rt, Vec::new(rt.alloc()), false).ok()
}

/// Plays a script, which has a fault or is empty.
#[tactic(auto, using(crate::proofs::Parts::laid_first))]
fn tell_script(rt: &HostRuntime, script: Vec<Outcome>, has_fault: bool) -> Result<(), AllocError> {
    let mut memory = memory(rt.alloc())?;
    let mut partition = partition(rt.alloc(), script)?;
    let mem = memory.lend(PartitionId(1));
    begin(rt, &mut partition, mem);
    if has_fault {
        tell_fault(rt, &mut partition, mem);
    } else {
        tell_busy(rt, &mut partition, mem);
    }
    Ok(())
}

/// While the process has a fault to come, no tick is still; after it, all are.
fn tell_fault(rt: &HostRuntime, partition: &mut Partition<Scripted>, mem: &mut PartitionMem)
    requires { laid_of mem.old ≡ layout_of partition.old.executor }
{
    tick(rt, partition, mem, 4);
    tell_still(rt, partition, 5);
    tick(rt, partition, mem, 5);
    tick(rt, partition, mem, 6);
    tell_still(rt, partition, 7);
}

/// While nothing happens, the partition asks its executor for many ticks in one call.
fn tell_busy(rt: &HostRuntime, partition: &mut Partition<Scripted>, mem: &mut PartitionMem)
    requires { laid_of mem.old ≡ layout_of partition.old.executor }
{
    let before = partition.executor().calls();
    let mut events = Events::new();
    let made = partition.advance(mem, moment(4), 1000, &mut events);
    let calls = partition.executor().calls().saturating_sub(before);
    let is_silent = events.is_empty();
    let _ = println!(rt; "busy: {made} ticks, {calls} calls, without events {is_silent}");
}

/// Starts the partition: INIT ends in tick 2, and the process runs in tick 3.
fn begin(rt: &HostRuntime, partition: &mut Partition<Scripted>, mem: &mut PartitionMem)
    requires { laid_of mem.old ≡ layout_of partition.old.executor }
    ensures { laid_of mem.new ≡ layout_of partition.new.executor }
{
    let mut events = Events::new();
    partition.clear(mem, moment(0), StartCondition::NormalStart, &mut events);
    tick(rt, partition, mem, 0);
    tick(rt, partition, mem, 1);
    tick(rt, partition, mem, 2);
    tick(rt, partition, mem, 3);
}

/// Makes a tick, and prints its lines. Where memory or the output lacks, they are missed in what the
/// program prints.
fn tick(rt: &HostRuntime, partition: &mut Partition<Scripted>, mem: &mut PartitionMem, now: u8)
    requires { laid_of mem.old ≡ layout_of partition.old.executor }
    ensures { laid_of mem.new ≡ layout_of partition.new.executor }
{
    if let Ok(mut trace) = TraceBuffer::new(rt.alloc()) {
        partition.tick(mem, moment(now), &mut trace);
        let _ = trace.write_events(&mut WriterSink::new(rt.stdout()));
    }
}

/// Prints in how many of the thousand ticks from a tick on nothing happens.
fn tell_still(rt: &HostRuntime, partition: &Partition<Scripted>, now: u8) {
    let still = partition.kernel().still_ticks(moment(now), 1000);
    let _ = println!(rt; "still from tick {now} on: {still}");
}

/// This tick of a module that began at tick 0.
fn moment(now: u8) -> Moment
    ensures { result.at.now.0 ≡ now }
{
    Moment {
        at: At {
            now: Ticks(u64::from(now)),
            origin: Ticks(0),
        },
    }
}

/// The outcomes of the ticks of the process: it asks for the time in the second, and is faulty in
/// the third.
fn fault_script(alloc: Global) -> Result<Vec<Outcome>, AllocError> {
    let time = Outcome::Call(Call::GetTime);
    let fault = Outcome::Fault(ErrorKind::NumericError);
    Ok(vec![in alloc; Outcome::Local, time, fault]?)
}

/// The partition of the table, with the process `p`, which plays its script.
fn partition(alloc: Global, script: Vec<Outcome>) -> Result<Partition<Scripted>, AllocError>
    ensures { IfOk result (λ partition. layout_of partition.executor ≡ 0 ∷ []) }
{
    let fixed = Fixed {
        name: name(b"flight")?,
        number: PartitionId(1),
        period: 20,
        duration: 20,
        schedule: schedule(alloc)?,
        health: HEALTH,
    };
    let section = section(alloc, name(b"p")?)?;
    let rows = PartitionRows {
        ports: &[],
        section: &section,
    };
    Partition::new(alloc, fixed, rows, scripted(alloc, script)?)
}

fn name(text: &[u8]) -> Result<Name, AllocError> {
    Name::new(text).ok_or(AllocError)
}

/// The schedule of the table.
fn schedule(alloc: Global) -> Result<Schedule, AllocError> {
    match read_table(alloc, TABLE.as_bytes()) {
        Ok(table) => table.schedule.try_clone(alloc),
        Err(_) => Err(AllocError),
    }
}

/// INIT creates and starts the process and enters normal mode, a call a tick. The process plays its
/// script.
fn scripted(alloc: Global, process: Vec<Outcome>) -> Result<Scripted, AllocError>
    ensures { IfOk result (λ executor. layout_of executor ≡ 0 ∷ []) }
{
    let create = Outcome::Call(Call::CreateProcess { name: 1 });
    let start = Outcome::Call(Call::Start { process: 1 });
    let normal = Outcome::Call(Call::SetPartitionMode { mode: 3 });
    let init = Part::new(vec![in alloc; create, start, normal]?);
    let handler = Part::new(Vec::new(alloc));
    let parts = vec![in alloc; init, handler, Part::new(process)]?;
    Ok(Scripted::new(parts, Vec::new(alloc)))
}

/// A memory of one partition without data, and with a stack of no words.
fn memory(alloc: Global) -> Result<Memory, AllocError>
    ensures count { IfOk result (λ memory. length memory ≡ 1) }
    ensures laid { IfOk result (λ memory. map laid_of memory ≡ (0 ∷ []) ∷ []) }
{
    let plan = MemoryPlan {
        initial: Vec::new(alloc),
        stacks: vec![in alloc; 0]?,
    };
    Memory::new(alloc, &[plan])
}

/// The section of INIT and a process of the name, without code.
fn section(alloc: Global, name: Name) -> Result<Section, AllocError>
    ensures { IfOk result (λ section. AreWithinLimits [] section) }
{
    let process = ProcessRow {
        name,
        priority: Priority(5),
        period: None,
        capacity: None,
        body: BODY,
    };
    Ok(Section {
        initial: Vec::new(alloc),
        semaphores: Vec::new(alloc),
        events: 0,
        buffers: Vec::new(alloc),
        blackboards: Vec::new(alloc),
        routines: Vec::new(alloc),
        processes: vec![in alloc; process]?,
        init: BODY,
        handler: None,
        code: Vec::new(alloc),
    })
}
