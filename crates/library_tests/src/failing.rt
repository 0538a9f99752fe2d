//! Sinks that fail, each after another number of bytes.

use crate::row::Row;
use crate::sinks::{Narrow, Way};
use image::load_image;
use module::{Machine, RunFault, build, run};
use std::alloc::{AllocError, Global};
use std::io;

static WAYS: [Way; 8] = [
    Way {
        name: "many bytes a call, then errors",
        most: usize::MAX,
        is_stalling: false,
        is_recovering: false,
    },
    Way {
        name: "many bytes a call, then one error",
        most: usize::MAX,
        is_stalling: false,
        is_recovering: true,
    },
    Way {
        name: "many bytes a call, then none",
        most: usize::MAX,
        is_stalling: true,
        is_recovering: false,
    },
    Way {
        name: "many bytes a call, then none once",
        most: usize::MAX,
        is_stalling: true,
        is_recovering: true,
    },
    Way {
        name: "one byte a call, then errors",
        most: 1,
        is_stalling: false,
        is_recovering: false,
    },
    Way {
        name: "one byte a call, then one error",
        most: 1,
        is_stalling: false,
        is_recovering: true,
    },
    Way {
        name: "one byte a call, then none",
        most: 1,
        is_stalling: true,
        is_recovering: false,
    },
    Way {
        name: "one byte a call, then none once",
        most: 1,
        is_stalling: true,
        is_recovering: true,
    },
];

/// The numbers of runs, machines and failed ticks that met the expectation.
#[derive(Clone, Copy)]
struct Counts {
    runs: usize,
    machines: usize,
    failed: usize,
}

/// Runs the module into sinks that fail, and prints for each way how many runs and machines had a
/// beginning and returned Write, and how many ticks after that were Failed and put nothing.
pub fn tell(rt: &HostRuntime, row: &Row) -> io::Result<()> {
    let built = build(rt.alloc(), row.table.as_slice(), &[row.source.as_slice()]);
    let Ok(image) = built else {
        return println!(rt; "nothing is built");
    };
    for way in &WAYS {
        tell_way(rt, row, image.as_slice(), way)?;
    }
    Ok(())
}

/// Runs the image into sinks that fail in this way, after each byte, and into a sink that takes
/// all.
fn tell_way(rt: &HostRuntime, row: &Row, image: &[u8], way: &Way) -> io::Result<()> {
    let Counts {
        runs,
        machines,
        failed,
    } = count_all(rt.alloc(), row, image, way)?;
    let whole = takes_all(rt.alloc(), row, image, way);
    let name = way.name;
    println!(rt; "{name}: {runs} runs, {machines} machines, {failed} ticks failed, whole {whole}")
}

/// Runs the image into sinks that fail in this way, after each byte.
fn count_all(alloc: Global, row: &Row, image: &[u8], way: &Way) -> Result<Counts, AllocError> {
    let mut counts = Counts {
        runs: 0,
        machines: 0,
        failed: 0,
    };
    for room in 0..row.trace.len() {
        if breaks_off(alloc, row, image, room, way) {
            counts.runs = counts.runs.saturating_add(1);
        }
        if let Some(failed) = failed_ticks(alloc, row, image, room, way)? {
            counts.machines = counts.machines.saturating_add(1);
            counts.failed = counts.failed.saturating_add(failed);
        }
    }
    Ok(counts)
}

/// Returns true if a run into a sink with this room has its first bytes, and returns Write.
fn breaks_off(alloc: Global, row: &Row, image: &[u8], room: usize, way: &Way) -> bool {
    let mut sink = Narrow::new(row.trace.as_slice(), room, way);
    let answer = run(alloc, image, row.devices.as_slice(), row.ticks, &mut sink);
    answer == Err(RunFault::Write) && sink.failures == 1 && sink.has_beginning(room)
}

/// Returns true if a run into a sink with room for the whole trace has it.
fn takes_all(alloc: Global, row: &Row, image: &[u8], way: &Way) -> bool {
    let room = row.trace.len();
    let mut sink = Narrow::new(row.trace.as_slice(), room, way);
    let answer = run(alloc, image, row.devices.as_slice(), row.ticks, &mut sink);
    answer.is_ok() && sink.failures == 0 && sink.has_all()
}

/// The number of ticks of a machine, without device lines, that return Failed after the tick that
/// returns Write; `None` if a tick returns anything else, or more is put.
fn failed_ticks(
    alloc: Global,
    row: &Row,
    image: &[u8],
    room: usize,
    way: &Way,
) -> Result<Option<usize>, AllocError> {
    let Ok(image) = load_image(alloc, image) else {
        return Ok(None);
    };
    match Machine::load(alloc, image) {
        Ok(mut machine) => Ok(failed_ticks_of(&mut machine, row, room, way)),
        Err(_) => Err(AllocError),
    }
}

/// The same of a machine that was just loaded.
fn failed_ticks_of(machine: &mut Machine, row: &Row, room: usize, way: &Way) -> Option<usize> {
    let mut sink = Narrow::new(row.trace.as_slice(), room, way);
    let mut failed = 0usize;
    for _ in 0..row.ticks {
        if sink.failures > 1 {
            return None;
        }
        let had_failed = sink.failures == 1;
        match machine.tick(&[], &mut sink) {
            Ok(()) if !had_failed => {}
            Err(RunFault::Write) if !had_failed => {}
            Err(RunFault::Failed) if had_failed => failed = failed.saturating_add(1),
            _ => return None,
        }
    }
    if sink.failures == 1 && sink.has_beginning(room) {
        Some(failed)
    } else {
        None
    }
}
