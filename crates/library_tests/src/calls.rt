//! The calls that take memory, each with a line when it begins and a line with its result. A
//! refused call is made again, so that a single refusal is followed by the right result.

use crate::row::Row;
use crate::sinks::Narrow;
use crate::steps::{begin, drive, end};
use module::{RunFault, build, replay, run, upgrade};
use pal::{Checked, check};
use pal_base::parse::parse;
use pal_base::syntax::Program;
use std::io;
use window_table::{ModuleTable, PartitionRow, read_table};

/// Makes the calls on a module, one after another.
pub fn tell(rt: &HostRuntime, row: &Row) -> io::Result<()> {
    if !tell_table(rt, row) {
        return println!(rt; "the table is refused");
    }
    match built(rt, row) {
        Some(image) => tell_image(rt, row, image.as_slice()),
        None => println!(rt; "nothing is built"),
    }
}

/// Upgrades the image, and makes the calls on it.
fn tell_image(rt: &HostRuntime, row: &Row, image: &[u8]) -> io::Result<()> {
    match upgraded(rt, image) {
        Some(image) => tell_runs(rt, row, image.as_slice()),
        None => println!(rt; "nothing is upgraded"),
    }
}

/// Makes the calls that run the image.
fn tell_runs(rt: &HostRuntime, row: &Row, image: &[u8]) -> io::Result<()> {
    for call in ["Machine::tick", "run", "replay"] {
        if !writes(rt, row, image, call) && !writes(rt, row, image, call) {
            return println!(rt; "{call} is refused");
        }
    }
    Ok(())
}

/// Returns true if the table is read, and the source is accepted by the row of its one partition.
fn tell_table(rt: &HostRuntime, row: &Row) -> bool {
    let Some(table) = table(rt, row) else {
        return false;
    };
    match table.partitions.first() {
        Some(partition) => {
            checked(rt, row, partition).is_some() || checked(rt, row, partition).is_some()
        }
        None => false,
    }
}

/// The table.
fn table(rt: &HostRuntime, row: &Row) -> Option<ModuleTable> {
    for _ in 0..2 {
        begin(rt, "read_table");
        match read_table(rt.alloc(), row.table.as_slice()) {
            Ok(table) => {
                end(rt, "a table");
                return Some(table);
            }
            Err(fault) => end(rt, fault.number()),
        }
    }
    None
}

/// The program of the source, if it is accepted.
fn checked(rt: &HostRuntime, row: &Row, partition: &PartitionRow) -> Option<Checked> {
    let program = parsed(rt, row)?;
    begin(rt, "check");
    match check(rt.alloc(), program, partition) {
        Ok(checked) => {
            end(rt, "accepted");
            Some(checked)
        }
        Err(fault) => {
            end(rt, fault.number());
            None
        }
    }
}

/// The program of the source.
fn parsed(rt: &HostRuntime, row: &Row) -> Option<Program> {
    for _ in 0..2 {
        begin(rt, "parse");
        match parse(rt.alloc(), row.source.as_slice()) {
            Ok(program) => {
                end(rt, "a program");
                return Some(program);
            }
            Err(fault) => end(rt, fault.number()),
        }
    }
    None
}

/// The image.
fn built(rt: &HostRuntime, row: &Row) -> Option<Vec<u8>> {
    for _ in 0..2 {
        begin(rt, "build");
        match build(rt.alloc(), row.table.as_slice(), &[row.source.as_slice()]) {
            Ok(image) => {
                end(rt, "an image");
                return Some(image);
            }
            Err(fault) => end(rt, fault),
        }
    }
    None
}

/// The image, which is of the newest version, upgraded.
fn upgraded(rt: &HostRuntime, image: &[u8]) -> Option<Vec<u8>> {
    for _ in 0..2 {
        begin(rt, "upgrade");
        match upgrade(rt.alloc(), image) {
            Ok(upgraded) if upgraded.as_slice() != image => {
                end(rt, "another image");
                return None;
            }
            Ok(upgraded) => {
                end(rt, "the same image");
                return Some(upgraded);
            }
            Err(fault) => end(rt, fault.number()),
        }
    }
    None
}

/// Runs the image, tick by tick or by one call, or replays its partition, and prints the result.
/// Returns true if the call was not refused.
fn writes(rt: &HostRuntime, row: &Row, image: &[u8], call: &str) -> bool {
    let mut sink = Narrow::wide(row.trace.as_slice());
    let (devices, inputs) = (row.devices.as_slice(), row.inputs.as_slice());
    let ticks = row.ticks;
    let answer = match call {
        "run" => {
            begin(rt, call);
            run(rt.alloc(), image, devices, ticks, &mut sink)
        }
        "replay" => {
            begin(rt, call);
            replay(rt.alloc(), image, "a", inputs, ticks, &mut sink)
        }
        _ => match drive(rt, image, devices, ticks, &mut sink) {
            Ok(_) => Ok(()),
            Err(fault) => Err(fault),
        },
    };
    tell_answer(rt, &answer, &sink);
    answer.is_ok()
}

/// Prints whether the sink has taken the trace or, for a fault, the fault and the number of bytes
/// that the sink has taken.
fn tell_answer(rt: &HostRuntime, answer: &Result<(), RunFault>, sink: &Narrow<'_>) {
    match answer {
        Ok(()) if sink.has_all() => end(rt, "the trace"),
        Ok(()) => end(rt, "another trace"),
        Err(fault) => {
            let _ = println!(rt; "end {fault}, {} bytes", sink.taken);
        }
    }
}
