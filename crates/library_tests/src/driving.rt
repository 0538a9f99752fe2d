//! A program that drives a module: it builds it, reads the text of its devices, and gives each tick
//! the lines of that tick. It writes the trace that `mb run` writes.

use crate::row::Row;
use crate::sinks::Narrow;
use crate::steps::drive;
use module::build;
use std::io;

/// Drives the module, and prints whether its trace is that of the row, the tick that comes next,
/// and whether the module is shut down.
pub fn tell(rt: &HostRuntime, row: &Row) -> io::Result<()> {
    let built = build(rt.alloc(), row.table.as_slice(), &[row.source.as_slice()]);
    let Ok(image) = built else {
        return println!(rt; "nothing is built");
    };
    let mut sink = Narrow::wide(row.trace.as_slice());
    let devices = row.devices.as_slice();
    match drive(rt, image.as_slice(), devices, row.ticks, &mut sink) {
        Ok(machine) => {
            let (whole, now, is_down) = (sink.has_all(), machine.now(), machine.is_shut_down());
            println!(rt; "whole {whole}, tick {now}, shut down {is_down}")
        }
        Err(fault) => println!(rt; "{fault}"),
    }
}
