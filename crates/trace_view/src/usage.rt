//! The tables of what the processor did, by the windows of a module table.

use crate::cell::paired_cells;
use number_tables::{Table, share_cells};
use std::alloc::{AllocError, Global};
use trace_stays::subject_word;
use trace_windows::{Shares, Use};

/// Appends the tables of what the processor did in `all` ticks.
pub fn write_usage(
    alloc: Global,
    shares: &Shares,
    all: u64,
    text: &mut Vec<u8>,
) -> Result<(), AllocError> {
    write_worked(alloc, shares, all, text)?;
    write_windows(alloc, shares, all, text)?;
    write_unused(alloc, shares, all, text)
}

/// The processes of the first partition of the table, then those of the next one, and so on.
fn write_worked(
    alloc: Global,
    shares: &Shares,
    all: u64,
    text: &mut Vec<u8>,
) -> Result<(), AllocError> {
    let mut table = Table::new(alloc, &["partition", "process"], &["ticks", "%"])?;
    for (place, owner) in shares.owners().iter().enumerate() {
        for row in shares.counted().rows() {
            if let Use::Process(_, who) = &row.used {
                if row.used.place() == Some(place) {
                    let names = [owner.name.as_str(), subject_word(who)];
                    table.add(&names, &share_cells(row.ticks, all))?;
                }
            }
        }
    }
    table.write(
        "\nProcesses: ticks in which they worked, and their share of all ticks",
        text,
    )
}

fn write_windows(
    alloc: Global,
    shares: &Shares,
    all: u64,
    text: &mut Vec<u8>,
) -> Result<(), AllocError> {
    let mut table = Table::new(alloc, &["partition"], &["ticks", "%", "idle", "%"])?;
    let counted = shares.counted();
    for (place, owner) in shares.owners().iter().enumerate() {
        let cells = paired_cells(counted.window_ticks(place), counted.idle_ticks(place), all);
        table.add(&[owner.name.as_str()], &cells)?;
    }
    table.write(
        "\nPartitions: ticks of their windows, and those in which none of their processes worked",
        text,
    )
}

fn write_unused(
    alloc: Global,
    shares: &Shares,
    all: u64,
    text: &mut Vec<u8>,
) -> Result<(), AllocError> {
    let mut table = Table::new(alloc, &[], &["in no window", "%", "shut down", "%"])?;
    let unowned = shares.counted().ticks(&Use::Unowned);
    let down = shares.counted().ticks(&Use::Down);
    table.add(&[], &paired_cells(unowned, down, all))?;
    table.write(
        "\nThe module: ticks in no window, and those behind a shutdown",
        text,
    )
}
