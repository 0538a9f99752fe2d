//! The tables of a load.

use crate::cells::{
    body_cells, body_text, frame_cells, gap_cells, partition_cells, release_word, window_cells,
};
use crate::load::FrameLoad;
use crate::report::{LoadReport, PartitionBodies};
use apex_types::WindowRow;
use number_tables::Table;
use std::alloc::{AllocError, Global};

/// Appends the tables, with an empty line between two of them. A table without rows is left out.
pub fn write_tables(
    alloc: Global,
    report: &LoadReport<'_>,
    text: &mut Vec<u8>,
) -> Result<(), AllocError> {
    write_frame(alloc, report.load, text)?;
    write_partitions(alloc, report, text)?;
    write_windows(alloc, report, text)?;
    write_gaps(alloc, report.load, text)?;
    write_bodies(alloc, report.bodies, text)
}

fn write_frame(alloc: Global, load: &FrameLoad, text: &mut Vec<u8>) -> Result<(), AllocError> {
    let numbers = ["ticks", "owned", "%", "unowned", "%"];
    let mut table = Table::new(alloc, &[], &numbers)?;
    table.add(&[], &frame_cells(load))?;
    table.write(
        "The frame: its ticks, those that partitions own, and those that nobody owns",
        text,
    )
}

fn write_partitions(
    alloc: Global,
    report: &LoadReport<'_>,
    text: &mut Vec<u8>,
) -> Result<(), AllocError> {
    let numbers = [
        "windows",
        "ticks",
        "%",
        "period",
        "wanted",
        "least offered",
        "most offered",
    ];
    let mut table = Table::new(alloc, &["partition"], &numbers)?;
    for (place, load) in report.load.partitions.iter().enumerate() {
        let cells = partition_cells(report, place + 1, load);
        table.add(&[load.name.as_str()], &cells)?;
    }
    table.write(
        "\nPartitions: windows, ticks of a frame and their share, and ticks of a period",
        text,
    )
}

fn write_windows<'x>(
    alloc: Global,
    report: &'x LoadReport<'x>,
    text: &mut Vec<u8>,
) -> Result<(), AllocError> {
    let names = ["partition", "release point"];
    let mut table = Table::new(alloc, &names, &["from", "until", "ticks"])?;
    for window in report.windows {
        add_window(report, window, &mut table)?;
    }
    table.write("\nWindows: the ticks of the frame that each has", text)
}

/// Adds the row of a window.
fn add_window<'x>(
    report: &'x LoadReport<'x>,
    window: &'x WindowRow,
    table: &mut Table,
) -> Result<(), AllocError> {
    let names = [report.name_of(window.partition), release_text(window)];
    table.add(&names, &window_cells(window))
}

/// Whether a window begins at a release point.
fn release_text(window: &WindowRow) -> &str {
    release_word(window.release)
}

fn write_gaps(alloc: Global, load: &FrameLoad, text: &mut Vec<u8>) -> Result<(), AllocError> {
    let mut table = Table::new(alloc, &[], &["from", "until", "ticks"])?;
    for gap in &load.gaps {
        table.add(&[], &gap_cells(gap))?;
    }
    table.write("\nGaps: ticks of the frame that nobody owns", text)
}

fn write_bodies(
    alloc: Global,
    bodies: &[PartitionBodies],
    text: &mut Vec<u8>,
) -> Result<(), AllocError> {
    let numbers = ["cost", "period", "capacity", "%"];
    let mut table = Table::new(alloc, &["partition", "body"], &numbers)?;
    for partition in bodies {
        for body in &partition.bodies {
            let names = [partition.partition.as_str(), body_text(&body.name)];
            table.add(&names, &body_cells(body))?;
        }
    }
    table.write(
        "\nBodies: ticks of their constructs, each once, and the share in the time capacity",
        text,
    )
}
