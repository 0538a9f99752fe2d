//! A load as comma-separated values.

use crate::cells::{
    body_cells, body_text, frame_cells, gap_cells, partition_cells, release_word, window_cells,
};
use crate::report::LoadReport;
use number_tables::{Cell, Sheet};
use std::alloc::AllocError;

/// The columns. Each row has the first three, and those of its group.
pub const HEADINGS: [&str; 23] = [
    "kind",
    "partition",
    "name",
    "frame",
    "owned",
    "owned_percent",
    "unowned",
    "unowned_percent",
    "windows",
    "ticks",
    "percent",
    "period",
    "wanted",
    "least_offered",
    "most_offered",
    "from",
    "until",
    "length",
    "release",
    "cost",
    "body_period",
    "capacity",
    "capacity_percent",
];

/// Adds a row of the frame, and a row of each partition, window, gap and body.
pub fn fill(report: &LoadReport<'_>, sheet: &mut Sheet) -> Result<(), AllocError> {
    sheet.add(&["frame", "", ""], 3, &[&frame_cells(report.load)])?;
    for (place, load) in report.load.partitions.iter().enumerate() {
        let names = ["partition", load.name.as_str(), ""];
        sheet.add(&names, 8, &[&partition_cells(report, place + 1, load)])?;
    }
    add_windows(report, sheet)?;
    for gap in &report.load.gaps {
        sheet.add(&["gap", "", ""], 15, &[&gap_cells(gap)])?;
    }
    add_bodies(report, sheet)
}

fn add_windows(report: &LoadReport<'_>, sheet: &mut Sheet) -> Result<(), AllocError> {
    for window in report.windows {
        let names = ["window", report.name_of(window.partition), ""];
        let release = [Cell::Word(release_word(window.release))];
        sheet.add(&names, 15, &[&window_cells(window), &release])?;
    }
    Ok(())
}

fn add_bodies(report: &LoadReport<'_>, sheet: &mut Sheet) -> Result<(), AllocError> {
    for partition in report.bodies {
        for body in &partition.bodies {
            let names = ["body", partition.partition.as_str(), body_text(&body.name)];
            sheet.add(&names, 19, &[&body_cells(body)])?;
        }
    }
    Ok(())
}
