//! The numbers of a load as cells of tables.

use crate::bodies::BodyLoad;
use crate::load::{FrameLoad, PartitionLoad};
use crate::report::LoadReport;
use crate::share::Share;
use crate::unowned::Gap;
use apex_types::WindowRow;
use number_tables::{Cell, number_cell};
use pal::BodyName;

fn number(number: u32) -> Cell {
    Cell::Number(u64::from(number))
}

fn share_cell(share: Share) -> Cell {
    Cell::Share(number_tables::Share {
        tenths: share.tenths,
    })
}

/// The share of a part in a whole.
fn part_cell(part: u32, whole: u32) -> Cell {
    share_cell(Share::of(u64::from(part), u64::from(whole)))
}

/// The ticks of the frame; the owned ticks, and their share; the unowned ticks, and their share.
pub fn frame_cells(load: &FrameLoad) -> [Cell; 5] {
    let owned = load.frame.saturating_sub(load.unowned);
    [
        number(load.frame),
        number(owned),
        part_cell(owned, load.frame),
        number(load.unowned),
        part_cell(load.unowned, load.frame),
    ]
}

/// How many windows; the ticks of a frame, and their share; the period; the ticks of a period: wanted,
/// and offered at least and at most.
pub fn partition_cells(
    report: &LoadReport<'_>,
    number_of: usize,
    load: &PartitionLoad,
) -> [Cell; 7] {
    [
        Cell::Number(report.windows_of(number_of)),
        number(load.ticks),
        part_cell(load.ticks, report.load.frame),
        number(load.period),
        number(load.wanted),
        number(load.least),
        number(load.most),
    ]
}

/// The first tick, the tick after the end, and the number of ticks.
fn stretch_cells(from: u32, ticks: u32) -> [Cell; 3] {
    [
        number(from),
        Cell::Number(u64::from(from) + u64::from(ticks)),
        number(ticks),
    ]
}

/// The ticks of a window.
pub fn window_cells(window: &WindowRow) -> [Cell; 3] {
    stretch_cells(window.offset, window.length)
}

/// The ticks of a gap.
pub fn gap_cells(gap: &Gap) -> [Cell; 3] {
    stretch_cells(gap.from, gap.ticks)
}

/// The cost, the period, the time capacity, and the share of the cost in it.
pub fn body_cells(body: &BodyLoad) -> [Cell; 4] {
    [
        Cell::Number(body.cost),
        number_cell(body.period),
        number_cell(body.capacity),
        body.share.map_or(Cell::Absent, share_cell),
    ]
}

/// INIT, HANDLER, or the name of the process or the procedure.
pub fn body_text(body: &BodyName) -> &str {
    match body {
        BodyName::Init => "INIT",
        BodyName::Handler => "HANDLER",
        BodyName::Process(name) | BodyName::Procedure(name) => name.as_str(),
    }
}

/// Whether a window begins at a release point.
pub fn release_word(release: bool) -> &'static str {
    if release { "yes" } else { "no" }
}
