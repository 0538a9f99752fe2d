//! Arrows, flags and marks.

use crate::drawing::Drawing;
use crate::element::{Tag, line_attributes, outline_attributes};
use crate::length::Length;
use crate::page::Page;
use crate::rows::ROW;
use crate::shape::{Flag, Message, Owner, Report};
use crate::titles::{flag_title, message_title, report_title};
use std::alloc::AllocError;

/// The distance between the ends of arrows of one tick.
const FAN: Length = Length(30);

/// The number of places of these ends.
const FAN_PLACES: u64 = 4;

/// The length of an arrow within the row where it ends, and within the row where it begins.
const INTO: Length = Length(45);

/// The distance of the foot of a flag from the top of the row of a process.
pub const FLAG_DOWN: Length = Length(200);

/// The distance of the foot of a flag from the top of the row of a partition: on the bars of its
/// modes.
const FLAG_ON_BAR: Length = Length(50);

/// The distance of the middle of a report's mark from the top of its row.
pub const REPORT_DOWN: Length = Length(110);

/// The outline of a flag, whose foot is at 0, 0.
pub const FLAG: &str = "M0 0V-19L10 -14.5L0 -10";

/// The outline of a report's mark, around 0, 0.
pub const REPORT: &str = "M0 -4.5L4.5 0L0 4.5L-4.5 0Z";

/// Draws a message as an arrow, from the row where it begins to the row where it ends.
pub fn draw_message(
    page: &mut Page,
    drawing: &Drawing,
    message: &Message,
) -> Result<(), AllocError> {
    let (Some(from), Some(to)) = drawing.rows.ends(message) else {
        return Ok(());
    };
    let title = message_title(drawing.alloc, &drawing.lanes, message)?;
    let class = if message.lost { "lost" } else { "message" };
    let place = drawing.axis.place(message.tick);
    let fan = FAN.times(message.beside % FAN_PLACES);
    let (start, end) = if to.0 < from.0 {
        (from + INTO, to + ROW - INTO - fan)
    } else {
        (from + ROW - INTO, to + INTO + fan)
    };
    let attributes = line_attributes(class, place, start, place, end);
    page.titled(Tag::Line, &attributes, title.as_str())
}

/// The distance of the foot of a flag from the top of its row.
pub fn flag_down(owner: Owner) -> Length {
    match owner {
        Owner::Process(_) => FLAG_DOWN,
        Owner::Partition(_) => FLAG_ON_BAR,
        Owner::Module => ROW.half(),
    }
}

/// Draws an error as a flag, in the row of its owner.
pub fn draw_flag(page: &mut Page, drawing: &Drawing, flag: &Flag) -> Result<(), AllocError> {
    let Some(top) = drawing.rows.owner(flag.owner) else {
        return Ok(());
    };
    let title = flag_title(drawing.alloc, flag)?;
    let left = drawing.axis.place(flag.tick);
    let attributes = outline_attributes("flag", FLAG, left, top + flag_down(flag.owner));
    page.titled(Tag::Path, &attributes, title.as_str())
}

/// Draws an application message as a mark, in the row of its process.
pub fn draw_report(page: &mut Page, drawing: &Drawing, report: &Report) -> Result<(), AllocError> {
    let Some(top) = drawing.rows.process(report.process) else {
        return Ok(());
    };
    let title = report_title(drawing.alloc, &drawing.lanes, report)?;
    let left = drawing.axis.place(report.tick);
    let attributes = outline_attributes("report", REPORT, left, top + REPORT_DOWN);
    page.titled(Tag::Path, &attributes, title.as_str())
}
