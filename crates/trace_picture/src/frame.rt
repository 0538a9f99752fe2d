//! The frame around the bars: names, the time axis and the legend.

ghost use Rattle.std.specs.Prelude.{◌<◌};

use crate::axis::{Axis, LEFT};
use crate::bars::{Bar, bar_attributes, bar_of_mode, bar_of_state, draw_text};
use crate::drawing::Drawing;
use crate::element::{Key, Tag, at, line_attributes, outline_attributes, set};
use crate::length::Length;
use crate::marks::{FLAG, FLAG_DOWN, REPORT, REPORT_DOWN};
use crate::page::Page;
use crate::rows::ROW;
use crate::windows::{RELEASE, RELEASE_DOWN, bar_of_window, bar_outside, word_outside};
use apex_types::{Mode, ProcessState, Ticks};
use std::alloc::AllocError;
use trace_stays::subject_word;

/// The distance of the ground of a partition from the edges, and the length by which it extends
/// below its rows.
const MARGIN: Length = Length(40);

/// The place where names begin.
const NAMES: Length = Length(160);

/// The indent of the names of processes.
const INDENT: Length = Length(120);

/// The place of the line of a text in its row.
const LINE: Length = Length(160);

/// The place of the axis.
const AXIS: Length = Length(500);

/// The columns of the legend.
const COLUMN: Length = Length(1_700);

/// Draws the title of a picture.
pub fn draw_heading(page: &mut Page, heading: &str) -> Result<(), AllocError> {
    draw_text(page, "heading", NAMES, NAMES, heading)
}

/// Draws the names of the rows, and the ground of each partition.
pub fn draw_names(page: &mut Page, drawing: &Drawing) -> Result<(), AllocError> {
    let (axis, lanes, rows) = (drawing.axis, &drawing.lanes, &drawing.rows);
    if let Some(top) = rows.windows {
        draw_text(page, "partition", NAMES, top + LINE, "windows")?;
    }
    if let Some(top) = rows.outside {
        draw_base(page, axis, top, "outside")?;
    }
    if let Some(top) = rows.module {
        draw_base(page, axis, top, "module")?;
    }
    for (partition, lane) in lanes.partitions().iter().enumerate() {
        if let Some(top) = rows.partition(partition) {
            draw_ground(page, axis, top, rows.end_of(lanes, partition, top))?;
            draw_text(page, "partition", NAMES, top + LINE, lane.name.as_str())?;
        }
    }
    for (process, lane) in lanes.processes().iter().enumerate() {
        if let Some(top) = rows.process(process) {
            let name = subject_word(&lane.who);
            draw_text(page, "process", NAMES + INDENT, top + LINE, name)?;
        }
    }
    Ok(())
}

/// Draws a line through the row with this top, which is of what is outside or of the module itself,
/// and its name.
fn draw_base(page: &mut Page, axis: Axis, top: Length, name: &str) -> Result<(), AllocError> {
    let height = top + ROW.half();
    let line = line_attributes("base", Length(LEFT), height, axis.end(), height);
    page.empty(Tag::Line, &line)?;
    draw_text(page, "partition", NAMES, top + LINE, name)
}

/// Draws the ground of a partition.
fn draw_ground(page: &mut Page, axis: Axis, top: Length, bottom: Length) -> Result<(), AllocError> {
    page.empty(
        Tag::Rect,
        &[
            set(Key::Class, "ground"),
            at(Key::X, MARGIN),
            at(Key::Y, top),
            at(Key::Width, axis.wide() - MARGIN - MARGIN),
            at(Key::Height, bottom - top + MARGIN),
        ],
    )
}

/// Draws the axis with its numbers, and a line down at each of these.
pub fn draw_axis(page: &mut Page, axis: Axis, bottom: Length) -> Result<(), AllocError> {
    let line = line_attributes("axis", Length(LEFT), AXIS, axis.end(), AXIS);
    page.empty(Tag::Line, &line)?;
    draw_text(page, "process", NAMES, AXIS - Length(90), "tick")?;
    draw_marks(page, axis, axis.step(), bottom)
}

/// Draws a mark at each multiple of the step among the ticks of the axis, and at its end if that is
/// one.
fn draw_marks(page: &mut Page, axis: Axis, step: u64, bottom: Length) -> Result<(), AllocError>
    requires { 0 < step }
{
    let first = axis.span.from.0.div_ceil(step);
    let last = axis.span.until.0 / step;
    if last < first {
        return Ok(());
    }
    for place in first..=last {
        draw_mark(page, axis, Ticks(place * step), bottom)?;
    }
    Ok(())
}

/// Draws a number of the axis, and a line down from it.
fn draw_mark(page: &mut Page, axis: Axis, tick: Ticks, bottom: Length) -> Result<(), AllocError> {
    let x = axis.place(tick);
    let line = line_attributes("grid", x, AXIS - Length(40), x, bottom + Length(40));
    page.empty(Tag::Line, &line)?;
    let mut buffer = itoa::Buffer::new();
    draw_text(page, "tick", x, AXIS - Length(90), buffer.format(tick.0))
}

/// Draws the legend of the bars and marks, and of what the windows show, if they are known.
pub fn draw_legend(page: &mut Page, bottom: Length, has_windows: bool) -> Result<(), AllocError> {
    if has_windows {
        draw_window_samples(page, bottom + Length(680))?;
    }
    let first = bottom + Length(160);
    let second = first + Length(260);
    let states = [
        ProcessState::Running,
        ProcessState::Ready,
        ProcessState::Waiting,
        ProcessState::Dormant,
    ];
    for (column, state) in states.iter().enumerate() {
        draw_sample(page, column, first, bar_of_state(*state), state.word())?;
    }
    let modes = [Mode::Normal, Mode::ColdStart, Mode::WarmStart, Mode::Idle];
    for (column, mode) in modes.iter().enumerate() {
        draw_sample(page, column, second, bar_of_mode(*mode), mode.word())?;
    }
    draw_arrow_sample(page, first, "message", "message")?;
    draw_arrow_sample(page, second, "lost", "lost message")?;
    draw_mark_sample(page, first, FLAG_DOWN, "flag", FLAG, "error")?;
    draw_mark_sample(page, second, REPORT_DOWN, "report", REPORT, "report")
}

/// Draws the line of the legend with what windows show.
fn draw_window_samples(page: &mut Page, top: Length) -> Result<(), AllocError> {
    let chosen = bar_outside(ProcessState::Running);
    draw_sample(page, 0, top, bar_of_window(), "window")?;
    draw_sample(page, 1, top, chosen, word_outside(ProcessState::Running))?;
    let ready = bar_outside(ProcessState::Ready);
    draw_sample(page, 3, top, ready, word_outside(ProcessState::Ready))?;
    draw_mark_sample(page, top, RELEASE_DOWN, "release", RELEASE, "release point")
}

/// The place where a column of the legend begins.
fn column_left(column: usize) -> Length {
    Length(LEFT) + COLUMN.times(column as u64)
}

/// Draws a bar and its word in a column of the legend.
fn draw_sample(
    page: &mut Page,
    column: usize,
    top: Length,
    bar: Bar,
    word: &str,
) -> Result<(), AllocError> {
    let left = column_left(column);
    page.empty(Tag::Rect, &bar_attributes(bar, left, top, Length(320)))?;
    draw_text(page, "process", left + Length(400), top + LINE, word)
}

/// Draws an arrow and its word in a column of the legend.
fn draw_arrow_sample(
    page: &mut Page,
    top: Length,
    class: &str,
    word: &str,
) -> Result<(), AllocError> {
    let left = column_left(4);
    let middle = top + ROW.half();
    let line = line_attributes(class, left, middle, left + Length(300), middle);
    page.empty(Tag::Line, &line)?;
    draw_text(page, "process", left + Length(400), top + LINE, word)
}

/// Draws a flag or a mark, `down` below the top of its row, and its word in a column of the legend.
fn draw_mark_sample(
    page: &mut Page,
    top: Length,
    down: Length,
    class: &'static str,
    path: &'static str,
    word: &str,
) -> Result<(), AllocError> {
    let left = column_left(5);
    let outline = outline_attributes(class, path, left + Length(150), top + down);
    page.empty(Tag::Path, &outline)?;
    draw_text(page, "process", left + Length(400), top + LINE, word)
}
