//! The picture of the frame.

ghost use Rattle.std.specs.Prelude.{string_bytes, IfOk};
ghost use Rattle.trace_picture.specs.Page.{IsPicture};

use crate::report::LoadReport;
use apex_types::{Ticks, WindowRow};
use std::alloc::{AllocError, Global};
use trace_picture::{
    Axis, Bar, FIRST_ROW, Key, LEFT, LONG, Length, Page, REPORT, Tag, at, bar_attributes,
    draw_axis, draw_heading, draw_style, draw_text, moved, set, view,
};
use trace_stays::Span;

/// The distance between the tops of two lanes.
const LANE: Length = Length(280);

/// The place where names begin.
const NAMES: Length = Length(160);

/// The place of the line of a text in its lane.
const LINE: Length = Length(160);

/// The place of the line at the foot of the bars of a lane.
const FOOT: Length = Length(190);

/// The least width of a bar.
const LEAST: Length = Length(10);

/// The height of the legend.
const LEGEND: Length = Length(460);

/// The bar of a window.
const WINDOW: Bar = Bar {
    class: "running",
    down: Length(30),
    high: Length(160),
};

/// The end of `lanes` lanes.
fn lanes_end(lanes: usize) -> Length {
    FIRST_ROW + LANE.times(lanes as u64)
}

/// The top of the lane of the partition with this number.
fn lane_top(number: usize) -> Length {
    lanes_end(number.saturating_sub(1))
}

/// The time axis of a frame.
fn frame_axis(frame: u32) -> Axis {
    Axis {
        span: Span {
            from: Ticks(0),
            until: Ticks(u64::from(frame)),
        },
        long: LONG,
    }
}

/// The frame as a picture in SVG.
pub fn draw(alloc: Global, report: &LoadReport<'_>) -> Result<String, AllocError>
    ensures { IfOk result (λ text. ∥ IsPicture (string_bytes text) ∥₁) }
{
    let axis = frame_axis(report.load.frame);
    let bottom = lanes_end(report.load.partitions.len());
    let mut page = new_page(alloc, axis.wide(), bottom + LEGEND)?;
    draw_head(&mut page, alloc, axis.wide(), bottom + LEGEND, report)?;
    draw_lanes(&mut page, axis, report)?;
    draw_axis(&mut page, axis, bottom)?;
    draw_windows(&mut page, alloc, axis, report)?;
    draw_releases(&mut page, alloc, axis, report)?;
    draw_legend(&mut page, bottom)?;
    page.finish()
}

/// A page of this width and height.
fn new_page(alloc: Global, wide: Length, high: Length) -> Result<Page, AllocError> {
    Page::new(
        alloc,
        &[
            set(Key::Xmlns, "http://www.w3.org/2000/svg"),
            at(Key::Width, wide),
            at(Key::Height, high),
            view(wide, high),
        ],
    )
}

/// Draws the titles, the look and the ground.
fn draw_head(
    page: &mut Page,
    alloc: Global,
    wide: Length,
    high: Length,
    report: &LoadReport<'_>,
) -> Result<(), AllocError> {
    let frame = report.load.frame;
    let heading = format!(in alloc; "A frame of {frame} ticks")?;
    page.worded(Tag::Title, heading.as_str())?;
    draw_style(page)?;
    page.empty(
        Tag::Rect,
        &[
            set(Key::Class, "paper"),
            at(Key::Width, wide),
            at(Key::Height, high),
        ],
    )?;
    draw_heading(page, heading.as_str())
}

/// Draws the name and the line of the lane of each partition.
fn draw_lanes(page: &mut Page, axis: Axis, report: &LoadReport<'_>) -> Result<(), AllocError> {
    for (place, load) in report.load.partitions.iter().enumerate() {
        let top = lane_top(place + 1);
        draw_text(page, "partition", NAMES, top + LINE, load.name.as_str())?;
        page.empty(
            Tag::Line,
            &[
                set(Key::Class, "grid"),
                at(Key::X1, Length(LEFT)),
                at(Key::Y1, top + FOOT),
                at(Key::X2, axis.end()),
                at(Key::Y2, top + FOOT),
            ],
        )?;
    }
    Ok(())
}

/// Draws each window as a bar in the lane of its partition.
fn draw_windows(
    page: &mut Page,
    alloc: Global,
    axis: Axis,
    report: &LoadReport<'_>,
) -> Result<(), AllocError> {
    for window in report.windows {
        let from = u64::from(window.offset);
        let until = from + u64::from(window.length);
        let left = axis.place(Ticks(from));
        let wide = axis.place(Ticks(until)) - left;
        let top = lane_top(usize::from(window.partition.0));
        let title = window_title(alloc, report.name_of(window.partition), window)?;
        page.titled(
            Tag::Rect,
            &bar_attributes(WINDOW, left, top, wide.at_least(LEAST)),
            title.as_str(),
        )?;
    }
    Ok(())
}

/// The title of a window of the partition of this name.
fn window_title(alloc: Global, name: &str, window: &WindowRow) -> Result<String, AllocError> {
    let from = u64::from(window.offset);
    let last = (from + u64::from(window.length)).saturating_sub(1);
    let ticks = window.length;
    format!(in alloc; "{name}, ticks {from} to {last} ({ticks})")
}

/// Draws a mark at each release point, in the lane of its partition.
fn draw_releases(
    page: &mut Page,
    alloc: Global,
    axis: Axis,
    report: &LoadReport<'_>,
) -> Result<(), AllocError> {
    for window in report.windows {
        if window.release {
            draw_release(page, alloc, axis, report.name_of(window.partition), window)?;
        }
    }
    Ok(())
}

/// Draws a mark where a window of the partition of this name begins.
fn draw_release(
    page: &mut Page,
    alloc: Global,
    axis: Axis,
    name: &str,
    window: &WindowRow,
) -> Result<(), AllocError> {
    let tick = window.offset;
    let title = format!(in alloc; "release point of {name}, tick {tick}")?;
    let left = axis.place(Ticks(u64::from(tick)));
    let top = lane_top(usize::from(window.partition.0));
    page.titled(
        Tag::Path,
        &[
            set(Key::Class, "report"),
            set(Key::Path, REPORT),
            moved(left, top + WINDOW.down),
        ],
        title.as_str(),
    )
}

/// Draws the legend below the lanes, which end at this place: a bar and a mark, with their words.
fn draw_legend(page: &mut Page, bottom: Length) -> Result<(), AllocError> {
    let top = bottom + Length(160);
    let line = top + LINE;
    let bar = bar_attributes(WINDOW, Length(LEFT), top, Length(320));
    page.empty(Tag::Rect, &bar)?;
    draw_text(page, "process", Length(LEFT + 400), line, "window")?;
    let mark = moved(Length(LEFT + 1_850), top + Length(110));
    page.empty(
        Tag::Path,
        &[set(Key::Class, "report"), set(Key::Path, REPORT), mark],
    )?;
    draw_text(page, "process", Length(LEFT + 2_100), line, "release point")
}
