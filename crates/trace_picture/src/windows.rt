//! The lane of windows, and the stays that are cut at their ends.

use crate::axis::Axis;
use crate::bars::{Bar, bar_of_state, draw_bar, draw_state, draw_text, whole_bar};
use crate::drawing::Drawing;
use crate::element::{Tag, outline_attributes};
use crate::length::Length;
use crate::page::Page;
use crate::titles::bar_title;
use apex_types::{PartitionId, ProcessState, Ticks};
use std::alloc::AllocError;
use trace_stays::{Lanes, Stay};
use trace_windows::{Stretch, Windows};

/// The outline of the mark of a release point, whose tip is at 0, 3.
pub const RELEASE: &str = "M-4 -4H4L0 3Z";

/// The distance of this mark from the top of the lane of windows.
pub const RELEASE_DOWN: Length = Length(40);

/// The room for a character of a name.
const CHARACTER: Length = Length(75);

/// The distance of a name from where its window begins.
const NAME_RIGHT: Length = Length(50);

/// The distance of the line of names from the top of the lane.
const NAME_DOWN: Length = Length(145);

/// The bar of a window.
pub fn bar_of_window() -> Bar {
    whole_bar("window")
}

/// The name of a partition of the module table; empty if there is none of this number.
fn owner_name(windows: &Windows, owner: PartitionId) -> &str {
    let Some(place) = owner.place() else {
        return "";
    };
    match windows.names().get(usize::from(place)) {
        Some(name) => name.as_str(),
        None => "",
    }
}

/// Draws the mark of a release point in the row with this top.
fn draw_release(
    page: &mut Page,
    drawing: &Drawing,
    top: Length,
    name: &str,
    tick: Ticks,
) -> Result<(), AllocError> {
    let left = drawing.axis.place(tick);
    let tick = tick.0;
    let title = format!(in drawing.alloc; "{name} release point, tick {tick}")?;
    let attributes = outline_attributes("release", RELEASE, left, top + RELEASE_DOWN);
    page.titled(Tag::Path, &attributes, title.as_str())
}

/// The name of the partition of a window: the places where the window begins and ends, and where the
/// name ends.
#[derive(Clone, Copy)]
struct Label<'a> {
    name: &'a str,
    left: Length,
    right: Length,
    end: Length,
}

impl<'a> Label<'a> {
    /// The label of a stretch as far as it is shown; none for ticks in no window.
    fn of(axis: Axis, windows: &'a Windows, stretch: &Stretch) -> Option<Label<'a>> {
        let name = owner_name(windows, stretch.owner?);
        let span = stretch.span.within(axis.span);
        if span.ticks() == 0 {
            return None;
        }
        let left = axis.place(span.from);
        Some(Label {
            name,
            left,
            right: axis.place(span.until),
            end: left + CHARACTER.times(name.len() as u64),
        })
    }

    /// Returns true if the name fits into the window.
    fn fits(self) -> bool {
        self.end.0 <= self.right.0
    }

    /// Returns true if the name may stand at a window that it does not fit into: from a free place on,
    /// and up to the end of the axis. At windows more narrow than a character names would tell nothing.
    fn may_extend(self, axis: Axis, free: Length) -> bool {
        (self.right - self.left).0 >= CHARACTER.0
            && free.0 <= self.left.0
            && self.end.0 <= axis.end().0
    }

    /// Returns true if the name would cover that of a later window, which fits into it.
    fn covers(self, axis: Axis, windows: &Windows, later: &[Stretch]) -> bool {
        for stretch in later {
            if self.end.0 <= axis.place(stretch.span.from).0 {
                return false;
            }
            if let Some(label) = Label::of(axis, windows, stretch) {
                if label.fits() {
                    return true;
                }
            }
        }
        false
    }
}

/// Draws the names of the partitions of the windows: each that fits into its window, and others where
/// they cover no name.
fn draw_window_names(
    page: &mut Page,
    drawing: &Drawing,
    windows: &Windows,
    top: Length,
) -> Result<(), AllocError> {
    let mut free = Length(0);
    let (axis, stretches) = (drawing.axis, windows.stretches());
    for (place, stretch) in stretches.iter().enumerate() {
        if let Some(label) = Label::of(axis, windows, stretch) {
            let later = &stretches[place + 1..];
            if label.fits()
                || (label.may_extend(axis, free) && !label.covers(axis, windows, later))
            {
                let (left, line) = (label.left + NAME_RIGHT, top + NAME_DOWN);
                draw_text(page, "mode", left, line, label.name)?;
                free = label.end;
            }
        }
    }
    Ok(())
}

/// Draws the window of a stretch as far as it is shown, and its release point; nothing for ticks in no
/// window.
fn draw_window(
    page: &mut Page,
    drawing: &Drawing,
    windows: &Windows,
    stretch: &Stretch,
) -> Result<(), AllocError> {
    let (Some(owner), Some(top)) = (stretch.owner, drawing.rows.windows) else {
        return Ok(());
    };
    let axis = drawing.axis;
    let span = stretch.span.within(axis.span);
    if span.ticks() == 0 {
        return Ok(());
    }
    let name = owner_name(windows, owner);
    let title = bar_title(drawing.alloc, name, "window", span)?;
    draw_bar(page, axis, top, bar_of_window(), span, title.as_str())?;
    if stretch.is_release {
        draw_release(page, drawing, top, name, span.from)?;
    }
    Ok(())
}

/// Draws the lane of windows, if they are known. Names are drawn last, so that no bar covers one.
pub fn draw_windows(page: &mut Page, drawing: &Drawing) -> Result<(), AllocError> {
    let (Some(windows), Some(top)) = (&drawing.windows, drawing.rows.windows) else {
        return Ok(());
    };
    for window in windows.stretches() {
        draw_window(page, drawing, windows, window)?;
    }
    draw_window_names(page, drawing, windows, top)
}

/// The bar of a process that is in a state outside the windows of its partition.
pub fn bar_outside(state: ProcessState) -> Bar {
    let class = match state {
        ProcessState::Running => "chosen",
        ProcessState::Ready => "ready-outside",
        ProcessState::Waiting => "waiting",
        ProcessState::Dormant => "dormant",
    };
    let Bar { down, high, .. } = bar_of_state(state);
    Bar { class, down, high }
}

/// What such a process is in.
pub fn word_outside(state: ProcessState) -> &'static str {
    match state {
        ProcessState::Running => "chosen, not in its window",
        ProcessState::Ready => "READY, not in its window",
        ProcessState::Waiting => "WAITING",
        ProcessState::Dormant => "DORMANT",
    }
}

/// Returns true for the states whose bars are cut at the ends of windows.
pub fn is_cut(state: ProcessState) -> bool {
    match state {
        ProcessState::Running | ProcessState::Ready => true,
        ProcessState::Waiting | ProcessState::Dormant => false,
    }
}

/// The place of the partition of a process in the module table.
fn own_place(windows: &Windows, lanes: &Lanes, process: usize) -> Option<usize> {
    let lane = lanes.processes().get(process)?;
    let partition = lanes.partitions().get(lane.partition)?;
    windows.place_of(&partition.name)
}

/// Draws the stay of a process in a state; with the windows, cut at their ends.
pub fn draw_stay(
    page: &mut Page,
    drawing: &Drawing,
    process: usize,
    stay: Stay,
) -> Result<(), AllocError> {
    let Stay { state, span, .. } = stay;
    match &drawing.windows {
        Some(windows) if is_cut(state) => draw_pieces(page, drawing, windows, process, stay),
        _ => draw_state(
            page,
            drawing,
            process,
            span,
            bar_of_state(state),
            state.word(),
        ),
    }
}

/// Draws the pieces of a stay, one in each stretch with which it has ticks in common.
fn draw_pieces(
    page: &mut Page,
    drawing: &Drawing,
    windows: &Windows,
    process: usize,
    stay: Stay,
) -> Result<(), AllocError> {
    let state = stay.state;
    let own = own_place(windows, &drawing.lanes, process);
    for stretch in windows.stretches() {
        let span = stay.span.within(stretch.span);
        let (bar, word) = match own {
            Some(place) if stretch.is_of(place) => (bar_of_state(state), state.word()),
            _ => (bar_outside(state), word_outside(state)),
        };
        if span.ticks() > 0 {
            draw_state(page, drawing, process, span, bar, word)?;
        }
    }
    Ok(())
}
