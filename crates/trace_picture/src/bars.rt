//! The bars of modes and states.

use crate::axis::Axis;
use crate::drawing::Drawing;
use crate::element::{Attribute, Key, Tag, at, set};
use crate::length::Length;
use crate::page::Page;
use crate::titles::{bar_title, partition_name, process_name};
use apex_types::{Mode, ProcessState};
use std::alloc::AllocError;
use trace_stays::{ModeStay, Span};

/// The least width of a bar.
const LEAST: Length = Length(10);

/// The place of a bar of this kind in its row, from the row's top, and its height.
#[derive(Clone, Copy)]
pub struct Bar {
    pub class: &'static str,
    pub down: Length,
    pub high: Length,
}

/// The bar of a state. The nearer a process is to run, the higher its bar.
pub fn bar_of_state(state: ProcessState) -> Bar {
    let (class, down, high) = match state {
        ProcessState::Running => ("running", Length(30), Length(160)),
        ProcessState::Ready => ("ready", Length(110), Length(80)),
        ProcessState::Waiting => ("waiting", Length(170), Length(20)),
        ProcessState::Dormant => ("dormant", Length(180), Length(10)),
    };
    Bar { class, down, high }
}

/// The bar of a mode.
pub fn bar_of_mode(mode: Mode) -> Bar {
    whole_bar(match mode {
        Mode::Idle => "idle",
        Mode::ColdStart => "cold",
        Mode::WarmStart => "warm",
        Mode::Normal => "normal",
    })
}

/// A bar that takes most of its row, as those of modes and windows do.
pub fn whole_bar(class: &'static str) -> Bar {
    Bar {
        class,
        down: Length(40),
        high: Length(140),
    }
}

/// Draws the stay of a partition in a mode, with the mode's word if it fits.
pub fn draw_mode(
    page: &mut Page,
    drawing: &Drawing,
    partition: usize,
    stay: ModeStay,
) -> Result<(), AllocError> {
    let Some(top) = drawing.rows.partition(partition) else {
        return Ok(());
    };
    let (axis, word, span) = (drawing.axis, stay.mode.word(), stay.span);
    let name = partition_name(&drawing.lanes, partition);
    let title = bar_title(drawing.alloc, name, word, span)?;
    draw_bar(
        page,
        axis,
        top,
        bar_of_mode(stay.mode),
        span,
        title.as_str(),
    )?;
    draw_word(page, axis, top, word, span)
}

/// Draws what a process is in during these ticks, as a bar whose title has this word.
pub fn draw_state(
    page: &mut Page,
    drawing: &Drawing,
    process: usize,
    span: Span,
    bar: Bar,
    word: &str,
) -> Result<(), AllocError> {
    let Some(top) = drawing.rows.process(process) else {
        return Ok(());
    };
    let name = process_name(&drawing.lanes, process);
    let title = bar_title(drawing.alloc, name, word, span)?;
    draw_bar(page, drawing.axis, top, bar, span, title.as_str())
}

/// Draws a word on its bar, if the bar is wide enough.
pub fn draw_word(
    page: &mut Page,
    axis: Axis,
    top: Length,
    word: &str,
    span: Span,
) -> Result<(), AllocError> {
    let left = axis.place(span.from);
    let wide = axis.place(span.until) - left;
    if wide.0 < Length(75).times(word.len() as u64).0 {
        return Ok(());
    }
    draw_text(page, "mode", left + Length(50), top + Length(145), word)
}

/// Draws a bar with a title.
pub fn draw_bar(
    page: &mut Page,
    axis: Axis,
    top: Length,
    bar: Bar,
    span: Span,
    title: &str,
) -> Result<(), AllocError> {
    let left = axis.place(span.from);
    let wide = (axis.place(span.until) - left).at_least(LEAST);
    page.titled(Tag::Rect, &bar_attributes(bar, left, top, wide), title)
}

/// The attributes of a bar in the row with this top.
pub fn bar_attributes(
    bar: Bar,
    left: Length,
    top: Length,
    wide: Length,
) -> [Attribute<'static>; 5] {
    [
        set(Key::Class, bar.class),
        at(Key::X, left),
        at(Key::Y, top + bar.down),
        at(Key::Width, wide),
        at(Key::Height, bar.high),
    ]
}

/// Draws a text, whose line is at this height.
pub fn draw_text(
    page: &mut Page,
    class: &str,
    left: Length,
    line: Length,
    text: &str,
) -> Result<(), AllocError> {
    page.open(
        Tag::Text,
        &[set(Key::Class, class), at(Key::X, left), at(Key::Y, line)],
    )?;
    page.text(text)?;
    page.close()?;
    Ok(())
}
