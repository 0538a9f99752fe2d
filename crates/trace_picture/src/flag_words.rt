//! The words next to flags, where there is room.

use crate::axis::Axis;
use crate::bars::draw_text;
use crate::drawing::Drawing;
use crate::length::Length;
use crate::marks::flag_down;
use crate::page::Page;
use crate::shape::{Flag, Shape};
use std::alloc::AllocError;

/// The distance of a word from the foot of its flag, to the right and upwards.
const RIGHT_OF_FOOT: Length = Length(130);

const ABOVE: Length = Length(100);

/// The room for a character.
const CHARACTER: Length = Length(75);

/// The place where the word of a flag ends.
pub fn word_end(axis: Axis, flag: &Flag) -> Length {
    axis.place(flag.tick) + RIGHT_OF_FOOT + CHARACTER.times(flag.error.word().len() as u64)
}

/// Returns true if a shape is another flag of the row, in the place of the word.
fn is_in_way(axis: Axis, flag: &Flag, shape: &Shape) -> bool {
    match shape {
        Shape::Flag(other) => {
            flag.owner == other.owner && axis.place(other.tick).0 < word_end(axis, flag).0
        }
        _ => false,
    }
}

/// Draws the word of an error next to its flag, if there is room up to the next flag of its row and
/// the end of the axis.
fn draw_flag_word(
    page: &mut Page,
    drawing: &Drawing,
    flag: &Flag,
    later: &[Shape],
) -> Result<(), AllocError> {
    let axis = drawing.axis;
    let Some(top) = drawing.rows.owner(flag.owner) else {
        return Ok(());
    };
    if axis.end().0 < word_end(axis, flag).0
        || later.iter().any(|shape| is_in_way(axis, flag, shape))
    {
        return Ok(());
    }
    let left = axis.place(flag.tick) + RIGHT_OF_FOOT;
    let line = top + flag_down(flag.owner) - ABOVE;
    draw_text(page, "mode", left, line, flag.error.word())
}

/// Draws the words next to the flags where there is room.
pub fn draw_flag_words(page: &mut Page, drawing: &Drawing) -> Result<(), AllocError> {
    let shapes = drawing.shapes.as_slice();
    for (place, shape) in shapes.iter().enumerate() {
        if let Shape::Flag(flag) = shape {
            draw_flag_word(page, drawing, flag, &shapes[place + 1..])?;
        }
    }
    Ok(())
}
