//! The names and the words next to messages, where there is room.

use crate::bars::draw_text;
use crate::drawing::Drawing;
use crate::flag_words::word_end;
use crate::length::Length;
use crate::page::Page;
use crate::rows::ROW;
use crate::shape::{Flag, Message, Shape};
use crate::titles::{end_name, numbers_text};
use std::alloc::AllocError;

/// The distance of a text from its arrow.
const RIGHT_OF_ARROW: Length = Length(60);

/// The distance of a text from the top of the row below it, and from the end of its row.
const ABOVE: Length = Length(20);

const FOOT: Length = Length(5);

/// The room for a character.
const CHARACTER: Length = Length(75);

/// The room of a text: the row with this top, from an arrow up to where the text ends; and the line
/// of the text.
#[derive(Clone, Copy)]
struct Room {
    top: Length,
    left: Length,
    right: Length,
    line: Length,
}

impl Room {
    /// The room of a text next to the end of an arrow, if the arrow is drawn.
    fn of(drawing: &Drawing, message: &Message, text: &str) -> Option<Room> {
        let (from, to) = drawing.rows.ends(message);
        let (from, top) = (from?, to?);
        let left = drawing.axis.place(message.tick);
        let line = if top.0 < from.0 {
            top + ROW - FOOT
        } else {
            top - ABOVE
        };
        Some(Room {
            top,
            left,
            right: left + RIGHT_OF_ARROW + CHARACTER.times(text.len() as u64),
            line,
        })
    }

    /// Returns true for a place in the room.
    fn has(self, place: Length) -> bool {
        self.left.0 <= place.0 && place.0 < self.right.0
    }

    /// Returns true if an arrow between two rows leads through this row, or begins or ends there.
    fn is_between(self, ends: (Option<Length>, Option<Length>)) -> bool {
        match ends {
            (Some(from), Some(to)) => {
                from.0.min(to.0) <= self.top.0 && self.top.0 <= from.0.max(to.0)
            }
            _ => false,
        }
    }

    /// Returns true if a flag with its word is in the room.
    fn has_flag(self, drawing: &Drawing, flag: &Flag) -> bool {
        match drawing.rows.owner(flag.owner) {
            Some(top) => {
                top.0 == self.top.0
                    && drawing.axis.place(flag.tick).0 < self.right.0
                    && self.left.0 < word_end(drawing.axis, flag).0
            }
            None => false,
        }
    }

    /// Returns true if a shape is in the room: an arrow, or a flag with its word.
    fn is_taken_by(self, drawing: &Drawing, shape: &Shape) -> bool {
        match shape {
            Shape::Message(message) => {
                self.is_between(drawing.rows.ends(message))
                    && self.has(drawing.axis.place(message.tick))
            }
            Shape::Flag(flag) => self.has_flag(drawing, flag),
            _ => false,
        }
    }

    /// Returns true if the room ends on the axis.
    fn is_on_axis(self, drawing: &Drawing) -> bool {
        self.right.0 <= drawing.axis.end().0
    }

    /// Returns true if the room ends on the axis, and no other shape is in it. What follows is tried
    /// first, since the next message is near where there are many.
    fn is_free(self, drawing: &Drawing, earlier: &[Shape], later: &[Shape]) -> bool {
        self.is_on_axis(drawing)
            && !(later.iter().any(|shape| self.is_taken_by(drawing, shape))
                || earlier.iter().any(|shape| self.is_taken_by(drawing, shape)))
    }

    /// Returns true if the room ends on the axis, and neither a text nor a flag is in it.
    fn covers_nothing(self, drawing: &Drawing, texts: &[Room]) -> bool {
        self.is_on_axis(drawing)
            && !(texts.iter().any(|other| self.overlaps(*other))
                || drawing.shapes.iter().any(|shape| match shape {
                    Shape::Flag(flag) => self.has_flag(drawing, flag),
                    _ => false,
                }))
    }

    /// Returns true if two rooms have a place in common.
    fn overlaps(self, other: Room) -> bool {
        self.top.0 == other.top.0 && self.left.0 < other.right.0 && other.left.0 < self.right.0
    }

    /// Draws a text in its room.
    fn draw(self, page: &mut Page, text: &str) -> Result<(), AllocError> {
        draw_text(page, "mode", self.left + RIGHT_OF_ARROW, self.line, text)
    }
}

/// Draws the name and the words of a message next to its arrow, if there is room up to the next arrow.
fn draw_words(
    page: &mut Page,
    drawing: &Drawing,
    message: &Message,
    (earlier, later): (&[Shape], &[Shape]),
    texts: &mut Vec<Room>,
) -> Result<(), AllocError> {
    let words = numbers_text(drawing.alloc, &message.words)?;
    let (name, words) = (end_name(message), words.as_str());
    let text = format!(in drawing.alloc; "{name} {words}")?;
    let Some(room) = Room::of(drawing, message, text.as_str()) else {
        return Ok(());
    };
    if room.is_free(drawing, earlier, later) {
        texts.push(room)?;
        room.draw(page, text.as_str())?;
    }
    Ok(())
}

/// Draws the name of a message next to its arrow, if it covers no text. So it is not drawn where the
/// message has its words.
fn draw_name(
    page: &mut Page,
    drawing: &Drawing,
    message: &Message,
    texts: &mut Vec<Room>,
) -> Result<(), AllocError> {
    let name = end_name(message);
    let Some(room) = Room::of(drawing, message, name) else {
        return Ok(());
    };
    if room.covers_nothing(drawing, texts.as_slice()) {
        texts.push(room)?;
        room.draw(page, name)?;
    }
    Ok(())
}

/// Draws the texts next to the messages: with their words where there is room, and then the names of
/// others that still cover nothing.
pub fn draw_message_words(page: &mut Page, drawing: &Drawing) -> Result<(), AllocError> {
    let mut texts = Vec::new(drawing.alloc);
    let shapes = drawing.shapes.as_slice();
    for (place, shape) in shapes.iter().enumerate() {
        if let Shape::Message(message) = shape {
            let others = (&shapes[..place], &shapes[place + 1..]);
            draw_words(page, drawing, message, others, &mut texts)?;
        }
    }
    for shape in shapes {
        if let Shape::Message(message) = shape {
            draw_name(page, drawing, message, &mut texts)?;
        }
    }
    Ok(())
}
