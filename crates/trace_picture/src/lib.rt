//! A picture of a trace, as SVG: a row for each partition with its modes, below it a row for each of
//! its processes with its states, and arrows for messages, flags for errors and marks for reports.
#![tactic(auto)]

mod axis;
mod bars;
mod drawing;
mod element;
mod elements;
mod escaped;
mod excess;
mod fault;
mod flag_words;
mod frame;
mod length;
mod marks;
mod message_words;
mod page;
mod picture;
mod rows;
mod shape;
mod style;
mod titles;
mod width;
mod windows;

pub use axis::{Axis, LEFT, LONG};
pub use bars::{Bar, bar_attributes, draw_text};
pub use drawing::Drawing;
pub use element::{Attribute, Key, Tag, Value, at, moved, set, view};
pub use escaped::push_escaped;
pub use excess::Excess;
pub use fault::PictureFault;
pub use frame::{draw_axis, draw_heading};
pub use length::Length;
pub use marks::REPORT;
pub use page::Page;
pub use picture::Picture;
pub use rows::{FIRST_ROW, ROW};
pub use shape::MOST_SHAPES;
pub use style::draw_style;
pub use width::{LEAST_WIDE, MOST_WIDE, Width};
