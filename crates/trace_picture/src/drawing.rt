//! A picture as it is drawn.

ghost use Rattle.std.specs.Prelude.{◌≤◌, ℕ, List, string_bytes, IfOk, OnOk};
ghost use Rattle.std.specs.Io.KnownBytes.{Appends};
ghost use Rattle.trace_picture.specs.Page.{IsPicture};

use crate::axis::Axis;
use crate::bars::draw_mode;
use crate::element::{Key, Tag, at, set, view};
use crate::flag_words::draw_flag_words;
use crate::frame::{draw_axis, draw_heading, draw_legend, draw_names};
use crate::length::Length;
use crate::marks::{draw_flag, draw_message, draw_report};
use crate::message_words::draw_message_words;
use crate::page::Page;
use crate::rows::Rows;
use crate::shape::Shape;
use crate::style::draw_style;
use crate::titles::heading;
use crate::windows::{draw_stay, draw_windows};
use std::alloc::{AllocError, Global};
use std::io;
use std::io::Write;
use trace_stays::Lanes;
use trace_windows::Windows;

/// The height of the legend.
const LEGEND: Length = Length(720);

/// The height of its line with what windows show.
const LEGEND_LINE: Length = Length(260);

/// A picture that is ready to be drawn.
#[derive(Drop)]
pub struct Drawing {
    pub(crate) alloc: Global,
    pub(crate) axis: Axis,
    pub(crate) rows: Rows,
    pub(crate) lanes: Lanes,
    pub(crate) shapes: Vec<Shape>,
    /// The windows, if they are known.
    pub(crate) windows: Option<Windows>,
    /// The number of elements.
    pub(crate) elements: usize,
    ghost few: { elements ≤ 5000 },
    ghost in_order: { axis.span.from.0 ≤ axis.span.until.0 },
}

impl Drawing {
    /// The number of windows, bars, arrows, flags and marks of the picture. A stay that is cut at the
    /// ends of windows has a bar for each piece.
    pub fn elements(&self) -> usize
        ensures { result ≤ 5000 }
    {
        self.elements
    }

    /// Writes the picture as SVG, with the name of its trace.
    ///
    /// # Errors
    ///
    /// Memory ran out, or the writer failed.
    pub fn write<W: Write>(&self, name: &str, out: &mut W) -> io::Result<()>
        ensures { OnOk result
            ((text : List ℕ)
            × (∥ IsPicture text ∥₁ × Appends (W.contents out.old) (W.contents out.new) text)) }
    {
        let text = self.text(name)?;
        out.write_all(text.as_bytes())?;
        Ok(())
    }

    /// The picture as SVG, with the name of its trace: its tags nest and match, and its texts and
    /// values are escaped.
    ///
    /// # Errors
    ///
    /// Memory ran out.
    pub fn text(&self, name: &str) -> Result<String, AllocError>
        ensures { IfOk result (λ text. ∥ IsPicture (string_bytes text) ∥₁) }
    {
        let heading = heading(self.alloc, name, self.axis.span, self.windows.is_some())?;
        let mut page = self.frame(heading.as_str())?;
        draw_heading(&mut page, heading.as_str())?;
        self.draw_shapes(&mut page)?;
        page.finish()
    }

    /// The page with this title, and with what is below and around the shapes.
    fn frame(&self, heading: &str) -> Result<Page, AllocError> {
        let wide = self.axis.wide();
        let mut high = self.rows.bottom + LEGEND;
        if self.windows.is_some() {
            high = high + LEGEND_LINE;
        }
        let size = (at(Key::Width, wide), at(Key::Height, high));
        let space = set(Key::Xmlns, "http://www.w3.org/2000/svg");
        let mut page = Page::new(self.alloc, &[space, size.0, size.1, view(wide, high)])?;
        page.worded(Tag::Title, heading)?;
        draw_style(&mut page)?;
        page.empty(Tag::Rect, &[set(Key::Class, "paper"), size.0, size.1])?;
        draw_names(&mut page, self)?;
        draw_axis(&mut page, self.axis, self.rows.bottom)?;
        draw_legend(&mut page, self.rows.bottom, self.windows.is_some())?;
        Ok(page)
    }

    /// Draws the shapes: first the windows and the bars, then what is on them, and the words next
    /// to messages and flags.
    fn draw_shapes(&self, page: &mut Page) -> Result<(), AllocError> {
        draw_windows(page, self)?;
        for shape in &self.shapes {
            match shape {
                Shape::Mode(partition, stay) => draw_mode(page, self, *partition, *stay)?,
                Shape::State(process, stay) => draw_stay(page, self, *process, *stay)?,
                _ => {}
            }
        }
        for shape in &self.shapes {
            match shape {
                Shape::Message(message) => draw_message(page, self, message)?,
                Shape::Flag(flag) => draw_flag(page, self, flag)?,
                Shape::Report(report) => draw_report(page, self, report)?,
                _ => {}
            }
        }
        draw_message_words(page, self)?;
        draw_flag_words(page, self)
    }
}
