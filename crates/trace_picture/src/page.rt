//! The text of a picture while it is being written.

ghost use Rattle.std.specs.Prelude.{◌≡◌, ◌-◌, reverse, string_bytes, vec_len, IfOk, OnOk};
ghost use Rattle.trace_picture.specs.Element.{start_text, titled};
ghost use Rattle.trace_picture.specs.Page.{IsBegun, IsPicture};

use crate::element::{Attribute, Tag, push_end, push_start};
use crate::escaped::push_escaped;
use std::alloc::{AllocError, Global};

/// An element `svg` that has begun, and in it elements that have not ended yet. Whatever is written
/// into it, its tags nest and match, and its texts and values are escaped.
#[derive(Drop)]
pub struct Page {
    alloc: Global,
    text: String,
    /// The elements that have not ended, the innermost last.
    unended: Vec<Tag>,
    ghost begun: { ∥ IsBegun (reverse unended.items) (string_bytes text) ∥₁ },
}

impl Page {
    /// A page with the start of its outermost element.
    ///
    /// # Errors
    ///
    /// Memory ran out.
    pub fn new(alloc: Global, attributes: &[Attribute<'_>]) -> Result<Page, AllocError> {
        let mut text = String::new(alloc);
        push_start(&mut text, Tag::Svg, attributes, ">")?;
        Ok(Page {
            alloc,
            text,
            unended: Vec::new(alloc),
        })
    }

    /// Begins an element.
    ///
    /// # Errors
    ///
    /// Memory ran out. Then the page is unchanged.
    pub fn open(&mut self, tag: Tag, attributes: &[Attribute<'_>]) -> Result<(), AllocError> {
        let mut start = String::new(self.alloc);
        push_start(&mut start, tag, attributes, ">")?;
        self.unended.reserve(1)?;
        self.text.push_str(start.as_str())?;
        self.unended.push(tag).unwrap();
        Ok(())
    }

    /// Writes an element with nothing in it.
    ///
    /// # Errors
    ///
    /// Memory ran out. Then the page is unchanged.
    pub fn empty(&mut self, tag: Tag, attributes: &[Attribute<'_>]) -> Result<(), AllocError> {
        let mut whole = String::new(self.alloc);
        push_start(&mut whole, tag, attributes, "/>\n")?;
        self.text.push_str(whole.as_str())?;
        Ok(())
    }

    /// Writes an element that has a title and nothing else.
    ///
    /// # Errors
    ///
    /// Memory ran out. Then the page is unchanged.
    pub fn titled(
        &mut self,
        tag: Tag,
        attributes: &[Attribute<'_>],
        title: &str,
    ) -> Result<(), AllocError> {
        let whole = titled_element(self.alloc, tag, attributes, title)?;
        self.text.push_str(whole.as_str())?;
        Ok(())
    }

    /// Writes an element that has a text and nothing else.
    ///
    /// # Errors
    ///
    /// Memory ran out.
    pub fn worded(&mut self, tag: Tag, words: &str) -> Result<(), AllocError> {
        self.open(tag, &[])?;
        self.text(words)?;
        self.close()?;
        Ok(())
    }

    /// Writes a text into the innermost element.
    ///
    /// # Errors
    ///
    /// Memory ran out. Then the page is unchanged.
    pub fn text(&mut self, text: &str) -> Result<(), AllocError> {
        let mut piece = String::new(self.alloc);
        push_escaped(&mut piece, text)?;
        self.text.push_str(piece.as_str())?;
        Ok(())
    }

    /// Ends the innermost element; the outermost one stays open.
    ///
    /// # Errors
    ///
    /// Memory ran out. Then the page is unchanged.
    pub fn close(&mut self) -> Result<(), AllocError>
        ensures { OnOk result (vec_len self.new.unended ≡ vec_len self.old.unended - 1) }
    {
        let Some(last) = self.unended.last() else {
            return Ok(());
        };
        let tag = *last;
        let mut end = String::new(self.alloc);
        push_end(&mut end, tag)?;
        self.text.push_str(end.as_str())?;
        let _ = self.unended.pop();
        Ok(())
    }

    /// Ends all elements. Returns the text.
    ///
    /// # Errors
    ///
    /// Memory ran out.
    pub fn finish(mut self) -> Result<String, AllocError>
        ensures { IfOk result (λ text. ∥ IsPicture (string_bytes text) ∥₁) }
    {
        while !self.unended.as_slice().is_empty() {
            self.close()?;
        }
        let Page { mut text, .. } = self;
        push_end(&mut text, Tag::Svg)?;
        Ok(text)
    }
}

/// An element with a title.
fn titled_element(
    alloc: Global,
    tag: Tag,
    attributes: &[Attribute<'_>],
    title: &str,
) -> Result<String, AllocError>
    ensures { IfOk result
        (λ whole. string_bytes whole ≡ titled tag (start_text tag attributes.now) title.now) }
{
    let mut whole = String::new(alloc);
    push_start(&mut whole, tag, attributes, ">")?;
    push_start(&mut whole, Tag::Title, &[], ">")?;
    push_escaped(&mut whole, title)?;
    push_end(&mut whole, Tag::Title)?;
    push_end(&mut whole, tag)?;
    Ok(whole)
}
