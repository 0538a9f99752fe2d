//! The parts of an element: its tag, and its attributes.

ghost use Rattle.std.specs.Prelude.{◌≡◌, ◌++◌, flat_map, OnOk, string_bytes};
ghost use Rattle.trace_picture.specs.Element as text;

use crate::escaped::push_escaped;
use crate::length::Length;
use std::alloc::AllocError;
use std::fmt::Write;

/// The elements of a page.
#[derive(Clone, Copy)]
pub enum Tag {
    Defs,
    Group,
    Line,
    Marker,
    Path,
    Pattern,
    Rect,
    Style,
    Svg,
    Text,
    Title,
}

impl Tag {
    /// The name of the element.
    pub fn name(self) -> &'static str
        ensures { result.now ≡ text.tag_name self }
    {
        match self {
            Tag::Defs => "defs",
            Tag::Group => "g",
            Tag::Line => "line",
            Tag::Marker => "marker",
            Tag::Path => "path",
            Tag::Pattern => "pattern",
            Tag::Rect => "rect",
            Tag::Style => "style",
            Tag::Svg => "svg",
            Tag::Text => "text",
            Tag::Title => "title",
        }
    }
}

/// The attributes of an element.
#[derive(Clone, Copy)]
pub enum Key {
    Class,
    Height,
    Id,
    MarkerHeight,
    MarkerWidth,
    Orient,
    Path,
    PatternTransform,
    PatternUnits,
    RefX,
    RefY,
    Transform,
    ViewBox,
    Width,
    X,
    X1,
    X2,
    Xmlns,
    Y,
    Y1,
    Y2,
}

impl Key {
    /// The name of the attribute.
    pub fn name(self) -> &'static str
        ensures { result.now ≡ text.key_name self }
    {
        match self {
            Key::Class => "class",
            Key::Height => "height",
            Key::Id => "id",
            Key::MarkerHeight => "markerHeight",
            Key::MarkerWidth => "markerWidth",
            Key::Orient => "orient",
            Key::Path => "d",
            Key::PatternTransform => "patternTransform",
            Key::PatternUnits => "patternUnits",
            Key::RefX => "refX",
            Key::RefY => "refY",
            Key::Transform => "transform",
            Key::ViewBox => "viewBox",
            Key::Width => "width",
            Key::X => "x",
            Key::X1 => "x1",
            Key::X2 => "x2",
            Key::Xmlns => "xmlns",
            Key::Y => "y",
            Key::Y1 => "y1",
            Key::Y2 => "y2",
        }
    }
}

/// The value of an attribute.
#[derive(Clone, Copy)]
pub enum Value<'a> {
    Text(&'a str),
    Length(Length),
    /// A view from 0, 0 on, of this width and height.
    View(Length, Length),
    /// A move to this place.
    Move(Length, Length),
}

/// An attribute with its value.
#[derive(Clone, Copy)]
pub struct Attribute<'a> {
    pub key: Key,
    pub value: Value<'a>,
}

/// An attribute with a text.
pub fn set(key: Key, text: &str) -> Attribute<'_> {
    Attribute {
        key,
        value: Value::Text(text),
    }
}

/// An attribute with a length.
pub fn at(key: Key, length: Length) -> Attribute<'static> {
    Attribute {
        key,
        value: Value::Length(length),
    }
}

/// The attribute that moves an element to this place.
pub fn moved(x: Length, y: Length) -> Attribute<'static> {
    Attribute {
        key: Key::Transform,
        value: Value::Move(x, y),
    }
}

/// The attribute that shows everything from 0, 0 on, up to this width and height.
pub fn view(width: Length, height: Length) -> Attribute<'static> {
    Attribute {
        key: Key::ViewBox,
        value: Value::View(width, height),
    }
}

/// The attributes of a line from one place to another.
pub fn line_attributes(
    class: &str,
    x1: Length,
    y1: Length,
    x2: Length,
    y2: Length,
) -> [Attribute<'_>; 5] {
    [
        set(Key::Class, class),
        at(Key::X1, x1),
        at(Key::Y1, y1),
        at(Key::X2, x2),
        at(Key::Y2, y2),
    ]
}

/// The attributes of an outline that is moved to a place.
pub fn outline_attributes(
    class: &'static str,
    outline: &'static str,
    left: Length,
    height: Length,
) -> [Attribute<'static>; 3] {
    [
        set(Key::Class, class),
        set(Key::Path, outline),
        moved(left, height),
    ]
}

fn push_value(out: &mut String, value: Value<'_>) -> Result<(), AllocError>
    ensures { OnOk result
        (string_bytes out.new ≡ string_bytes out.old ++ text.value_text value.entry) }
{
    match value {
        Value::Text(text) => push_escaped(out, text),
        Value::Length(length) => write!(out, "{length}"),
        Value::View(width, height) => write!(out, "0 0 {width} {height}"),
        Value::Move(x, y) => write!(out, "translate({x} {y})"),
    }
}

fn push_attribute(out: &mut String, attribute: &Attribute<'_>) -> Result<(), AllocError>
    ensures { OnOk result
        (string_bytes out.new ≡ string_bytes out.old ++ text.attribute_text attribute.now) }
{
    write!(out, " {}=\"", attribute.key.name())?;
    push_value(out, attribute.value)?;
    out.push_str("\"")
}

fn push_attributes(out: &mut String, attributes: &[Attribute<'_>]) -> Result<(), AllocError>
    ensures { OnOk result
        (string_bytes out.new
        ≡ string_bytes out.old ++ flat_map text.attribute_text attributes.now) }
{
    for attribute in attributes {
        push_attribute(out, attribute)?;
    }
    Ok(())
}

/// Appends the tag that begins an element, up to what closes the tag.
pub fn push_start(
    out: &mut String,
    tag: Tag,
    attributes: &[Attribute<'_>],
    close: &str,
) -> Result<(), AllocError>
    ensures { OnOk result
        (string_bytes out.new
        ≡ string_bytes out.old ++ (text.tag_text tag attributes.now ++ close.now)) }
{
    write!(out, "<{}", tag.name())?;
    push_attributes(out, attributes)?;
    out.push_str(close)
}

/// Appends the tag that ends an element, and a line feed.
pub fn push_end(out: &mut String, tag: Tag) -> Result<(), AllocError>
    ensures { OnOk result (string_bytes out.new ≡ string_bytes out.old ++ text.end_text tag) }
{
    write!(out, "</{}>\n", tag.name())
}
