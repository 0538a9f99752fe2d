//! How a load is shown.

/// How a load is shown.
#[derive(Clone, Copy, PartialEq, Eq)]
pub enum Form {
    /// Tables for people.
    Tables,
    /// Comma-separated values.
    Rows,
    /// A picture of the frame, an SVG.
    Picture,
}
