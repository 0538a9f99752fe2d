//! More elements than a picture has.

use apex_types::Ticks;

/// Up to where a picture that would have too many elements has few enough, and how many shapes it
/// would have in all.
#[derive(Clone, Copy, Debug)]
pub struct Excess {
    /// The number of all bars, arrows, flags and marks in the ticks that are shown. A bar that windows
    /// cut counts once, and windows do not count.
    pub shapes: u64,
    /// The first tick of the picture.
    pub from: Ticks,
    /// The last tick before which there are not too many.
    pub until: Ticks,
    /// The number of elements that begin before it.
    pub elements: usize,
}
