//! The look of the picture.

use crate::element::{Key, Tag, at, set};
use crate::length::Length;
use crate::page::Page;
use std::alloc::AllocError;

/// The look of each class.
pub const STYLE: &str = "
text{font:12px sans-serif;fill:#1f2933}
.paper{fill:#fff}
.ground{fill:#f3f5f8}
.heading{font-size:13px;font-weight:bold}
.partition{font-weight:bold}
.mode{font-size:10px;fill:#1f2933;stroke:#fff;stroke-width:4px;paint-order:stroke}
.tick{font-size:11px;text-anchor:middle}
.axis{stroke:#52606d}
.grid{stroke:#cbd2d9}
.base{stroke:#7b8794;stroke-dasharray:6 4}
.running{fill:#4b86b8;stroke:#1f4b6e;stroke-width:.6}
.window{fill:#d9e2ec;stroke:#52606d;stroke-width:.8}
.release{fill:#1f2933}
.chosen{fill:#dbe8f3;stroke:#4b86b8;stroke-width:.6;stroke-dasharray:3 2}
.ready-outside{fill:#fdf6e3;stroke:#b7791f;stroke-width:.6;stroke-dasharray:3 2}
.ready{fill:url(#ready);stroke:#8a5a00;stroke-width:.6}
.waiting{fill:#7b8794}
.dormant{fill:url(#dormant)}
.normal{fill:#fff;stroke:#52606d;stroke-width:.8}
.cold{fill:url(#cold);stroke:#52606d;stroke-width:.8}
.warm{fill:url(#warm);stroke:#52606d;stroke-width:.8}
.idle{fill:none;stroke:#52606d;stroke-width:.8;stroke-dasharray:2 2}
.message{stroke:#1f2933;stroke-width:1.3;marker-end:url(#head)}
.lost{stroke:#b42318;stroke-width:1.3;stroke-dasharray:4 2;marker-end:url(#cross)}
.flag{fill:#d64545;stroke:#5c0a0a;stroke-width:1.2}
.ready-ink{stroke:#b7791f;stroke-width:1.7}
.cold-ink{stroke:#b8c2cc;stroke-width:1.6}
.warm-ink{stroke:#9aa5b1;stroke-width:1}
.dormant-ink{stroke:#7b8794;stroke-width:5}
.head-ink{fill:#1f2933}
.cross-ink{fill:none;stroke:#b42318;stroke-width:1.5}
.report{fill:#fff;stroke:#1f2933;stroke-width:1.2}
";

/// Writes the look of the classes; draws nothing.
pub fn draw_style(page: &mut Page) -> Result<(), AllocError> {
    page.worded(Tag::Style, STYLE)?;
    draw_definitions(page)
}

/// Writes what the look refers to: the patterns that fill bars, and the ends of arrows.
fn draw_definitions(page: &mut Page) -> Result<(), AllocError> {
    let (four, five) = (Length(40), Length(50));
    page.open(Tag::Defs, &[])?;
    draw_pattern(page, "ready", "ready-ink", four, "M2 0V4", "rotate(45)")?;
    draw_pattern(page, "cold", "cold-ink", five, "M2.5 0V5", "rotate(45)")?;
    draw_pattern(page, "warm", "warm-ink", five, "M2.5 0V5", "rotate(-45)")?;
    draw_pattern(
        page,
        "dormant",
        "dormant-ink",
        five,
        "M0 2.5H2",
        "rotate(0)",
    )?;
    draw_marker(page, "head", "head-ink", "M0 0L7 3L0 6Z")?;
    draw_marker(page, "cross", "cross-ink", "M3 0L9 6M3 6L9 0")?;
    page.close()
}

/// Draws a pattern that fills bars: a square that is repeated.
fn draw_pattern(
    page: &mut Page,
    id: &str,
    class: &str,
    size: Length,
    path: &str,
    turn: &str,
) -> Result<(), AllocError> {
    page.open(
        Tag::Pattern,
        &[
            set(Key::Id, id),
            at(Key::Width, size),
            at(Key::Height, size),
            set(Key::PatternUnits, "userSpaceOnUse"),
            set(Key::PatternTransform, turn),
        ],
    )?;
    page.empty(Tag::Path, &[set(Key::Class, class), set(Key::Path, path)])?;
    page.close()
}

/// Draws the ends of arrows.
fn draw_marker(page: &mut Page, id: &str, class: &str, path: &str) -> Result<(), AllocError> {
    page.open(
        Tag::Marker,
        &[
            set(Key::Id, id),
            at(Key::MarkerWidth, Length(90)),
            at(Key::MarkerHeight, Length(60)),
            at(Key::RefX, Length(60)),
            at(Key::RefY, Length(30)),
            set(Key::Orient, "auto"),
        ],
    )?;
    page.empty(Tag::Path, &[set(Key::Class, class), set(Key::Path, path)])?;
    page.close()
}
