//! The width of a picture.

ghost use Rattle.std.specs.Prelude.{◌≡◌, ◌≤◌, ◌*◌, ◌-◌, ◌&&◌, nat_le, is_some, IfSome};

/// The least width, in pixels. It is that of a picture for which none is asked.
pub const LEAST_WIDE: u32 = 1_200;

/// The greatest width, in pixels.
pub const MOST_WIDE: u32 = 30_000;

/// The tenths of a pixel outside the axis.
const BESIDE: u32 = 1_800;

/// The width of a picture, in pixels.
#[derive(Clone, Copy)]
pub struct Width {
    pixels: u32,
    ghost least: { 1200 ≤ pixels },
    ghost most: { pixels ≤ 30000 },
}

impl Width {
    /// The width of a picture for which none is asked.
    pub fn usual() -> Width
        ensures { result.pixels ≡ 1200 }
    {
        Width { pixels: LEAST_WIDE }
    }

    /// A width in pixels; `None` if a picture has no such width.
    pub fn new(pixels: u64) -> Option<Width>
        ensures pixels { IfSome result (λ width. width.pixels ≡ pixels) }
        ensures some { is_some result ≡ nat_le 1200 pixels && nat_le pixels 30000 }
    {
        match u32::try_from(pixels) {
            Ok(pixels) if LEAST_WIDE <= pixels && pixels <= MOST_WIDE => Some(Width { pixels }),
            _ => None,
        }
    }

    /// The length of the axis, in tenths of a pixel.
    pub fn axis(self) -> u32
        ensures { result ≡ self.pixels * 10 - 1800 }
    {
        self.pixels * 10 - BESIDE
    }
}
