//! What a summary adds up.
ghost use Rattle.std.specs.Prelude.{◌≡◌, ◌≤◌, ◌<◌, ◌+◌, ◌*◌, ◌^◌, All};
ghost use Rattle.std.specs.List.{sum_by};
ghost use Rattle.fx_plain_frames.specs.Pulses.{area_of};
ghost use Rattle.fx_plain_steps.specs.Told.{AreSmall, Totals, added, no_totals};
ghost use Rattle.fx_play_frames.specs.Takings.{IsSmallRect, totals_in};

use fx_base::Rect;

/// How many frames were made, the area of their damage in pixels, how many listeners were told, and all pixels added
/// up.
#[derive(Clone, Copy)]
pub struct Counts {
    pub frames: u128,
    pub area: u128,
    pub notices: u128,
    pub pixels: u128,
}

impl Counts {
    /// Nothing is counted.
    pub const NONE: Counts = Counts {
        frames: 0,
        area: 0,
        notices: 0,
        pixels: 0,
    };

    /// Both added up.
    pub fn with(self, more: Counts) -> Counts
        requires frames { self.frames + more.frames < 2 ^ 128 }
        requires area { self.area + more.area < 2 ^ 128 }
        requires notices { self.notices + more.notices < 2 ^ 128 }
        requires pixels { self.pixels + more.pixels < 2 ^ 128 }
        ensures { totals_in result ≡ added (totals_in self) (totals_in more) }
    {
        Counts {
            frames: self.frames + more.frames,
            area: self.area + more.area,
            notices: self.notices + more.notices,
            pixels: self.pixels + more.pixels,
        }
    }
}

/// The pixels of rectangles added up.
pub(crate) fn area_of(rects: &[Rect]) -> u128
    requires small { All IsSmallRect rects.now }
    ensures area { result ≡ sum_by area_of rects.now }
    ensures small { result ≤ 2 ^ 90 }
{
    let mut area = 0u128;
    for rect in rects {
        area += pixels_of(*rect);
    }
    area
}

/// The pixels of a rectangle.
fn pixels_of(rect: Rect) -> u128
    requires small { IsSmallRect rect }
    ensures area { result ≡ area_of rect }
    ensures small { result ≤ 2 ^ 24 }
{
    rect.w.max(0) as u128 * rect.h.max(0) as u128
}
