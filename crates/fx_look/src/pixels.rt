//! Colours laid over pixels.
//! Canvases are painted by them.
ghost use Rattle.std.specs.Prelude.{◌≡◌, ◌<◌, ◌≤◌, ◌+◌, ◌*◌, ◌-◌, ◌/◌};
ghost use Rattle.fx_base.specs.Pixel.{channel, blended};

use fx_base::Color;

/// The pixel 0x00RRGGBB after the colour was laid over it. The upper byte of `under` counts for nothing.
#[tactic(auto, unfolding(fx_base::specs::Pixel::blended))]
pub fn blend(over: Color, under: u32) -> u32
    ensures { result ≡ blended over under }
{
    let r = channel(over.r, over.a, (under / 65536 % 256) as u8);
    let g = channel(over.g, over.a, (under / 256 % 256) as u8);
    let b = channel(over.b, over.a, (under % 256) as u8);
    u32::from(r) * 65536 + u32::from(g) * 256 + u32::from(b)
}

/// One channel of a colour of this opacity over what is under it, rounded to the nearest.
#[tactic(auto, unfolding(fx_base::specs::Pixel::channel))]
fn channel(over: u8, opacity: u8, under: u8) -> u8
    ensures { result ≡ channel over opacity under }
{
    let over = u32::from(over) * u32::from(opacity);
    let under = u32::from(under) * u32::from(255 - opacity);
    ((over + under + 127) / 255) as u8
}
