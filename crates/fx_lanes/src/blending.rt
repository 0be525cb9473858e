//! One colour with its opacity laid over a whole row.
//! It stands on the plain types, below the canvas.
ghost use Rattle.std.specs.Prelude.{◌≡◌, ℕ, ◌+◌, ◌*◌, ◌<◌, ◌≤◌, map};
ghost use Rattle.std.specs.List.{flat_map};
ghost use lib.Lanes.{Each1, zip2};
ghost use Rattle.fx_base.specs.Pixel.{blended, channel, pixel_of, red_of, green_of, blue_of};
ghost use Rattle.fx_lanes.specs.Blending.{channels, packed_color, pixels_of};

use std::simd::prelude::*;

/// Lays a colour, packed as 0xRRGGBBAA, over every pixel of a row, 0x00RRGGBB: each channel is rounded to
/// the nearest. What a pixel has in its highest byte is ignored, and left 0.
pub fn blend_row(row: &mut [u32], color: u32)
    ensures { row.new ≡ map (blended (packed_color color)) row.old }
{
    let pixel = color / 256;
    let alpha = color % 256;
    let over = spread(u32x4::splat(pixel));
    let mut at = 0;
    while row.len() - at >= 4 {
        let lanes = blended_block(u32x4::from_slice(&row[at..]), over, alpha as u16);
        lanes.copy_to_slice(&mut row[at..]);
        at += 4;
    }
    for i in at..row.len() {
        row[i] = blended_pixel(row[i], pixel, alpha);
    }
}

/// A packed colour has the four numbers that it was packed from.
pub fn packed_colors_unpack()
    ensures { (r g b a : ℕ) → r < 256 → g < 256 → b < 256 → a < 256
        → packed_color (r * 16777216 + g * 65536 + b * 256 + a) ≡ record { r = r; g = g; b = b; a = a } }
{}

#[inline(always)]
fn blended_block(under: u32x4, over: u16x16, alpha: u16) -> u32x4
    requires alpha_fits { alpha < 256 }
    requires over_fits { Each1 (λ c. c < 256) over }
    ensures { result ≡ pixels_of (zip2 (λ o u. channel o alpha u) over (flat_map channels under)) }
{
    gather(mix(over, alpha, spread(under)))
}

/// The channels of pixels, as lanes that have room for products.
#[inline(always)]
fn spread(pixels: u32x4) -> u16x16
    ensures value { result ≡ flat_map channels pixels }
    ensures bound { Each1 (λ c. c < 256) result }
{
    pixels.to_le_bytes().cast::<u16>()
}

#[inline(always)]
fn mix(over: u16x16, alpha: u16, under: u16x16) -> u8x16
    requires alpha_fits { alpha < 256 }
    requires over_fits { Each1 (λ c. c < 256) over }
    requires under_fits { Each1 (λ c. c < 256) under }
    ensures { result ≡ zip2 (λ o u. channel o alpha u) over under }
{
    let sum = over * u16x16::splat(alpha) + under * u16x16::splat(255 - alpha) + u16x16::splat(127);
    (sum / u16x16::splat(255)).cast::<u8>()
}

/// Pixels of their channels, without the highest byte.
#[inline(always)]
fn gather(bytes: u8x16) -> u32x4
    ensures { result ≡ pixels_of bytes }
{
    u32x4::from_le_bytes(bytes) & u32x4::splat(0x00ff_ffff)
}

#[inline(always)]
fn blended_pixel(under: u32, over: u32, alpha: u32) -> u32
    requires { alpha < 256 }
    ensures { result ≡ pixel_of (channel (red_of over) alpha (red_of under))
        (channel (green_of over) alpha (green_of under))
        (channel (blue_of over) alpha (blue_of under)) }
{
    let red = mixed(over / 65536 % 256, alpha, under / 65536 % 256);
    let green = mixed(over / 256 % 256, alpha, under / 256 % 256);
    let blue = mixed(over % 256, alpha, under % 256);
    red * 65536 + green * 256 + blue
}

#[inline(always)]
fn mixed(over: u32, alpha: u32, under: u32) -> u32
    requires over_fits { over < 256 }
    requires alpha_fits { alpha < 256 }
    requires under_fits { under < 256 }
    ensures value { result ≡ channel over alpha under }
    ensures bound { result < 256 }
{
    (over * alpha + under * (255 - alpha) + 127) / 255
}
