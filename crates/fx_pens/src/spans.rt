//! One colour over a part of a row.
ghost use Rattle.std.specs.Prelude.{◌≡◌, ◌≤◌, ◌<◌, IfSome, length, map, replicate};
ghost use Rattle.fx_base.specs.Pixel.{blended, pixel_of};
ghost use Rattle.fx_lanes.specs.Blending.{packed_color};
ghost use Rattle.fx_pens.specs.Dots.{IsInk, IsLaid, IsPen, is_in};

use fx_base::{Color, Steps};
use fx_lanes::{blend_row, fill};
use std::simd::prelude::*;
use std::sync::ledger::Ledger;

/// What paints a row: the columns that it may touch, how wide a bit of a glyph is, how far the row lies below the first
/// one of the letters, and the colour.
#[derive(Clone, Copy)]
pub struct Pen {
    pub left: usize,
    pub right: usize,
    pub scale: u64,
    pub below: u64,
    pub color: Color,
}

/// The columns of a row from one on and before another.
#[derive(Clone, Copy)]
pub struct Columns {
    pub left: usize,
    pub right: usize,
}

/// Paints the columns from one on and before another.
#[inline(always)]
pub fn lay_span<P: Ledger>(
    row: &mut [u32],
    pen: &Pen,
    ink: Option<u32>,
    from: usize,
    to: usize,
    painted: &mut Steps<P>,
)
    requires pen { IsPen pen.now row.old }
    requires ink { IfSome ink (IsInk pen.now.color) }
    requires left { pen.now.left ≤ from }
    requires rises { from ≤ to }
    requires right { to ≤ pen.now.right }
    ensures { IsLaid pen.now (is_in from to) row.old row.new painted.old painted.new }
{
    lay_color(&mut row[from..to], pen.color, ink);
    painted.add((to - from) as u64);
}

/// Lays a colour over all of a row, where `ink` is what it makes of any pixel.
#[inline(always)]
fn lay_color(row: &mut [u32], color: Color, ink: Option<u32>)
    requires { IfSome ink (IsInk color) }
    ensures { row.new ≡ map (blended color) row.old }
{
    match ink {
        Some(pixel) => write(row, pixel),
        None => blend(row, color),
    }
}

/// Writes a colour to every pixel of a row. Few pixels are written right here, as most spans of letters are.
#[inline(always)]
fn write(row: &mut [u32], color: u32)
    ensures { row.new ≡ replicate (length row.old) color }
{
    if row.len() < 16 {
        write_few(row, color);
    } else {
        write_many(row, color);
    }
}

#[inline(never)]
fn write_many(row: &mut [u32], color: u32)
    ensures { row.new ≡ replicate (length row.old) color }
{
    fill(row, color);
}

#[inline(never)]
fn blend(row: &mut [u32], color: Color)
    ensures { row.new ≡ map (blended color) row.old }
{
    blend_row(row, packed(color));
}

/// Writes a colour, 0x00RRGGBB, to every pixel of a short row: by blocks of four, of which the last may lie over a part
/// of the one before, so that no pixel is left for itself.
#[inline(always)]
fn write_few(row: &mut [u32], color: u32)
    ensures { row.new ≡ replicate (length row.old) color }
{
    if row.len() < 4 {
        write_three(row, color);
        return;
    }
    let lanes = u32x4::splat(color);
    let last = row.len() - 4;
    let mut at = 0;
    while at < last {
        lanes.copy_to_slice(&mut row[at..]);
        at += 4;
    }
    lanes.copy_to_slice(&mut row[last..]);
}

/// Writes a colour to each of at most three pixels: the first one, the one in the middle and the last.
#[inline(always)]
fn write_three(row: &mut [u32], color: u32)
    requires { length row.old < 4 }
    ensures { row.new ≡ replicate (length row.old) color }
{
    if row.is_empty() {
        return;
    }
    let middle = row.len() / 2;
    let last = row.len() - 1;
    row[0] = color;
    row[middle] = color;
    row[last] = color;
}

/// What a colour makes of any pixel, if it is opaque.
pub fn ink(color: Color) -> Option<u32>
    ensures { IfSome result (IsInk color) }
{
    if color.a == 255 {
        Some(opaque(color))
    } else {
        None
    }
}

fn opaque(color: Color) -> u32
    ensures { result ≡ pixel_of color.r color.g color.b }
{
    u32::from(color.r) * 65536 + u32::from(color.g) * 256 + u32::from(color.b)
}

fn packed(color: Color) -> u32
    ensures { packed_color result ≡ color }
{
    opaque(color) * 256 + u32::from(color.a)
}
