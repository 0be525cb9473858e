//! Printing a row. A text of as many bytes is made first, and then written: each pixel is a word of eight bytes, whose
//! last one lies where the next word begins.
ghost use Rattle.std.specs.Prelude.{◌≡◌, ◌∷◌, ◌++◌, ◌+◌, ◌*◌, ◌≤◌, ◌<◌, ◌↔◌, [], IsTrue, OnOk, drop, length, replicate, slice_index, take};
ghost use Rattle.fx_text.specs.Characters.{line_feed, space};
ghost use Rattle.fx_row_text.specs.Appending.{Appends};
ghost use Rattle.fx_row_text.specs.Rows.{pixel_text, row_text, spaced_text};
ghost use Rattle.fx_row_text.specs.Writing.{IsWritten};

use fx_text::hex_digit;
use std::alloc::AllocError;
use std::simd::prelude::*;

/// A pixel's text behind a space, and a byte more.
#[derive(Clone, Copy)]
struct Spaced {
    pixel: u32,
    text: u8x8,
    ghost long: { length text ≡ 8 },
    ghost tells: { take 7 text ≡ space ∷ pixel_text pixel },
}

/// Makes the text that of a row of pixels, each 0x00RRGGBB, with a line feed. It keeps its room, so a text that was
/// as long takes no memory.
pub fn print_row(text: &mut Vec<u8>, row: &[u32]) -> Result<(), AllocError>
    ensures { OnOk result (text.new.items ≡ row_text row.now) }
{
    text.resize(text_length(row), b' ')?;
    write_row(text.as_mut_slice(), row);
    Ok(())
}

/// Appends a row of pixels, each 0x00RRGGBB, and a line feed. Where memory is wanting, a part of it stands there.
pub fn append_row(text: &mut Vec<u8>, row: &[u32]) -> Result<(), AllocError>
    ensures { Appends text.old.items text.new.items result (row_text row.now) }
{
    let start = text.len();
    let Some(end) = start.checked_add(text_length(row)) else {
        return Err(AllocError);
    };
    text.resize(end, b' ')?;
    write_row(&mut text.as_mut_slice()[start..], row);
    Ok(())
}

/// How long the text of a row is: seven bytes a pixel.
fn text_length(row: &[u32]) -> usize
    ensures { result ≡ length (row_text row.now) }
{
    match row.len() {
        0 => 1,
        count => 7 * count,
    }
}

/// Writes the text of a row over one that is as long.
fn write_row(text: &mut [u8], row: &[u32])
    requires { length text.old ≡ length (row_text row.now) }
    ensures { text.new ≡ row_text row.now }
{
    match row {
        [first, rest @ ..] => {
            let (front, behind) = text.split_at_mut(6);
            front.copy_from_slice(&pixel_digits(*first));
            write_behind(behind, rest);
        }
        [] => text[0] = b'\n',
    }
}

/// Each pixel behind a space, and the line feed. Two colours often take turns, so what was made for a run serves the
/// run after the next one.
fn write_behind(text: &mut [u8], row: &[u32])
    requires { length text.old ≡ 7 * length row.now + 1 }
    ensures { text.new ≡ spaced_text row.now ++ (line_feed ∷ []) }
{
    let mut last = spaced_pixel(0);
    let mut other = last;
    let mut at = 0;
    while at < row.len() {
        let next = spaced_again(row[at], other);
        other = last;
        last = next;
        at = write_run(text, row, at, next);
    }
    text[7 * row.len()] = b'\n';
}

/// Writes the pixels that are like one, from it on.
#[inline(always)]
fn write_run(text: &mut [u8], row: &[u32], from: usize, spaced: Spaced) -> usize
    requires written { IsWritten text.old row.now from }
    requires within { from < length row.now }
    requires pixel { slice_index row.now from ≡ spaced.pixel }
    ensures written { IsWritten text.new row.now result }
    ensures more { from < result }
{
    write_pixel(text, from, spaced);
    let mut at = write_blocks(text, row, from + 1, spaced);
    while at < row.len() && row[at] == spaced.pixel {
        write_pixel(text, at, spaced);
        at += 1;
    }
    at
}

/// Writes eight pixels at a time, as long as all of them are like one.
#[inline(always)]
fn write_blocks(text: &mut [u8], row: &[u32], from: usize, spaced: Spaced) -> usize
    requires { IsWritten text.old row.now from }
    ensures written { IsWritten text.new row.now result }
    ensures more { from ≤ result }
{
    let mut at = from;
    while is_block(row, at, spaced.pixel) {
        write_block(text, at, spaced);
        at += 8;
    }
    at
}

/// Whether the next eight pixels are all this one.
#[inline(always)]
fn is_block(row: &[u32], at: usize, pixel: u32) -> bool
    requires { at ≤ length row.now }
    ensures { IsTrue result ↔ ((at + 8 ≤ length row.now) × (take 8 (drop at row.now) ≡ replicate 8 pixel)) }
{
    row.len() - at >= 8 && row[at + 7] == pixel && is_filled(u32x8::from_slice(&row[at..]), pixel)
}

/// Whether all lanes are this pixel.
#[inline(always)]
fn is_filled(lanes: u32x8, pixel: u32) -> bool
    ensures { IsTrue result ↔ (lanes ≡ replicate 8 pixel) }
{
    lanes.simd_eq(u32x8::splat(pixel)).all()
}

/// Writes eight equal pixels.
#[inline(always)]
fn write_block(text: &mut [u8], at: usize, spaced: Spaced)
    requires { 7 * (at + 8) < length text.old }
    ensures long { length text.new ≡ length text.old }
    ensures front { take (7 * (at + 8)) text.new
        ≡ take (7 * at) text.old ++ spaced_text (replicate 8 spaced.pixel) }
{
    for i in 0..8 {
        write_pixel(text, at + i, spaced);
    }
}

/// Writes a pixel behind a space. The byte behind it is no longer what it was.
#[inline(always)]
fn write_pixel(text: &mut [u8], at: usize, spaced: Spaced)
    requires { 7 * (at + 1) < length text.old }
    ensures long { length text.new ≡ length text.old }
    ensures front { take (7 * (at + 1)) text.new ≡ take (7 * at) text.old ++ (space ∷ pixel_text spaced.pixel) }
{
    spaced.text.copy_to_slice(&mut text[7 * at..]);
}

/// A pixel's text, which is made only if it isn't the one that was kept.
#[inline(always)]
fn spaced_again(pixel: u32, kept: Spaced) -> Spaced
    ensures { result.pixel ≡ pixel }
{
    if kept.pixel == pixel {
        return kept;
    }
    spaced_pixel(pixel)
}

/// A pixel's text, made anew.
fn spaced_pixel(pixel: u32) -> Spaced
    ensures { result.pixel ≡ pixel }
{
    let [a, b, c, d, e, f] = pixel_digits(pixel);
    let text = u8x8::from_array([b' ', a, b, c, d, e, f, b' ']);
    Spaced { pixel, text }
}

#[tactic(auto, unfolding(crate::specs::Rows::pixel_text))]
fn pixel_digits(pixel: u32) -> [u8; 6]
    ensures { result ≡ pixel_text pixel }
{
    let red = (pixel / 65536 % 256) as u8;
    let green = (pixel / 256 % 256) as u8;
    let blue = (pixel % 256) as u8;
    [
        hex_digit(red / 16),
        hex_digit(red % 16),
        hex_digit(green / 16),
        hex_digit(green % 16),
        hex_digit(blue / 16),
        hex_digit(blue % 16),
    ]
}
