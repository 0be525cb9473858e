//! The lines of a text in the content of a node, as ranges of its bytes.
ghost use Rattle.std.specs.Prelude.{◌≡◌, ◌≤◌, ◌^◌, ◌≤ℤ◌, All, IfOk, length, pos};
ghost use Rattle.fx_boxes.specs.Controls.{scale_of};
ghost use Rattle.fx_picture.specs.Shapes.{whole};
ghost use Rattle.fx_shapes.specs.Letters.{HasLines, IsPiece, columns_of};

use fx_base::{Rect, Text};
use fx_cells::lines;
use std::alloc::{AllocError, Global};

/// The lines of a text: one, unless it is wrapped at so many cells.
pub(crate) fn lines_of(
    alloc: Global,
    text: &Text,
    wrap: bool,
    columns: u64,
) -> Result<Vec<(usize, usize)>, AllocError>
    requires { 1 ≤ columns }
    ensures lines { IfOk result (λ ranges. HasLines wrap columns text.now ranges.items) }
    ensures pieces { IfOk result (λ ranges. All (IsPiece text.now) ranges.items) }
{
    let text = text.as_str();
    if wrap {
        return lines(alloc, text, columns);
    }
    let whole = Vec::from_slice(alloc, &[(0, text.len())])?;
    Ok(whole)
}

/// How many cells a line has room for, but at least one.
pub(crate) fn columns_of(clip: Rect, scale: u64) -> u64
    requires some { 1 ≤ scale }
    requires most { scale ≤ 2 ^ 61 }
    requires across { pos 0 ≤ℤ clip.w }
    ensures value { result ≡ columns_of clip scale }
    ensures least { 1 ≤ result }
{
    (length(clip.w) / (4 * scale)).max(1)
}

/// A length that isn't below 0.
pub(crate) fn length(length: i64) -> u64
    requires { pos 0 ≤ℤ length }
    ensures value { result ≡ whole length }
    ensures same { pos result ≡ length }
{
    length as u64
}

/// How much larger than the smallest the letters are.
pub(crate) fn scale_of(font_size: i64) -> u64
    ensures value { result ≡ scale_of font_size }
    ensures some { 1 ≤ result }
    ensures most { result ≤ 2 ^ 61 }
{
    if font_size < 0 {
        1
    } else {
        (font_size as u64 / 6).max(1)
    }
}
