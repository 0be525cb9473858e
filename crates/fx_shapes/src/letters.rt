//! The lines of a text as letters in the content of a node.
ghost use Rattle.std.specs.Prelude.{◌≡◌, ◌+◌, ◌*◌, ◌/◌, ◌%◌, ◌++◌, ◌∷◌, [], ◌≤◌, ◌^◌, ◌≤ℤ◌, ◌+ℤ◌, ◌<◌, ◌&&◌, All, IfOk, IfSome, IfNone, OnOk, chars, int_lt, length, map, min, nat_lt, pos};
ghost use Rattle.fx_cells.specs.Columns.{cells_of};
ghost use Rattle.fx_panes_parts.specs.Lengths.{aligned};
ghost use Rattle.fx_picture.specs.Shapes.{whole};
ghost use Rattle.fx_shapes.specs.Drawings.{shown};
ghost use Rattle.fx_shapes.specs.Letters.{IsPiece, block_of, content_of, filled, line_at, line_of, lines_of};
ghost use Rattle.fx_shapes.specs.Rects.{AreLimited, IsContent, IsNear, IsNearby};

use crate::insets::insets_of;
use crate::layers::{add_if, is_wide, shrunk};
use crate::lines::{length, scale_of};
use fx_base::{Color, Rect, Sides, Text, TextError};
use fx_cells::cells;
use fx_look::Look;
use fx_panes_parts::aligned;
use fx_picture::Shape;
use std::alloc::{AllocError, Global};

/// So many lines of text in one content: where they are cut, how much larger than the smallest their letters are, the
/// place of a constant of `Pos`, and their colour.
#[derive(Clone, Copy)]
pub struct Block {
    pub clip: Rect,
    pub scale: u64,
    pub alignment: u8,
    pub color: Color,
    pub count: u64,
}

/// The block of so many lines in the rectangle of a node.
#[tactic(auto, unfolding(crate::specs::Letters::block_of))]
pub(crate) fn block_of(look: &Look, rect: Rect, count: u64) -> Block
    requires { IsNear rect }
    ensures value { result ≡ block_of look.now rect count }
    ensures clip { IsContent result.clip }
    ensures some { 1 ≤ result.scale }
    ensures most { result.scale ≤ 2 ^ 61 }
{
    Block {
        clip: content_of(rect, insets_of(look)),
        scale: scale_of(look.font_size),
        alignment: look.alignment,
        color: look.text_fill,
        count,
    }
}

/// A rectangle less its insets.
pub(crate) fn content_of(rect: Rect, insets: Sides) -> Rect
    requires near { IsNear rect }
    requires insets { AreLimited insets }
    ensures value { result ≡ content_of rect insets }
    ensures content { IsContent result }
{
    filled(shrunk(rect, insets))
}

/// A rectangle with nothing in the place of a length below 0.
fn filled(rect: Rect) -> Rect
    requires { IsNearby rect }
    ensures value { result ≡ filled rect }
    ensures content { IsContent result }
{
    Rect {
        x: rect.x,
        y: rect.y,
        w: rect.w.max(0),
        h: rect.h.max(0),
    }
}

/// Adds the lines of the block that show.
pub(crate) fn add_lines(
    alloc: Global,
    shapes: &mut Vec<Shape>,
    block: &Block,
    text: &Text,
    ranges: &[(usize, usize)],
) -> Result<(), AllocError>
    requires clip { IsContent block.now.clip }
    requires some { 1 ≤ block.now.scale }
    requires most { block.now.scale ≤ 2 ^ 61 }
    requires pieces { All (IsPiece text.now) ranges.now }
    ensures { OnOk result (shapes.new.items
        ≡ shapes.old.items ++ shown (lines_of block.now (map (line_of text.now) ranges.now))) }
{
    for (index, range) in ranges.iter().enumerate() {
        let line = piece_of(alloc, text, *range)?;
        add_line(shapes, block, index as u64, line)?;
    }
    Ok(())
}

/// The text between two of its bytes.
fn piece_of(alloc: Global, text: &Text, range: (usize, usize)) -> Result<Text, AllocError>
    requires { IsPiece text.now range }
    ensures { IfOk result (λ piece. piece ≡ line_of text.now range) }
{
    let text = text.as_str();
    match Text::from_str(alloc, &text[range.0..range.1]) {
        Ok(piece) => Ok(piece),
        Err(TextError::Memory) => Err(AllocError),
        Err(TextError::TooLong) => unreachable!(),
    }
}

pub(crate) fn add_line(
    shapes: &mut Vec<Shape>,
    block: &Block,
    index: u64,
    line: Text,
) -> Result<(), AllocError>
    requires clip { IsContent block.now.clip }
    requires some { 1 ≤ block.now.scale }
    requires most { block.now.scale ≤ 2 ^ 61 }
    ensures { OnOk result (shapes.new.items ≡ shapes.old.items ++ shown (line_at block.now (index, line) ∷ [])) }
{
    let used = width_of(block, &line);
    match down_of(block, index) {
        Some(y) => add_if(
            shapes,
            Shape::Letters {
                x: across_of(block, used),
                y,
                scale: block.scale as i64,
                text: line,
                clip: block.clip,
                color: block.color,
            },
            is_visible(block, used),
        ),
        None => Ok(()),
    }
}

/// How wide a line is, but no more than a `u64` holds.
fn width_of(block: &Block, line: &Text) -> u64
    requires { block.now.scale ≤ 2 ^ 61 }
    ensures { result ≡ min (4 * cells_of (chars line.now) * block.now.scale) 18446744073709551615 }
{
    (4 * block.scale).saturating_mul(cells(line.as_str()))
}

/// Whether letters of this width show in the content, in a line that begins in it.
fn is_visible(block: &Block, used: u64) -> bool
    ensures { result ≡ (nat_lt 0 block.now.color.a && (nat_lt 0 used && int_lt (pos 0) block.now.clip.w)) }
{
    block.color.a > 0 && used > 0 && is_wide(block.clip)
}

/// Where a line of this width begins, from the left.
fn across_of(block: &Block, used: u64) -> i64
    requires clip { IsContent block.now.clip }
    ensures { result ≡ block.now.clip.x +ℤ pos (aligned (block.now.alignment % 3) used (whole block.now.clip.w)) }
{
    block.clip.x + aligned(block.alignment % 3, used, length(block.clip.w)) as i64
}

/// Where a line begins, from above, unless it begins behind the content.
fn down_of(block: &Block, index: u64) -> Option<i64>
    requires clip { IsContent block.now.clip }
    requires most { block.now.scale ≤ 2 ^ 61 }
    ensures some { IfSome result (λ y. y ≡ block.now.clip.y +ℤ pos (
        aligned (block.now.alignment / 3) (6 * block.now.count * block.now.scale) (whole block.now.clip.h)
        + 6 * index * block.now.scale)) }
    ensures inside { IfSome result (λ _.
        aligned (block.now.alignment / 3) (6 * block.now.count * block.now.scale) (whole block.now.clip.h)
        + 6 * index * block.now.scale < whole block.now.clip.h) }
    ensures none { IfNone result (whole block.now.clip.h
        ≤ aligned (block.now.alignment / 3) (6 * block.now.count * block.now.scale) (whole block.now.clip.h)
        + 6 * index * block.now.scale) }
{
    let height = length(block.clip.h);
    let line = 6 * block.scale;
    let start = aligned(
        block.alignment / 3,
        line.saturating_mul(block.count),
        height,
    );
    let below = start.saturating_add(line.saturating_mul(index));
    if below < height {
        Some(block.clip.y + below as i64)
    } else {
        None
    }
}
