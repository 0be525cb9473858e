//! All shapes of a look in a rectangle.
ghost use Rattle.std.specs.Prelude.{◌≡◌, ◌++◌, IfOk};
ghost use Rattle.std.specs.Option.{option_copied};
ghost use Rattle.fx_shapes.specs.Drawings.{IsDrawing, IsTextDrawing, OneDrawing, shown};
ghost use Rattle.fx_shapes.specs.Layers.{backgrounds, borders};
ghost use Rattle.fx_shapes.specs.Rects.{IsNear};

use crate::layers::{add_backgrounds, add_borders};
use crate::letters::{add_line, add_lines, block_of};
use crate::lines::{columns_of, lines_of};
use fx_base::{Rect, Text};
use fx_look::Look;
use fx_picture::Shape;
use std::alloc::{AllocError, Global};

/// The shapes of a node with this look in this rectangle, in the order in which they are painted: its background's
/// layers, its border's strips, and the lines of its text, if it has one (JavaFX `Region`, `Labeled`). A shape that is
/// empty or fully transparent is left out. Each number of the rectangle lies in -10^12 to 10^12 pixels.
pub fn shapes(
    alloc: Global,
    look: &Look,
    rect: Rect,
    text: Option<&Text>,
) -> Result<Vec<Shape>, AllocError>
    requires { IsNear rect }
    ensures { IfOk result (λ shapes. IsDrawing look.now rect (option_copied text.entry) shapes.items) }
{
    shapes_in(alloc, Vec::new(alloc), look, rect, text)
}

/// The same, in the memory of other shapes, which are let go of. A list that is too short gets no more room than these
/// shapes can want, since most nodes have one or two.
pub fn shapes_in(
    alloc: Global,
    room: Vec<Shape>,
    look: &Look,
    rect: Rect,
    text: Option<&Text>,
) -> Result<Vec<Shape>, AllocError>
    requires { IsNear rect }
    ensures { IfOk result (λ shapes. IsDrawing look.now rect (option_copied text.entry) shapes.items) }
{
    let mut shapes = room;
    shapes.clear();
    shapes.reserve_exact(room_for(look, text))?;
    add_backgrounds(&mut shapes, look, rect)?;
    add_borders(&mut shapes, look, rect)?;
    match text {
        None => Ok(shapes),
        Some(text) => with_text(alloc, shapes, look, rect, text),
    }
}

/// A look has one list of shapes in a rectangle.
pub fn one_drawing()
    ensures { OneDrawing }
{}

/// How many shapes there are at most, where the text has one line.
fn room_for(look: &Look, text: Option<&Text>) -> usize {
    let layers = look.background_color.as_slice().len();
    let strips = look.border_color.as_slice().len().saturating_mul(4);
    let lines = if text.is_some() { 1 } else { 0 };
    layers.saturating_add(strips).saturating_add(lines)
}

/// Adds a text, which is one line unless it is wrapped.
fn with_text(
    alloc: Global,
    mut shapes: Vec<Shape>,
    look: &Look,
    rect: Rect,
    text: &Text,
) -> Result<Vec<Shape>, AllocError>
    requires near { IsNear rect }
    requires fills { shapes.items ≡ shown (backgrounds look.now rect) ++ shown (borders look.now rect) }
    ensures { IfOk result (λ shapes. IsTextDrawing look.now rect text.now shapes.items) }
{
    if look.wrap_text {
        return with_lines(alloc, shapes, look, rect, text);
    }
    let block = block_of(look, rect, 1);
    let line = text.copy(alloc)?;
    add_line(&mut shapes, &block, 0, line)?;
    Ok(shapes)
}

#[tactic(auto, unfolding(crate::specs::Letters::block_of))]
fn with_lines(
    alloc: Global,
    mut shapes: Vec<Shape>,
    look: &Look,
    rect: Rect,
    text: &Text,
) -> Result<Vec<Shape>, AllocError>
    requires near { IsNear rect }
    requires fills { shapes.items ≡ shown (backgrounds look.now rect) ++ shown (borders look.now rect) }
    ensures { IfOk result (λ shapes. IsTextDrawing look.now rect text.now shapes.items) }
{
    let place = block_of(look, rect, 0);
    let columns = columns_of(place.clip, place.scale);
    let ranges = lines_of(alloc, text, look.wrap_text, columns)?;
    let block = block_of(look, rect, ranges.len() as u64);
    add_lines(alloc, &mut shapes, &block, text, ranges.as_slice())?;
    Ok(shapes)
}
