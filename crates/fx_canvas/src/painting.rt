//! Shapes laid over the rows of a window: each is cut to the area that is painted before its rows are walked.
ghost use Rattle.std.specs.Prelude.{◌≡◌, ◌∷◌, [], All, true, int_le, if◌then◌else◌};
ghost use Rattle.std.specs.List.{sum_by};
ghost use Rattle.fx_base.specs.Rectangle.{in_span, inside};
ghost use Rattle.fx_canvas.specs.Painting as spec;
ghost use Rattle.fx_pens.specs.Dots.{IsInk, is_in};
ghost use Rattle.fx_picture.specs.Bounds.{bounds_of, in_range, is_empty, meet};
ghost use Rattle.fx_picture.specs.Pixels.{pixel, shapes_of};
ghost use Rattle.fx_picture.specs.Shapes.{bounds, color_of};

use crate::blocks::{Block, block_of};
use crate::opaque::{fill_rows, lay_letters};
use crate::rows::Row;
use fx_base::{Color, Rect, Steps};
use fx_pens::{Brush, Columns, Pen, ink, near_pen};
use fx_picture::{Bounds, Entry, Shape, bounds, bounds_of, color_of, is_empty, meeting};
use std::sync::ledger::Ledger;

/// What is painted before any shape.
const WHITE: Color = Color {
    r: 255,
    g: 255,
    b: 255,
    a: 255,
};

/// Paints each of the rectangles anew.
pub(crate) fn repaint<P: Ledger>(
    rows: &mut [Row],
    rects: &[Rect],
    entries: &[Entry],
    painted: &mut Steps<P>,
)
    requires { All (λ r. spec.FitsIn (bounds_of r) rows.old) rects.now }
    ensures { spec.IsDrawn (spec.repainted entries.now rects.now) (spec.is_met rects.now)
        (sum_by (spec.writes entries.now) rects.now)
        rows.old rows.new painted.old painted.new }
{
    for rect in rects {
        repaint_rect(rows, *rect, entries, painted);
    }
}

/// Whitens a rectangle, and lays each shape over it in order.
fn repaint_rect<P: Ledger>(rows: &mut [Row], rect: Rect, entries: &[Entry], painted: &mut Steps<P>)
    requires { spec.FitsIn (bounds_of rect) rows.old }
    ensures { spec.IsDrawn (λ x y under. if inside rect x y then pixel entries.now x y else under)
        (in_span rect.y rect.h) (spec.writes entries.now rect) rows.old rows.new painted.old painted.new }
{
    let area = bounds_of(rect);
    lay_shape(rows, area, &Shape::Fill { rect, color: WHITE }, painted);
    lay_entries(rows, area, entries, painted);
}

fn lay_entries<P: Ledger>(rows: &mut [Row], area: Bounds, entries: &[Entry], painted: &mut Steps<P>)
    requires { spec.FitsIn area rows.old }
    ensures { spec.IsDrawn (spec.laid_in area (shapes_of entries.now)) (in_range area.min_y area.max_y)
        (sum_by (spec.points_of area) (shapes_of entries.now)) rows.old rows.new painted.old painted.new }
{
    for entry in entries {
        lay_shapes(rows, area, entry.shapes.as_slice(), painted);
    }
}

fn lay_shapes<P: Ledger>(rows: &mut [Row], area: Bounds, shapes: &[Shape], painted: &mut Steps<P>)
    requires { spec.FitsIn area rows.old }
    ensures { spec.IsDrawn (spec.laid_in area shapes.now) (in_range area.min_y area.max_y)
        (sum_by (spec.points_of area) shapes.now) rows.old rows.new painted.old painted.new }
{
    for shape in shapes {
        lay_shape(rows, area, shape, painted);
    }
}

/// Lays a shape over an area.
#[inline(always)]
fn lay_shape<P: Ledger>(rows: &mut [Row], area: Bounds, shape: &Shape, painted: &mut Steps<P>)
    requires { spec.FitsIn area rows.old }
    ensures { spec.IsDrawn (spec.laid_in area (shape.now ∷ [])) (in_range area.min_y area.max_y)
        (spec.points_of area shape.now) rows.old rows.new painted.old painted.new }
{
    if begins_below(area, shape) {
        return;
    }
    lay_cut(rows, area, shape, painted);
}

/// Whether all of a shape lies below an area. Its bounds aren't worked out for that.
#[inline(always)]
fn begins_below(area: Bounds, shape: &Shape) -> bool
    ensures { result ≡ int_le area.max_y (spec.first_row shape.now) }
{
    area.max_y <= i128::from(first_row(shape))
}

/// The row before which nothing of a shape shows.
#[inline(always)]
fn first_row(shape: &Shape) -> i64
    ensures { result ≡ spec.first_row shape.now }
{
    match shape {
        Shape::Fill { rect, .. } => rect.y,
        Shape::Letters { clip, .. } => clip.y,
    }
}

/// Lays what an area shows of a shape.
fn lay_cut<P: Ledger>(rows: &mut [Row], area: Bounds, shape: &Shape, painted: &mut Steps<P>)
    requires { spec.FitsIn area rows.old }
    ensures { spec.IsDrawn (spec.laid_in area (shape.now ∷ [])) (in_range area.min_y area.max_y)
        (spec.points_of area shape.now) rows.old rows.new painted.old painted.new }
{
    if is_clipped_away(area, shape) {
        return;
    }
    let cut = meeting(area, bounds(shape));
    if is_empty(cut) {
        return;
    }
    lay_block(rows, block_of(cut), shape, painted);
}

/// Is it letters whose clip lies outside an area? Their cells aren't counted for that.
fn is_clipped_away(area: Bounds, shape: &Shape) -> bool
    ensures { result ≡ true → is_empty (meet area (bounds shape.now)) ≡ true }
{
    match shape {
        Shape::Letters { clip, .. } => is_empty(meeting(area, bounds_of(*clip))),
        Shape::Fill { .. } => false,
    }
}

/// Lays a shape over a block, which lies within its bounds.
fn lay_block<P: Ledger>(rows: &mut [Row], block: Block, shape: &Shape, painted: &mut Steps<P>)
    requires { spec.IsBlock block (bounds shape.now) rows.old }
    ensures { spec.IsDrawn (spec.laid_above block block.bottom shape.now) (is_in block.top block.bottom)
        (spec.points_above block block.bottom shape.now) rows.old rows.new painted.old painted.new }
{
    match ink(color_of(shape)) {
        Some(pixel) => lay_opaque(rows, block, shape, pixel, painted),
        None => lay_rows(rows, block, shape, painted),
    }
}

/// The same where the shape's colour is opaque: it makes any pixel this one.
fn lay_opaque<P: Ledger>(
    rows: &mut [Row],
    block: Block,
    shape: &Shape,
    pixel: u32,
    painted: &mut Steps<P>,
)
    requires block { spec.IsBlock block (bounds shape.now) rows.old }
    requires ink { IsInk (color_of shape.now) pixel }
    ensures { spec.IsDrawn (spec.laid_above block block.bottom shape.now) (is_in block.top block.bottom)
        (spec.points_above block block.bottom shape.now) rows.old rows.new painted.old painted.new }
{
    channel_laws(color_of(shape));
    match shape {
        Shape::Fill { color, .. } => lay_fill(rows, block, *color, pixel, painted),
        Shape::Letters {
            x,
            y,
            scale,
            text,
            color,
            ..
        } => {
            let columns = Columns {
                left: block.left,
                right: block.right,
            };
            match near_pen(columns, block.top as u32, *x, *y, *scale, *color) {
                Some(pen) => lay_letters(rows, block, &pen, pixel, *x, text.as_str(), painted),
                None => lay_rows(rows, block, shape, painted),
            }
        }
    }
}

/// Fills a block with an opaque colour.
fn lay_fill<P: Ledger>(
    rows: &mut [Row],
    block: Block,
    color: Color,
    pixel: u32,
    painted: &mut Steps<P>,
)
    requires rows { spec.HasRows (spec.block_pen block color) block.top block.bottom rows.old }
    requires ink { IsInk color pixel }
    ensures { spec.AreDotted (spec.block_pen block color) block.top block.bottom block.bottom
        (λ x y. is_in block.left block.right x) rows.old rows.new painted.old painted.new }
{
    let pen = Pen {
        left: block.left,
        right: block.right,
        scale: 1,
        below: 0,
        color,
    };
    fill_rows(rows, block, &pen, pixel, painted);
}

/// Lays a shape over a block, which lies within its bounds, row by row.
fn lay_rows<P: Ledger>(rows: &mut [Row], block: Block, shape: &Shape, painted: &mut Steps<P>)
    requires { spec.IsBlock block (bounds shape.now) rows.old }
    ensures { spec.IsDrawn (spec.laid_above block block.bottom shape.now) (is_in block.top block.bottom)
        (spec.points_above block block.bottom shape.now) rows.old rows.new painted.old painted.new }
{
    let columns = Columns {
        left: block.left,
        right: block.right,
    };
    channel_laws(color_of(shape));
    let brush = Brush::new(shape);
    for y in block.top..block.bottom {
        rows[y].lay(columns, y as u32, &brush, painted);
    }
}

/// Promises on a colour: each of its channels is a byte.
fn channel_laws(color: Color)
    ensures { spec.HasBytes color }
{}
