//! What lays a shape row by row: what is the same for all rows is worked out once.
ghost use Rattle.std.specs.Prelude.{◌≡◌, ◌≤◌, ◌<◌, ◌^◌, ◌-ℤ◌, ◌≤ℤ◌, IfSome, max, negsuc, pos};
ghost use Rattle.fx_pens.specs.Dots.{IsInk, IsLaid, is_in};
ghost use Rattle.fx_pens.specs.Shapes.{AreColumns, LieWithin, first_column, letters_pen, plain_pen, scale_of};
ghost use Rattle.fx_picture.specs.Shapes.{bounds, color_of, holds, whole};

use crate::letters::lay_line;
use crate::near::is_near;
use crate::spans::{Columns, Pen, ink, lay_span};
use fx_base::{Color, Steps};
use fx_picture::{Shape, color_of};
use std::marker::Model;
use std::sync::ledger::Ledger;

/// A brush for a shape. Contracts see the shape.
#[derive(Drop)]
pub struct Brush<'a> {
    shape: &'a Shape,
    color: Color,
    ink: Option<u32>,
    scale: u64,
    is_near: bool,
}

impl<'a> Model for Brush<'a> {
    ghost use Rattle.fx_pens.specs.Shapes.{IsMixed};
    ghost use Rattle.fx_picture.specs.declared.shapes.Shape.{Shape};

    ghost Value = { Shape };

    ghost view = { λ brush. brush.shape.now };

    ghost invariant = { λ brush. IsMixed brush.shape.now brush.color brush.ink brush.scale brush.is_near };
}

impl<'a> Brush<'a> {
    /// A brush for this shape.
    pub fn new(shape: &'a Shape) -> Brush<'a>
        ensures { result ≡ shape.now }
    {
        let color = color_of(shape);
        let scale = scale_of(shape);
        Brush {
            shape,
            color,
            ink: ink(color),
            scale,
            is_near: is_near(scale, first_column(shape)),
        }
    }

    /// Paints row `y` of the shape, from one column on and before another. Those columns lie within the shape's bounds.
    /// Each pixel that the shape holds is laid over once, and counted.
    #[inline(always)]
    pub fn lay<P: Ledger>(&self, row: &mut [u32], part: Columns, y: u32, painted: &mut Steps<P>)
        requires columns { AreColumns part row.old }
        requires bounds { LieWithin (bounds self.now) part y }
        ensures { IsLaid (plain_pen part (color_of self.now)) (λ x. holds self.now x y) row.old row.new
            painted.old painted.new }
    {
        match self.shape {
            Shape::Fill { .. } => lay_all(row, part, self.color, self.ink, painted),
            Shape::Letters {
                x,
                y: first,
                text,
                ..
            } => {
                let pen = Pen {
                    left: part.left,
                    right: part.right,
                    scale: self.scale,
                    below: below(y, *first),
                    color: self.color,
                };
                lay_line(
                    row,
                    &pen,
                    self.ink,
                    self.is_near,
                    *x,
                    text.as_str(),
                    painted,
                );
            }
        }
    }
}

/// The pen for the rows of letters from this one on, if they begin at small numbers and are not huge. Bits of one pixel
/// are left to the brush, which writes them without spans.
pub fn near_pen(part: Columns, top: u32, x: i64, y: i64, scale: i64, color: Color) -> Option<Pen>
    ensures pen { IfSome result (λ pen. pen ≡ letters_pen part top y scale color) }
    ensures some { IfSome result (λ pen. 0 < pen.scale) }
    ensures scale { IfSome result (λ pen. pen.scale ≤ 65536) }
    ensures near { IfSome result (λ pen. negsuc (2 ^ 40) ≤ℤ x) }
    ensures below { IfSome result (λ pen. pen.below ≤ 393216) }
{
    let size = some_scale(scale);
    let rows = below(top, y);
    if size == 1 {
        return None;
    }
    if !is_near(size, x) {
        return None;
    }
    if rows > 393_216 {
        return None;
    }
    Some(Pen {
        left: part.left,
        right: part.right,
        scale: size,
        below: rows,
        color,
    })
}

/// Paints all of the columns.
#[inline(always)]
fn lay_all<P: Ledger>(
    row: &mut [u32],
    part: Columns,
    color: Color,
    ink: Option<u32>,
    painted: &mut Steps<P>,
)
    requires columns { AreColumns part row.old }
    requires ink { IfSome ink (IsInk color) }
    ensures { IsLaid (plain_pen part color) (is_in part.left part.right) row.old row.new painted.old painted.new }
{
    let pen = Pen {
        left: part.left,
        right: part.right,
        scale: 1,
        below: 0,
        color,
    };
    lay_span(row, &pen, ink, part.left, part.right, painted);
}

/// How wide and high a bit of a shape's glyphs is, which is one at least.
fn scale_of(shape: &Shape) -> u64
    ensures value { result ≡ scale_of shape.now }
    ensures some { 1 ≤ result }
    ensures most { result ≤ 9223372036854775807 }
{
    match shape {
        Shape::Fill { .. } => 1,
        Shape::Letters { scale, .. } => some_scale(*scale),
    }
}

/// A scale, which is one at least.
fn some_scale(scale: i64) -> u64
    ensures value { result ≡ max (whole scale) 1 }
    ensures some { 1 ≤ result }
    ensures most { result ≤ 9223372036854775807 }
{
    if scale < 1 { 1 } else { scale as u64 }
}

/// Where a shape's letters begin.
fn first_column(shape: &Shape) -> i64
    ensures { result ≡ first_column shape.now }
{
    match shape {
        Shape::Fill { .. } => 0,
        Shape::Letters { x, .. } => *x,
    }
}

/// How far a row lies below another, which may begin above the window.
fn below(y: u32, first: i64) -> u64
    ensures { result ≡ whole (pos y -ℤ first) }
{
    let rows = i128::from(y) - i128::from(first);
    if rows < 0 { 0 } else { rows as u64 }
}
