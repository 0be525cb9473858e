//! Shapes: rectangles of one colour, and letters.
ghost use Rattle.std.specs.Prelude.{◌≡◌, ◌+ℤ◌, ◌*◌, ◌≤◌, ◌↔◌, IsTrue, IfOk, chars, pos};
ghost use Rattle.fx_cells.specs.Columns.{cells_of};
ghost use Rattle.fx_picture.specs.Shapes.{bounds, cells_bounds, color_of, whole};

use crate::edges::{Bounds, bounds_of, meeting};
use crate::sameness::{same_color, same_rect, same_text};
use fx_base::{Color, Duplicate, Rect, Same, Text};
use fx_cells::cells;
use std::alloc::{AllocError, Global};

/// What is painted of a node. Places and lengths are in pixels, columns and rows from the window's upper left corner.
#[derive(Drop)]
pub enum Shape {
    /// A rectangle of one colour.
    Fill {
        rect: Rect,
        color: Color,
    },
    /// One line of text. Its first cell begins at `x` and `y`; each cell is four `scale`s wide and six high, and
    /// nothing is painted outside `clip`.
    Letters {
        x: i64,
        y: i64,
        scale: i64,
        text: Text,
        clip: Rect,
        color: Color,
    },
}

impl Shape {
    /// A shape of the same contents.
    pub fn copy(&self, alloc: Global) -> Result<Shape, AllocError>
        ensures { IfOk result (λ copy. copy ≡ self.now) }
    {
        match self {
            Shape::Fill { rect, color } => Ok(Shape::Fill {
                rect: *rect,
                color: *color,
            }),
            Shape::Letters {
                x,
                y,
                scale,
                text,
                clip,
                color,
            } => Ok(Shape::Letters {
                x: *x,
                y: *y,
                scale: *scale,
                text: text.copy(alloc)?,
                clip: *clip,
                color: *color,
            }),
        }
    }
}

impl Duplicate for Shape {
    fn duplicate(&self, alloc: Global) -> Result<Self, AllocError> {
        self.copy(alloc)
    }
}

impl Same for Shape {
    #[inline(always)]
    fn is_same(&self, other: &Self) -> bool {
        match (self, other) {
            (
                Shape::Fill { rect, color },
                Shape::Fill {
                    rect: other_rect,
                    color: other_color,
                },
            ) => same_color(*color, *other_color) && same_rect(*rect, *other_rect),
            (
                Shape::Letters {
                    x,
                    y,
                    scale,
                    text,
                    clip,
                    color,
                },
                Shape::Letters {
                    x: other_x,
                    y: other_y,
                    scale: other_scale,
                    text: other_text,
                    clip: other_clip,
                    color: other_color,
                },
            ) => {
                *x == *other_x
                    && *y == *other_y
                    && *scale == *other_scale
                    && same_color(*color, *other_color)
                    && same_rect(*clip, *other_clip)
                    && same_text(text.as_str(), other_text.as_str())
            }
            _ => false,
        }
    }
}

/// The colour of a shape.
pub fn color_of(shape: &Shape) -> Color
    ensures { result ≡ color_of shape.now }
{
    match shape {
        Shape::Fill { color, .. } => *color,
        Shape::Letters { color, .. } => *color,
    }
}

/// The bounds of a shape: of a fill its rectangle, of letters the box of their cells, cut to their clip.
pub fn bounds(shape: &Shape) -> Bounds
    ensures { result ≡ bounds shape.now }
{
    match shape {
        Shape::Fill { rect, .. } => bounds_of(*rect),
        Shape::Letters {
            x,
            y,
            scale,
            text,
            clip,
            ..
        } => meeting(cells_bounds(*x, *y, *scale, text), bounds_of(*clip)),
    }
}

fn cells_bounds(x: i64, y: i64, scale: i64, text: &Text) -> Bounds
    ensures { result ≡ cells_bounds x y scale text.now }
{
    let scale = whole(scale);
    Bounds {
        min_x: i128::from(x),
        min_y: i128::from(y),
        max_x: behind(x, scale, 4 * cell_count(text)),
        max_y: behind(y, scale, 6),
    }
}

/// So many scales behind a place.
fn behind(place: i64, scale: u64, count: u64) -> i128
    requires scale { scale ≤ 9223372036854775807 }
    requires count { count ≤ 65536 }
    ensures { result ≡ place +ℤ pos (count * scale) }
{
    i128::from(place) + i128::from(count) * i128::from(scale)
}

/// The cells of a text; no character has more than three.
fn cell_count(text: &Text) -> u64
    ensures value { result ≡ cells_of (chars text.now) }
    ensures most { result ≤ 12288 }
{
    cells(text.as_str())
}

/// A number as a natural one, which is 0 for all below 0.
fn whole(n: i64) -> u64
    ensures value { result ≡ whole n }
    ensures most { result ≤ 9223372036854775807 }
{
    if n < 0 { 0 } else { n as u64 }
}
