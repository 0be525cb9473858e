//! Bounds of what is drawn, by their four edges (JavaFX `Bounds`). Edges are exact: no sum of two numbers of a shape
//! is past their end.
ghost use Rattle.std.specs.Prelude.{◌≡◌, ◌+ℤ◌};
ghost use Rattle.std.specs.Int.{int_max, int_min};
ghost use Rattle.fx_picture.specs.Bounds.{are_same, bounds_of, hull, is_empty, join, meet};

use fx_base::Rect;

/// The edges of what is drawn, in pixels: the least column and row, and those behind the greatest.
#[derive(Clone, Copy, PartialEq, Eq, Debug)]
pub struct Bounds {
    pub min_x: i128,
    pub min_y: i128,
    pub max_x: i128,
    pub max_y: i128,
}

/// The edges of a rectangle.
pub fn bounds_of(rect: Rect) -> Bounds
    ensures { result ≡ bounds_of rect }
{
    Bounds {
        min_x: i128::from(rect.x),
        min_y: i128::from(rect.y),
        max_x: end_of(rect.x, rect.w),
        max_y: end_of(rect.y, rect.h),
    }
}

/// Whether no point lies within.
pub fn is_empty(bounds: Bounds) -> bool
    ensures { result ≡ is_empty bounds }
{
    bounds.max_x <= bounds.min_x || bounds.max_y <= bounds.min_y
}

/// Whether the edges are the same.
pub fn same_bounds(one: Bounds, other: Bounds) -> bool
    ensures { result ≡ are_same one other }
{
    one.min_x == other.min_x
        && one.min_y == other.min_y
        && one.max_x == other.max_x
        && one.max_y == other.max_y
}

/// What two bounds have in common; it may be empty.
pub fn meeting(one: Bounds, other: Bounds) -> Bounds
    ensures { result ≡ meet one other }
{
    Bounds {
        min_x: greater(one.min_x, other.min_x),
        min_y: greater(one.min_y, other.min_y),
        max_x: lesser(one.max_x, other.max_x),
        max_y: lesser(one.max_y, other.max_y),
    }
}

/// The least bounds around both, of which one may be empty.
pub fn joined(one: Bounds, other: Bounds) -> Bounds
    ensures { result ≡ join one other }
{
    if is_empty(one) {
        return other;
    }
    if is_empty(other) {
        return one;
    }
    around(one, other)
}

fn around(one: Bounds, other: Bounds) -> Bounds
    ensures { result ≡ hull one other }
{
    Bounds {
        min_x: lesser(one.min_x, other.min_x),
        min_y: lesser(one.min_y, other.min_y),
        max_x: greater(one.max_x, other.max_x),
        max_y: greater(one.max_y, other.max_y),
    }
}

/// Where a length that begins here ends.
fn end_of(start: i64, length: i64) -> i128
    ensures { result ≡ start +ℤ length }
{
    i128::from(start) + i128::from(length)
}

fn greater(a: i128, b: i128) -> i128
    ensures { result ≡ int_max a b }
{
    a.max(b)
}

fn lesser(a: i128, b: i128) -> i128
    ensures { result ≡ int_min a b }
{
    a.min(b)
}
