//! Boxes whose edges fit in 64 bits, as those of shapes near the window do. Counting with them takes fewer steps than
//! with `Bounds`, and tells the same.
ghost use Rattle.std.specs.Prelude.{◌≡◌, ◌≤◌, ◌&&◌, ◌+ℤ◌, ◌*◌, IfSome, chars, map, pos, true};
ghost use Rattle.std.specs.Int.{int_max, int_min};
ghost use Rattle.std.specs.Option.{option_copied};
ghost use Rattle.fx_cells.specs.Columns.{cells_of};
ghost use Rattle.fx_damage.specs.Damage.{box_of};
ghost use Rattle.fx_damage.specs.Near.{IsNear, IsNearRect, are_near, encloses, is_near, is_near_rect, spans_across, spans_down, wide};
ghost use Rattle.fx_damage.specs.Windows.{IsInWindow};
ghost use Rattle.fx_picture.specs.Bounds.{are_same, bounds_of, hull, hull_of, is_empty, join, meet};
ghost use Rattle.fx_picture.specs.Shapes.{bounds, cells_bounds, whole};

use fx_base::{Rect, Text};
use fx_cells::cells;
use fx_picture::{Bounds, Entry, Shape};

/// The edges of a box: the least column and row, and those behind the greatest.
#[derive(Clone, Copy)]
pub struct Edges {
    pub min_x: i64,
    pub min_y: i64,
    pub max_x: i64,
    pub max_y: i64,
}

/// No number of a near shape lies farther from 0.
const FAR: i64 = 1_099_511_627_776;

/// A box in which no point lies.
const NOWHERE: Edges = Edges {
    min_x: 0,
    min_y: 0,
    max_x: 0,
    max_y: 0,
};

/// The bounding box of the shapes of a node, if it shows, unless one of them is far away.
#[tactic(auto, unfolding(crate::specs::Damage::box_of))]
pub(crate) fn near_box(entry: Option<&Entry>) -> Option<Edges>
    ensures { IfSome result (λ e. wide e ≡ box_of (option_copied entry.entry)) }
{
    match entry {
        Some(entry) => near_shapes(entry.shapes.as_slice()),
        None => Some(NOWHERE),
    }
}

fn near_shapes(shapes: &[Shape]) -> Option<Edges>
    ensures { IfSome result (λ e. wide e ≡ hull_of (map bounds shapes.now)) }
{
    let mut all = NOWHERE;
    for shape in shapes {
        if is_covered(shape, all) {
            continue;
        }
        match shape_edges(shape) {
            Some(edges) => all = joined(all, edges),
            None => return None,
        }
    }
    Some(all)
}

/// Whether a shape is letters whose clip lies within a box, so that their text needn't be counted.
fn is_covered(shape: &Shape, all: Edges) -> bool
    ensures { result ≡ true → join (wide all) (bounds shape.now) ≡ wide all }
{
    match shape {
        Shape::Fill { .. } => false,
        Shape::Letters { clip, .. } => is_around(all, *clip),
    }
}

/// Whether a box isn't empty and holds a rectangle, so that it grows by nothing that is cut to that.
fn is_around(all: Edges, rect: Rect) -> bool
    ensures { result ≡ true → (cut : Bounds) → join (wide all) (meet cut (bounds_of rect)) ≡ wide all }
{
    if is_vacant(all) {
        return false;
    }
    if !is_near_rect(rect) {
        return false;
    }
    encloses(all, rect_edges(rect))
}

/// Whether no edge of the second box lies outside the first.
fn encloses(outer: Edges, inner: Edges) -> bool
    ensures { result ≡ encloses (wide outer) (wide inner) }
{
    spans_across(outer, inner) && spans_down(outer, inner)
}

fn spans_across(outer: Edges, inner: Edges) -> bool
    ensures { result ≡ spans_across (wide outer) (wide inner) }
{
    outer.min_x <= inner.min_x && inner.max_x <= outer.max_x
}

fn spans_down(outer: Edges, inner: Edges) -> bool
    ensures { result ≡ spans_down (wide outer) (wide inner) }
{
    outer.min_y <= inner.min_y && inner.max_y <= outer.max_y
}

/// The bounds of a shape, unless it is far away.
fn shape_edges(shape: &Shape) -> Option<Edges>
    ensures { IfSome result (λ e. wide e ≡ bounds shape.now) }
{
    match shape {
        Shape::Fill { rect, .. } => fill_edges(*rect),
        Shape::Letters {
            x,
            y,
            scale,
            text,
            clip,
            ..
        } => letters_edges(*x, *y, *scale, text, *clip),
    }
}

fn fill_edges(rect: Rect) -> Option<Edges>
    ensures { IfSome result (λ e. wide e ≡ bounds_of rect) }
{
    if !is_near_rect(rect) {
        return None;
    }
    Some(rect_edges(rect))
}

fn letters_edges(x: i64, y: i64, scale: i64, text: &Text, clip: Rect) -> Option<Edges>
    ensures { IfSome result (λ e. wide e ≡ meet (cells_bounds x y scale text.now) (bounds_of clip)) }
{
    if !are_near(x, y, scale, clip) {
        return None;
    }
    Some(common(cells_edges(x, y, scale, text), rect_edges(clip)))
}

fn are_near(x: i64, y: i64, scale: i64, clip: Rect) -> bool
    ensures { result ≡ are_near x y scale clip }
{
    is_near_place(x, y) && (is_near(scale) && is_near_rect(clip))
}

fn is_near_place(x: i64, y: i64) -> bool
    ensures { result ≡ (is_near x && is_near y) }
{
    is_near(x) && is_near(y)
}

fn is_near_rect(rect: Rect) -> bool
    ensures { result ≡ is_near_rect rect }
{
    (is_near(rect.x) && is_near(rect.y)) && (is_near(rect.w) && is_near(rect.h))
}

fn is_near(n: i64) -> bool
    ensures { result ≡ is_near n }
{
    -FAR <= n && n <= FAR
}

fn rect_edges(rect: Rect) -> Edges
    requires { IsNearRect rect }
    ensures { wide result ≡ bounds_of rect }
{
    Edges {
        min_x: rect.x,
        min_y: rect.y,
        max_x: end_of(rect.x, rect.w),
        max_y: end_of(rect.y, rect.h),
    }
}

/// Where a length that begins here ends.
fn end_of(start: i64, length: i64) -> i64
    requires start { IsNear start }
    requires length { IsNear length }
    ensures { result ≡ start +ℤ length }
{
    start + length
}

#[tactic(auto, unfolding(fx_picture::specs::Shapes::cells_bounds))]
fn cells_edges(x: i64, y: i64, scale: i64, text: &Text) -> Edges
    requires x { IsNear x }
    requires y { IsNear y }
    requires scale { IsNear scale }
    ensures { wide result ≡ cells_bounds x y scale text.now }
{
    let scale = whole(scale);
    Edges {
        min_x: x,
        min_y: y,
        max_x: behind(x, scale, 4 * cell_count(text)),
        max_y: behind(y, scale, 6),
    }
}

/// So many scales behind a place.
fn behind(place: i64, scale: u64, count: u64) -> i64
    requires place { IsNear place }
    requires scale { scale ≤ 1099511627776 }
    requires count { count ≤ 65536 }
    ensures { result ≡ place +ℤ pos (count * scale) }
{
    place + (count * scale) as i64
}

/// The cells of a text; no character has more than three.
fn cell_count(text: &Text) -> u64
    ensures value { result ≡ cells_of (chars text.now) }
    ensures most { result ≤ 12288 }
{
    cells(text.as_str())
}

/// A number as a natural one, which is 0 for all below 0.
fn whole(n: i64) -> u64
    requires { IsNear n }
    ensures value { result ≡ whole n }
    ensures most { result ≤ 1099511627776 }
{
    if n < 0 { 0 } else { n as u64 }
}

/// A window, whose edges always fit.
pub(crate) fn near_window(window: Bounds) -> Edges
    requires { IsInWindow window }
    ensures { wide result ≡ window }
{
    Edges {
        min_x: window.min_x as i64,
        min_y: window.min_y as i64,
        max_x: window.max_x as i64,
        max_y: window.max_y as i64,
    }
}

/// The same edges as bounds.
pub(crate) fn widened(edges: Edges) -> Bounds
    ensures { result ≡ wide edges }
{
    Bounds {
        min_x: i128::from(edges.min_x),
        min_y: i128::from(edges.min_y),
        max_x: i128::from(edges.max_x),
        max_y: i128::from(edges.max_y),
    }
}

/// Whether no point lies within.
pub(crate) fn is_vacant(edges: Edges) -> bool
    ensures { result ≡ is_empty (wide edges) }
{
    edges.max_x <= edges.min_x || edges.max_y <= edges.min_y
}

/// Whether the edges are the same.
pub(crate) fn same_edges(one: Edges, other: Edges) -> bool
    ensures { result ≡ are_same (wide one) (wide other) }
{
    one.min_x == other.min_x
        && one.min_y == other.min_y
        && one.max_x == other.max_x
        && one.max_y == other.max_y
}

/// What two boxes have in common; it may be empty.
pub(crate) fn common(one: Edges, other: Edges) -> Edges
    ensures { wide result ≡ meet (wide one) (wide other) }
{
    Edges {
        min_x: greater(one.min_x, other.min_x),
        min_y: greater(one.min_y, other.min_y),
        max_x: lesser(one.max_x, other.max_x),
        max_y: lesser(one.max_y, other.max_y),
    }
}

/// The least box around both, of which one may be empty.
fn joined(one: Edges, other: Edges) -> Edges
    ensures { wide result ≡ join (wide one) (wide other) }
{
    if is_vacant(one) {
        return other;
    }
    if is_vacant(other) {
        return one;
    }
    around(one, other)
}

fn around(one: Edges, other: Edges) -> Edges
    ensures { wide result ≡ hull (wide one) (wide other) }
{
    Edges {
        min_x: lesser(one.min_x, other.min_x),
        min_y: lesser(one.min_y, other.min_y),
        max_x: greater(one.max_x, other.max_x),
        max_y: greater(one.max_y, other.max_y),
    }
}

fn greater(a: i64, b: i64) -> i64
    ensures { result ≡ int_max a b }
{
    a.max(b)
}

fn lesser(a: i64, b: i64) -> i64
    ensures { result ≡ int_min a b }
{
    a.min(b)
}
