//! The fills of a look: layers of the background, and strips of the border.
ghost use Rattle.std.specs.Prelude.{◌≡◌, ◌++◌, ◌∷◌, [], ◌≤ℤ◌, ◌+ℤ◌, ◌-ℤ◌, ◌⊎◌, OnOk, int_lt, not, pos, negsuc};
ghost use Rattle.fx_insets.specs.Insets.{on};
ghost use Rattle.fx_panes_parts.specs.Lengths.{place_of};
ghost use Rattle.fx_picture.specs.Bounds.{bounds_of, is_empty};
ghost use Rattle.fx_shapes.specs.Drawings.{is_shown, shown};
ghost use Rattle.fx_shapes.specs.Layers as spec;
ghost use Rattle.fx_shapes.specs.Rects.{AreLimited, AreShort, IsNear, IsNearby};

use fx_base::{Color, Rect, Sides};
use fx_insets::{Side, layer_at, on};
use fx_look::Look;
use fx_panes_parts::{length_of, place_of};
use fx_picture::Shape;
use std::alloc::AllocError;

/// Adds the layers of the background that show.
pub(crate) fn add_backgrounds(
    shapes: &mut Vec<Shape>,
    look: &Look,
    rect: Rect,
) -> Result<(), AllocError>
    requires { IsNear rect }
    ensures { OnOk result (shapes.new.items ≡ shapes.old.items ++ shown (spec.backgrounds look.now rect)) }
{
    for (layer, color) in look.background_color.as_slice().iter().enumerate() {
        add_background(shapes, look, rect, layer, *color)?;
    }
    Ok(())
}

fn add_background(
    shapes: &mut Vec<Shape>,
    look: &Look,
    rect: Rect,
    layer: usize,
    color: Color,
) -> Result<(), AllocError>
    requires { IsNear rect }
    ensures { OnOk result (shapes.new.items
        ≡ shapes.old.items ++ shown (spec.background_at look.now rect (layer, color) ∷ [])) }
{
    let insets = layer_at(look.background_insets.as_slice(), layer);
    add_fill(shapes, inner(rect, insets), color)
}

/// Adds the strips of the border that show.
pub(crate) fn add_borders(
    shapes: &mut Vec<Shape>,
    look: &Look,
    rect: Rect,
) -> Result<(), AllocError>
    requires { IsNear rect }
    ensures { OnOk result (shapes.new.items ≡ shapes.old.items ++ shown (spec.borders look.now rect)) }
{
    for (layer, color) in look.border_color.as_slice().iter().enumerate() {
        add_border(shapes, look, rect, layer, *color)?;
    }
    Ok(())
}

fn add_border(
    shapes: &mut Vec<Shape>,
    look: &Look,
    rect: Rect,
    layer: usize,
    color: Color,
) -> Result<(), AllocError>
    requires { IsNear rect }
    ensures { OnOk result (shapes.new.items
        ≡ shapes.old.items ++ shown (spec.border_layer look.now rect (layer, color))) }
{
    let insets = layer_at(look.border_insets.as_slice(), layer);
    let widths = layer_at(look.border_width.as_slice(), layer);
    add_strips(shapes, inner(rect, insets), widths, color)
}

/// Adds a fill, if it shows.
#[inline]
fn add_fill(shapes: &mut Vec<Shape>, rect: Rect, color: Color) -> Result<(), AllocError>
    ensures { OnOk result (shapes.new.items ≡ shapes.old.items ++ shown (Shape.Fill rect color ∷ [])) }
{
    if !shows(rect, color) {
        return Ok(());
    }
    shapes.push(Shape::Fill { rect, color })?;
    Ok(())
}

/// Whether a fill shows.
fn shows(rect: Rect, color: Color) -> bool
    ensures { result ≡ is_shown (Shape.Fill rect color) }
{
    color.a > 0 && has_area(rect)
}

/// Whether a rectangle holds a point.
fn has_area(rect: Rect) -> bool
    ensures { result ≡ not (is_empty (bounds_of rect)) }
{
    is_wide(rect) && is_high(rect)
}

pub(crate) fn is_wide(rect: Rect) -> bool
    ensures { result ≡ int_lt (pos 0) rect.w }
{
    rect.w > 0
}

fn is_high(rect: Rect) -> bool
    ensures { result ≡ int_lt (pos 0) rect.h }
{
    rect.h > 0
}

/// Adds a shape where it shows.
pub(crate) fn add_if(shapes: &mut Vec<Shape>, shape: Shape, shows: bool) -> Result<(), AllocError>
    requires { shows ≡ is_shown shape }
    ensures { OnOk result (shapes.new.items ≡ shapes.old.items ++ shown (shape ∷ [])) }
{
    if shows {
        shapes.push(shape)?;
    }
    Ok(())
}

fn add_strips(
    shapes: &mut Vec<Shape>,
    rect: Rect,
    widths: Sides,
    color: Color,
) -> Result<(), AllocError>
    requires { IsNearby rect }
    ensures { OnOk result (shapes.new.items ≡ shapes.old.items ++ shown (spec.strips rect widths color)) }
{
    let widths = cut_widths(rect, widths);
    add_fill(shapes, strip_on(Side::Top, rect, widths), color)?;
    add_fill(shapes, strip_on(Side::Bottom, rect, widths), color)?;
    add_fill(shapes, strip_on(Side::Left, rect, widths), color)?;
    add_fill(shapes, strip_on(Side::Right, rect, widths), color)
}

/// The rectangle of a layer with these insets.
fn inner(rect: Rect, insets: Sides) -> Rect
    requires { IsNear rect }
    ensures value { result ≡ spec.inner rect insets }
    ensures near { IsNearby result }
{
    shrunk(rect, placed(insets))
}

/// The lengths as layout takes them for places.
fn placed(sides: Sides) -> Sides
    ensures value { result ≡ spec.placed sides }
    ensures limited { AreLimited result }
{
    Sides {
        top: place_on(Side::Top, sides),
        right: place_on(Side::Right, sides),
        bottom: place_on(Side::Bottom, sides),
        left: place_on(Side::Left, sides),
    }
}

fn place_on(side: Side, sides: Sides) -> i64
    ensures value { result ≡ place_of (on side sides) }
    ensures least { negsuc 99999 ≤ℤ result }
    ensures most { result ≤ℤ pos 100000 }
{
    place_of(on(side, sides))
}

/// A rectangle less these lengths on its sides.
pub(crate) fn shrunk(rect: Rect, sides: Sides) -> Rect
    requires near { IsNear rect }
    requires sides { AreLimited sides }
    ensures value { result ≡ spec.shrunk rect sides }
    ensures near { IsNearby result }
{
    Rect {
        x: rect.x + sides.left,
        y: rect.y + sides.top,
        w: less(rect.w, sides.left, sides.right),
        h: less(rect.h, sides.top, sides.bottom),
    }
}

/// A length less two others.
fn less(length: i64, one: i64, other: i64) -> i64
    requires length { (negsuc 1999999999999 ≤ℤ length) × (length ≤ℤ pos 2000000000000) }
    requires one { (negsuc 9999999999999 ≤ℤ one) × (one ≤ℤ pos 9999999999999) }
    requires other { (negsuc 9999999999999 ≤ℤ other) × (other ≤ℤ pos 9999999999999) }
    ensures { result ≡ length -ℤ (one +ℤ other) }
{
    length - (one + other)
}

/// The widths of the four strips in a rectangle.
fn cut_widths(rect: Rect, widths: Sides) -> Sides
    requires { IsNearby rect }
    ensures value { result ≡ spec.cut_widths rect widths }
    ensures short { AreShort result }
{
    Sides {
        top: top_width(rect, widths),
        right: right_width(rect, widths),
        bottom: bottom_width(rect, widths),
        left: left_width(rect, widths),
    }
}

fn top_width(rect: Rect, widths: Sides) -> i64
    requires { IsNearby rect }
    ensures value { result ≡ spec.strip widths.top rect.h }
    ensures least { negsuc 1999999999999 ≤ℤ result }
    ensures most { result ≤ℤ pos 100000 }
{
    strip(widths.top, rect.h)
}

fn bottom_width(rect: Rect, widths: Sides) -> i64
    requires { IsNearby rect }
    ensures value { result ≡ spec.strip widths.bottom (rect.h -ℤ spec.strip widths.top rect.h) }
    ensures least { negsuc 3999999999999 ≤ℤ result }
    ensures most { result ≤ℤ pos 100000 }
{
    strip(widths.bottom, rest_of(rect.h, top_width(rect, widths)))
}

fn left_width(rect: Rect, widths: Sides) -> i64
    requires { IsNearby rect }
    ensures value { result ≡ spec.strip widths.left rect.w }
    ensures least { negsuc 1999999999999 ≤ℤ result }
    ensures most { result ≤ℤ pos 100000 }
{
    strip(widths.left, rect.w)
}

fn right_width(rect: Rect, widths: Sides) -> i64
    requires { IsNearby rect }
    ensures value { result ≡ spec.strip widths.right (rect.w -ℤ spec.strip widths.left rect.w) }
    ensures least { negsuc 3999999999999 ≤ℤ result }
    ensures most { result ≤ℤ pos 100000 }
{
    strip(widths.right, rest_of(rect.w, left_width(rect, widths)))
}

/// What is left of a length.
fn rest_of(length: i64, taken: i64) -> i64
    requires length { (negsuc 1999999999999 ≤ℤ length) × (length ≤ℤ pos 2000000000000) }
    requires taken { (negsuc 1999999999999 ≤ℤ taken) × (taken ≤ℤ pos 100000) }
    ensures value { result ≡ length -ℤ taken }
    ensures least { negsuc 3999999999999 ≤ℤ result }
    ensures most { result ≤ℤ pos 4000000000000 }
{
    length - taken
}

/// What a strip of this width takes of a length.
#[tactic(auto, unfolding(crate::specs::Layers::strip))]
fn strip(width: i64, length: i64) -> i64
    requires { (negsuc 3999999999999 ≤ℤ length) × (length ≤ℤ pos 4000000000000) }
    ensures value { result ≡ spec.strip width length }
    ensures least { (negsuc 0 ≤ℤ result) ⊎ (length ≤ℤ result) }
    ensures most { result ≤ℤ pos 100000 }
{
    (length_of(width) as i64).min(length)
}

/// The strip on a side.
fn strip_on(side: Side, rect: Rect, widths: Sides) -> Rect
    requires near { IsNearby rect }
    requires short { AreShort widths }
    ensures { result ≡ spec.strip_on side rect widths }
{
    let between = less(rect.h, widths.top, widths.bottom);
    match side {
        Side::Top => Rect {
            h: widths.top,
            ..rect
        },
        Side::Bottom => Rect {
            y: rect.y + (rect.h - widths.bottom),
            h: widths.bottom,
            ..rect
        },
        Side::Left => Rect {
            x: rect.x,
            y: rect.y + widths.top,
            w: widths.left,
            h: between,
        },
        Side::Right => Rect {
            x: rect.x + (rect.w - widths.right),
            y: rect.y + widths.top,
            w: widths.right,
            h: between,
        },
    }
}
