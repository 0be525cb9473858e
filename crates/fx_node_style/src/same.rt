//! Are two looks the same?
ghost use Rattle.std.specs.Prelude.{◌≡◌, ◌↔◌, IsTrue};

use fx_base::{Same, Sides};
use fx_look::Look;

/// Whether two looks are the same, field by field. No list is copied.
pub fn is_same_look(one: &Look, other: &Look) -> bool
    ensures { IsTrue result ↔ (one.now ≡ other.now) }
{
    are_same_places(one, other)
        && are_same_spaces(one, other)
        && are_same_limits(one, other)
        && are_same_preferred(one, other)
        && are_same_truths(one, other)
        && are_same_colors(one, other)
        && are_same_layers(one, other)
}

fn are_same_places(one: &Look, other: &Look) -> bool
    ensures { IsTrue result ↔ ((one.now.padding ≡ other.now.padding) × (one.now.alignment ≡ other.now.alignment)) }
{
    is_same_sides(&one.padding, &other.padding) && one.alignment == other.alignment
}

fn is_same_sides(one: &Sides, other: &Sides) -> bool
    ensures { IsTrue result ↔ (one.now ≡ other.now) }
{
    one.is_same(other)
}

fn is_same_length(one: i64, other: i64) -> bool
    ensures { IsTrue result ↔ (one ≡ other) }
{
    one == other
}

fn are_same_spaces(one: &Look, other: &Look) -> bool
    ensures { IsTrue result ↔ ((one.now.spacing ≡ other.now.spacing) × (one.now.hgap ≡ other.now.hgap)
        × (one.now.vgap ≡ other.now.vgap) × (one.now.font_size ≡ other.now.font_size)) }
{
    is_same_length(one.spacing, other.spacing)
        && is_same_length(one.hgap, other.hgap)
        && is_same_length(one.vgap, other.vgap)
        && is_same_length(one.font_size, other.font_size)
}

fn are_same_limits(one: &Look, other: &Look) -> bool
    ensures { IsTrue result ↔ ((one.now.min_width ≡ other.now.min_width) × (one.now.min_height ≡ other.now.min_height)
        × (one.now.max_width ≡ other.now.max_width) × (one.now.max_height ≡ other.now.max_height)) }
{
    is_same_length(one.min_width, other.min_width)
        && is_same_length(one.min_height, other.min_height)
        && is_same_length(one.max_width, other.max_width)
        && is_same_length(one.max_height, other.max_height)
}

fn are_same_preferred(one: &Look, other: &Look) -> bool
    ensures { IsTrue result ↔ ((one.now.pref_width ≡ other.now.pref_width)
        × (one.now.pref_height ≡ other.now.pref_height)) }
{
    is_same_length(one.pref_width, other.pref_width)
        && is_same_length(one.pref_height, other.pref_height)
}

fn are_same_truths(one: &Look, other: &Look) -> bool
    ensures { IsTrue result ↔ ((one.now.fill_width ≡ other.now.fill_width)
        × (one.now.fill_height ≡ other.now.fill_height) × (one.now.wrap_text ≡ other.now.wrap_text)
        × (one.now.visibility ≡ other.now.visibility)) }
{
    one.fill_width == other.fill_width
        && one.fill_height == other.fill_height
        && one.wrap_text == other.wrap_text
        && one.visibility == other.visibility
}

fn are_same_colors(one: &Look, other: &Look) -> bool
    ensures { IsTrue result ↔ ((one.now.background_color ≡ other.now.background_color)
        × (one.now.border_color ≡ other.now.border_color) × (one.now.text_fill ≡ other.now.text_fill)) }
{
    one.background_color.is_same(&other.background_color)
        && one.border_color.is_same(&other.border_color)
        && one.text_fill.is_same(&other.text_fill)
}

fn are_same_layers(one: &Look, other: &Look) -> bool
    ensures { IsTrue result ↔ ((one.now.background_insets ≡ other.now.background_insets)
        × (one.now.border_width ≡ other.now.border_width) × (one.now.border_insets ≡ other.now.border_insets)) }
{
    one.background_insets.is_same(&other.background_insets)
        && one.border_width.is_same(&other.border_width)
        && one.border_insets.is_same(&other.border_insets)
}
