//! Insets of looks, side by side.
ghost use Rattle.std.specs.Prelude.{◌≡◌, ◌≤◌, ◌≤ℤ◌, ◌+ℤ◌, pos, negsuc};
ghost use Rattle.std.specs.Option.{ForSome};
ghost use Rattle.fx_insets.specs.Insets.{IsReach, border_end, border_reach, greater, inset_on, insets_of, layer_at, on};
ghost use Rattle.fx_panes_parts.specs.Lengths.{length_of};

use fx_base::Sides;
use fx_look::Look;
use fx_panes_parts::{length_of, pixels, place_of};

/// One of the four sides of a rectangle.
#[derive(Clone, Copy, PartialEq, Eq, Debug)]
pub enum Side {
    Top,
    Right,
    Bottom,
    Left,
}

/// The insets of a node of this look, in pixels from 0 to 100,000.
pub fn insets_of(look: &Look) -> Sides
    ensures { result ≡ insets_of look.now }
{
    Sides {
        top: pixels(inset_on(Side::Top, look)),
        right: pixels(inset_on(Side::Right, look)),
        bottom: pixels(inset_on(Side::Bottom, look)),
        left: pixels(inset_on(Side::Left, look)),
    }
}

/// The number of this side.
pub fn on(side: Side, sides: Sides) -> i64
    ensures { result ≡ on side sides }
{
    match side {
        Side::Top => sides.top,
        Side::Right => sides.right,
        Side::Bottom => sides.bottom,
        Side::Left => sides.left,
    }
}

/// The numbers of a layer. Where there are fewer than layers, the last ones count again (JavaFX CSS Reference Guide,
/// lists of insets and widths).
pub fn layer_at(layers: &[Sides], i: usize) -> Sides
    ensures { result ≡ layer_at layers.now i }
{
    match layers.get(i.min(layers.len().saturating_sub(1))) {
        Some(sides) => *sides,
        None => Sides {
            top: 0,
            right: 0,
            bottom: 0,
            left: 0,
        },
    }
}

/// The inset of a node of this look on a side.
#[tactic(auto, unfolding(crate::specs::Insets::inset_on))]
pub fn inset_on(side: Side, look: &Look) -> u64
    ensures { result ≡ inset_on side look.now }
{
    inset(border_reach(side, look), length_of(on(side, look.padding)))
}

/// What a border that reaches so far and a padding of this length take together.
fn inset(reach: i64, padding: u64) -> u64
    requires reach { IsReach reach }
    requires padding { padding ≤ 100000 }
    ensures { result ≡ length_of (reach +ℤ pos padding) }
{
    length_of(reach + padding as i64)
}

#[tactic(auto, using(crate::proofs::Folding::fold_next), unfolding(crate::specs::Insets::border_reach))]
fn border_reach(side: Side, look: &Look) -> i64
    ensures value { result ≡ border_reach side look.now }
    ensures bounds { IsReach result }
{
    let mut best = None;
    for i in 0..look.border_color.as_slice().len() {
        best = greater(best, border_end(side, look, i));
    }
    best.unwrap_or(0)
}

#[tactic(auto, unfolding(crate::specs::Insets::border_end))]
fn border_end(side: Side, look: &Look, i: usize) -> i64
    ensures value { result ≡ border_end side look.now i }
    ensures bounds { IsReach result }
{
    behind(
        length_of(on(side, layer_at(look.border_width.as_slice(), i))),
        place_of(on(side, layer_at(look.border_insets.as_slice(), i))),
    )
}

/// So far behind the end of a length.
fn behind(length: u64, place: i64) -> i64
    requires length { length ≤ 100000 }
    requires place { (negsuc 99999 ≤ℤ place) × (place ≤ℤ pos 100000) }
    ensures value { result ≡ pos length +ℤ place }
    ensures bounds { IsReach result }
{
    length as i64 + place
}

fn greater(best: Option<i64>, n: i64) -> Option<i64>
    requires near { IsReach n }
    requires best { ForSome best IsReach }
    ensures value { result ≡ greater best n }
    ensures near { ForSome result IsReach }
{
    match best {
        None => Some(n),
        Some(best) => Some(best.max(n)),
    }
}
