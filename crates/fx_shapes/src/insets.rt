//! The insets of a node: what its padding and its border take of its rectangle.
ghost use Rattle.std.specs.Prelude.{◌≡◌, []};
ghost use Rattle.fx_insets.specs.Insets.{inset_on, insets_of};
ghost use Rattle.fx_shapes.specs.Rects.{AreLimited};

use fx_base::Sides;
use fx_insets::{Side, on};
use fx_look::Look;
use fx_panes_parts::{length_of, pixels};

/// The insets of a node with this look, each from 0 to 100,000 pixels (JavaFX `Region.getInsets`): its padding and,
/// on each side, the greatest of border inset plus border width over the border's layers.
pub fn insets_of(look: &Look) -> Sides
    ensures value { result ≡ insets_of look.now }
    ensures within { AreLimited result }
{
    if look.border_color.as_slice().is_empty() {
        return bare_insets(look);
    }
    fx_insets::insets_of(look)
}

/// The insets of a node without a border.
fn bare_insets(look: &Look) -> Sides
    requires { look.now.border_color ≡ [] }
    ensures { result ≡ insets_of look.now }
{
    Sides {
        top: pixels(padding_on(Side::Top, look)),
        right: pixels(padding_on(Side::Right, look)),
        bottom: pixels(padding_on(Side::Bottom, look)),
        left: pixels(padding_on(Side::Left, look)),
    }
}

/// The padding on a side, which is all that is there where there is no border.
#[inline]
fn padding_on(side: Side, look: &Look) -> u64
    requires { look.now.border_color ≡ [] }
    ensures { result ≡ inset_on side look.now }
{
    length_of(on(side, look.padding))
}
