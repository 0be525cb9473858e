//! What the children that are alone in a column or row need there, in one pass over the children.
//! It stands below the tracks.
ghost use Rattle.std.specs.Prelude.{◌≡◌, ℕ, ◌+◌, ◌<◌, ◌≤◌, All, length, replicate, slice_index_or};
ghost use Rattle.fx_grid.specs.declared.needs.Need.{Need};
ghost use Rattle.fx_panes_parts.specs.Axes.{IsChildAxis, along};
ghost use Rattle.fx_grid.specs.Tracks.{AreNeeds, IsWithin, alone, alone_grow, is_alone, no_need, raised};

use fx_base::ChildSize;
use fx_panes::{Bound, outer_by};
use fx_panes_parts::{Axis, ChildAxis, child_axis};

/// What a track has to hold: the greatest minimum and preferred length of the children that are alone in it, with their
/// margins, in pixels, and the greatest number of their priorities.
#[derive(Clone, Copy, PartialEq, Eq, Debug)]
pub struct Need {
    pub least: u64,
    pub wish: u64,
    pub grow: u8,
}

/// What a track holds that has no child.
pub(crate) const NO_NEED: Need = Need {
    least: 0,
    wish: 0,
    grow: 0,
};

/// Fills in what is needed in each of these tracks, which need nothing yet. It begins with the last child.
pub(crate) fn fill_needs(axis: Axis, children: &[ChildSize], needs: &mut [Need])
    requires none { needs.old ≡ replicate (length needs.old) no_need }
    requires within { All (IsWithin axis (length needs.old)) children.now }
    ensures { AreNeeds (length needs.old) (along axis children.now) needs.new }
{
    let mut place = children.len();
    while place > 0 {
        place -= 1;
        raise(&child_axis(axis, &children[place]), needs);
    }
}

/// Raises what is needed in the track in which this child is alone.
fn raise(child: &ChildAxis, needs: &mut [Need])
    requires child { IsChildAxis child.now }
    requires within { child.now.index + child.now.span ≤ length needs.old }
    ensures { (k : ℕ) (other : Need) → k < length needs.old
        → slice_index_or needs.new k other ≡ raised child.now k (slice_index_or needs.old k other) }
{
    if child.span == 1 {
        let k = child.index as usize;
        needs[k] = raised(child, k, needs[k]);
    }
}

#[tactic(auto, unfolding(crate::specs::Tracks::raised))]
fn raised(child: &ChildAxis, k: usize, need: Need) -> Need
    requires { IsChildAxis child.now }
    ensures { result ≡ raised child.now k need }
{
    Need {
        least: alone(Bound::Minimum, k, child).max(need.least),
        wish: alone(Bound::Preferred, k, child).max(need.wish),
        grow: alone_grow(k, child).max(need.grow),
    }
}

#[tactic(auto, unfolding(crate::specs::Tracks::alone_grow))]
fn alone_grow(k: usize, child: &ChildAxis) -> u8
    ensures { result ≡ alone_grow k child.now }
{
    if is_alone(k, child) {
        child.grow.unwrap_or(0)
    } else {
        0
    }
}

#[tactic(auto, unfolding(crate::specs::Tracks::alone))]
fn alone(bound: Bound, k: usize, child: &ChildAxis) -> u64
    requires { IsChildAxis child.now }
    ensures { result ≡ alone bound k child.now }
{
    if is_alone(k, child) {
        outer_by(bound, child)
    } else {
        0
    }
}

fn is_alone(k: usize, child: &ChildAxis) -> bool
    ensures { result ≡ is_alone k child.now }
{
    child.span == 1 && child.index as usize == k
}
