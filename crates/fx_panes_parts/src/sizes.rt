//! Sizes by the look, lengths of children that fill or don't, and children in areas.
//! They stand on one axis each, between the facts along it and the panes' rules.
ghost use Rattle.std.specs.Prelude.{◌≡◌, ◌+◌, ◌^◌, ◌<◌, ◌≤◌};
ghost use Rattle.fx_panes_parts.specs.Axes.{IsChildAxis};
ghost use Rattle.fx_panes_parts.specs.Lengths.{length_of, longest};
ghost use Rattle.fx_panes_parts.specs.Sizes.{IsExtent, control_extent, filled_length, held, in_area, limited, pane_extent, preferred, resolved};

use crate::axes::{ChildAxis, Extent, OwnLengths, Span};
use crate::lengths::{aligned, length_of, pixels};

/// A length clamped between minimum and maximum.
pub fn held(extent: Extent, length: u64) -> u64
    ensures { result ≡ held extent length }
{
    length.min(extent.max).max(extent.min)
}

/// The length of a child in so much space: it fills the space, or else has its preferred length where there is
/// room, between its minimum and maximum.
pub fn filled_length(fill: bool, extent: Extent, space: u64) -> u64
    ensures { result ≡ filled_length fill extent space }
{
    if fill {
        held(extent, space)
    } else {
        extent.pref.min(space).max(extent.min)
    }
}

/// Minimum, preferred and maximum length of a pane or region, by its look and the computed minimum and preferred
/// length: without limits of its own it may grow without end.
pub fn pane_extent(own: OwnLengths, computed_min: u64, computed_pref: u64) -> Extent
    ensures value { result ≡ pane_extent own computed_min computed_pref }
    ensures bounds { IsExtent result }
{
    let pref = preferred(own.pref, computed_pref);
    resolved(own, pref, computed_min, 100_000)
}

/// The same of a control: without a maximum of its own it grows to its preferred length at most.
pub fn control_extent(own: OwnLengths, computed_min: u64, computed_pref: u64) -> Extent
    ensures value { result ≡ control_extent own computed_min computed_pref }
    ensures bounds { IsExtent result }
{
    let pref = preferred(own.pref, computed_pref);
    resolved(own, pref, computed_min, pref)
}

/// Where a child of this length stands in an area that begins at a place, with its margins.
pub fn in_area(how: u8, start: u64, area: u64, child: &ChildAxis, length: u64) -> Span
    requires start { start < 2 ^ 62 }
    requires area { area < 2 ^ 62 }
    requires child { IsChildAxis child.now }
    ensures { result ≡ in_area how start area child.now length }
{
    let free = area.saturating_sub(child.before + child.after);
    Span {
        start: pixels(start + child.before + aligned(how, length, free)),
        length,
    }
}

/// The preferred length before it is clamped.
fn preferred(own: i64, computed: u64) -> u64
    ensures value { result ≡ preferred own computed }
    ensures most { result ≤ longest }
{
    if own < 0 {
        computed.min(100_000)
    } else {
        length_of(own)
    }
}

/// A minimum or maximum of the look, which is the preferred length for -Infinity.
fn limited(own: i64, pref: u64, computed: u64) -> u64
    requires { pref ≤ longest }
    ensures value { result ≡ limited own pref computed }
    ensures most { result ≤ longest }
{
    if own >= 0 {
        length_of(own)
    } else if own == i64::MIN {
        pref
    } else {
        computed.min(100_000)
    }
}

#[tactic(auto, unfolding(crate::specs::Sizes::resolved))]
fn resolved(own: OwnLengths, pref: u64, computed_min: u64, computed_max: u64) -> Extent
    requires { pref ≤ longest }
    ensures value { result ≡ resolved own pref computed_min computed_max }
    ensures bounds { IsExtent result }
{
    let min = limited(own.min, pref, computed_min);
    let max = limited(own.max, pref, computed_max).max(min);
    Extent {
        min,
        pref: pref.min(max).max(min),
        max,
    }
}
