//! Lengths and places by the place of their node.
ghost use Rattle.std.specs.Prelude.{◌≡◌};
ghost use Rattle.fx_layout_sweeps.specs.Nodes.{extent_at, span_at};

use fx_panes_parts::{Extent, Span};

/// The lengths of a node that aren't known.
pub const UNKNOWN: Extent = Extent {
    min: 0,
    pref: 0,
    max: 0,
};

/// Where a child stands for which there is no place.
pub const NOWHERE: Span = Span {
    start: 0,
    length: 0,
};

/// The lengths of the node at this place.
pub fn extent_at(extents: &[Extent], place: usize) -> Extent
    ensures { result ≡ extent_at extents.now place }
{
    match extents.get(place) {
        Some(extent) => *extent,
        None => UNKNOWN,
    }
}

/// Where the node at this place stands in its parent.
pub fn span_at(spans: &[Span], place: usize) -> Span
    ensures { result ≡ span_at spans.now place }
{
    match spans.get(place) {
        Some(span) => *span,
        None => NOWHERE,
    }
}
