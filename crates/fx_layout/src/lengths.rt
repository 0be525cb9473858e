//! Lengths that are kept for nodes, and those of the root.
ghost use Rattle.std.specs.Prelude.{◌≡◌, ◌≤◌, ◌<◌, ℕ, IfOk, length};
ghost use Rattle.fx_layout_sweeps.specs.Nodes.{extent_at, span_at};
ghost use Rattle.fx_layout.specs.Updates.{from_corner, heights_along, lengths_in, root_length, widths_along, window_height, window_width};

use fx_layout_sweeps::{NOWHERE, extent_at};
use fx_panes_parts::{Axis, Extent, Span};
use std::alloc::{AllocError, Global};

/// The lengths that are kept for each node, which stood at these places.
pub(crate) fn kept_lengths(
    alloc: Global,
    olds: &[usize],
    lengths: &[Extent],
) -> Result<Vec<Extent>, AllocError>
    ensures each { IfOk result (λ kept. length kept.items ≡ length olds.now) }
    ensures kept { IfOk result (λ kept. (p : ℕ) → p < length olds.now
        → extent_at kept.items p ≡ lengths_in olds.now lengths.now p) }
{
    let mut kept = Vec::with_capacity(alloc, olds.len())?;
    for old in olds {
        kept.push(extent_at(lengths, *old))?;
    }
    Ok(kept)
}

/// So many places, of which only the root's is known: it begins in the corner and is so long.
pub(crate) fn spans_from(alloc: Global, room: u64, count: usize) -> Result<Vec<Span>, AllocError>
    requires { 0 < count }
    ensures each { IfOk result (λ spans. length spans.items ≡ count) }
    ensures root { IfOk result (λ spans. span_at spans.items 0 ≡ from_corner room) }
{
    let mut spans = Vec::with_capacity(alloc, count)?;
    spans.push(Span {
        start: 0,
        length: room,
    })?;
    for _ in 1..count {
        spans.push(NOWHERE)?;
    }
    Ok(spans)
}

/// The length of the root: the window's, or the preferred one within 1 to 2,048 pixels.
pub(crate) fn root_length(window: Option<u32>, lengths: Extent) -> u32
    ensures { result ≡ root_length window lengths }
{
    match window {
        Some(length) => length,
        None => lengths.pref.min(2_048).max(1) as u32,
    }
}

pub(crate) fn window_width(window: Option<(u32, u32)>) -> Option<u32>
    ensures { result ≡ window_width window }
{
    match window {
        Some(size) => Some(size.0),
        None => None,
    }
}

pub(crate) fn window_height(window: Option<(u32, u32)>) -> Option<u32>
    ensures { result ≡ window_height window }
{
    match window {
        Some(size) => Some(size.1),
        None => None,
    }
}

/// The widths that placing along the axis looks at.
pub(crate) fn widths_along<'a>(
    axis: Axis,
    widths: &'a [Extent],
    lengths: &'a [Extent],
) -> &'a [Extent]
    ensures { result.now ≡ widths_along axis widths.now lengths.now }
{
    match axis {
        Axis::Across => lengths,
        Axis::Down => widths,
    }
}

/// The heights that placing along the axis looks at.
pub(crate) fn heights_along(axis: Axis, lengths: &[Extent]) -> &[Extent]
    ensures { result.now ≡ heights_along axis lengths.now }
{
    match axis {
        Axis::Across => &[],
        Axis::Down => lengths,
    }
}
