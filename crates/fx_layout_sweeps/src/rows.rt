//! Panes that put their children in a row, along one axis: nothing is copied of the pane, and its children are seen
//! along the axis alone.
ghost use Rattle.std.specs.Prelude.{◌≡◌, ◌*◌, ◌^◌, ◌≤◌, ◌<◌, All, IfOk, length, map, sum_by};
ghost use Rattle.fx_boxes.specs.Rows.{beside_extent, beside_spans, clamped, parts_of, row_extent, row_spans, side_extent, side_spans};
ghost use Rattle.fx_panes_parts.specs.Axes.{IsPaneAxis, along, pane_axis};
ghost use Rattle.fx_panes_parts.specs.Parts.{greatest_of};
ghost use Rattle.fx_layout_parts.specs.Rules.{in_pixels};
ghost use Rattle.fx_layout_sweeps.specs.Nodes.{AreNodes, box_at, children_lists, parents, places_at, seen};
ghost use Rattle.fx_layout_sweeps.specs.Sweeps.{held_length};

use crate::nodes::{children_in, pane_in, rule_at};
use crate::parts::{beside_at, next_at, part_at};
use crate::placing::Placing;
use fx_boxes::rows::row_for;
use fx_boxes::sides::{RowSide, clamped};
use fx_layout_parts::{Rule, in_pixels};
use fx_panes_parts::{Extent, PaneAxis, Part, Span, gaps, insets, length_of, pane_extent, pixels};
use std::alloc::{AllocError, Global};

/// What the children of a row need along an axis: a minimum and a preferred length.
#[derive(Clone, Copy, PartialEq, Eq, Debug)]
struct Needs {
    min: u64,
    pref: u64,
}

/// The lengths of the row at this place, over those of its children. It takes no memory.
pub(crate) fn row_lengths(scene: Placing<'_>, side: RowSide, place: usize) -> Extent
    requires looks { length scene.looks.now ≡ length scene.nodes.now }
    requires nodes { AreNodes scene.nodes.now }
    requires children { scene.children.now ≡ children_lists (parents scene.nodes.now) }
    requires place { place < length scene.nodes.now }
    ensures { result ≡ in_pixels (side_extent side
        (pane_axis scene.entry.axis (box_at scene.entry.nodes.now scene.entry.looks.now place).facts)
        (along scene.entry.axis (seen (box_at scene.entry.nodes.now scene.entry.looks.now place).rule
        scene.entry.nodes.now scene.entry.widths.now scene.entry.heights.now
        (places_at scene.entry.children.now place)))) }
{
    let places = children_in(scene.nodes, scene.children, place);
    let rule = rule_at(scene.nodes, place);
    let pane = pane_in(scene.axis, scene.looks, place);
    in_pixels(lengths_over(scene, side, rule, &pane, places))
}

/// The lengths of a row of the children at these places.
fn lengths_over(
    scene: Placing<'_>,
    side: RowSide,
    rule: Rule,
    pane: &PaneAxis,
    places: &[usize],
) -> Extent
    requires pane { IsPaneAxis pane.now }
    requires few { length places.now ≤ 4096 }
    requires within { All (λ j. j < length scene.nodes.now) places.now }
    ensures { result ≡ side_extent side pane.now (along scene.entry.axis
        (seen rule scene.entry.nodes.now scene.entry.widths.now scene.entry.heights.now places.now)) }
{
    match side {
        RowSide::Along => lengths_along(scene, rule, pane, places),
        RowSide::Beside => lengths_beside(scene, rule, pane, places),
    }
}

fn lengths_along(scene: Placing<'_>, rule: Rule, pane: &PaneAxis, places: &[usize]) -> Extent
    requires pane { IsPaneAxis pane.now }
    requires few { length places.now ≤ 4096 }
    requires within { All (λ j. j < length scene.nodes.now) places.now }
    ensures { result ≡ row_extent pane.now (along scene.entry.axis
        (seen rule scene.entry.nodes.now scene.entry.widths.now scene.entry.heights.now places.now)) }
{
    let rest = insets(pane) + gaps(pane.spacing, places.len());
    let sums = sums_at(scene, rule, places);
    pane_extent(pane.own, rest + sums.min, rest + sums.pref)
}

fn lengths_beside(scene: Placing<'_>, rule: Rule, pane: &PaneAxis, places: &[usize]) -> Extent
    requires pane { IsPaneAxis pane.now }
    requires within { All (λ j. j < length scene.nodes.now) places.now }
    ensures { result ≡ beside_extent pane.now (along scene.entry.axis
        (seen rule scene.entry.nodes.now scene.entry.widths.now scene.entry.heights.now places.now)) }
{
    let around = insets(pane);
    let most = most_at(scene, rule, places);
    pane_extent(pane.own, around + most.min, around + most.pref)
}

/// The minimum and the preferred lengths of the children at these places together, with their margins.
fn sums_at(scene: Placing<'_>, rule: Rule, places: &[usize]) -> Needs
    requires few { length places.now ≤ 4096 }
    requires within { All (λ j. j < length scene.nodes.now) places.now }
    ensures min { result.min ≡ sum_by (λ part. part.min) (parts_of (along scene.entry.axis
        (seen rule scene.entry.nodes.now scene.entry.widths.now scene.entry.heights.now places.now))) }
    ensures pref { result.pref ≡ sum_by (λ part. part.pref) (parts_of (along scene.entry.axis
        (seen rule scene.entry.nodes.now scene.entry.widths.now scene.entry.heights.now places.now))) }
    ensures most_min { result.min ≤ 2 ^ 32 * length places.now }
    ensures most_pref { result.pref ≤ 2 ^ 32 * length places.now }
{
    let mut min = 0;
    let mut pref = 0;
    for place in places {
        let part = part_at(scene, rule, *place);
        min += u64::from(part.min);
        pref += u64::from(part.pref);
    }
    Needs { min, pref }
}

/// The greatest minimum and the greatest preferred length of the children at these places with their margins, or 0.
fn most_at(scene: Placing<'_>, rule: Rule, places: &[usize]) -> Needs
    requires { All (λ j. j < length scene.nodes.now) places.now }
    ensures min { result.min ≡ greatest_of (map (λ part. part.min) (parts_of (along scene.entry.axis
        (seen rule scene.entry.nodes.now scene.entry.widths.now scene.entry.heights.now places.now)))) }
    ensures pref { result.pref ≡ greatest_of (map (λ part. part.pref) (parts_of (along scene.entry.axis
        (seen rule scene.entry.nodes.now scene.entry.widths.now scene.entry.heights.now places.now)))) }
    ensures most_min { result.min < 2 ^ 32 }
    ensures most_pref { result.pref < 2 ^ 32 }
{
    let mut min = 0;
    let mut pref = 0;
    for place in places {
        let part = part_at(scene, rule, *place);
        min = u64::from(part.min).max(min);
        pref = u64::from(part.pref).max(pref);
    }
    Needs { min, pref }
}

/// Where the children of the row at this place stand in so much length.
pub(crate) fn row_spans(
    alloc: Global,
    scene: Placing<'_>,
    side: RowSide,
    place: usize,
    room: u64,
) -> Result<Vec<Span>, AllocError>
    requires looks { length scene.looks.now ≡ length scene.nodes.now }
    requires nodes { AreNodes scene.nodes.now }
    requires children { scene.children.now ≡ children_lists (parents scene.nodes.now) }
    requires place { place < length scene.nodes.now }
    ensures { IfOk result (λ spans. spans.items ≡ map clamped (side_spans side
        (pane_axis scene.entry.axis (box_at scene.entry.nodes.now scene.entry.looks.now place).facts)
        (along scene.entry.axis (seen (box_at scene.entry.nodes.now scene.entry.looks.now place).rule
        scene.entry.nodes.now scene.entry.widths.now scene.entry.heights.now
        (places_at scene.entry.children.now place))) (held_length room))) }
{
    let places = children_in(scene.nodes, scene.children, place);
    let rule = rule_at(scene.nodes, place);
    let pane = pane_in(scene.axis, scene.looks, place);
    spans_over(alloc, scene, side, rule, &pane, places, held_length(room))
}

/// Where the children at these places stand in a row of this length.
fn spans_over(
    alloc: Global,
    scene: Placing<'_>,
    side: RowSide,
    rule: Rule,
    pane: &PaneAxis,
    places: &[usize],
    held: u64,
) -> Result<Vec<Span>, AllocError>
    requires pane { IsPaneAxis pane.now }
    requires few { length places.now ≤ 4096 }
    requires within { All (λ j. j < length scene.nodes.now) places.now }
    requires long { held ≤ 100000 }
    ensures { IfOk result (λ spans. spans.items ≡ map clamped (side_spans side pane.now (along scene.entry.axis
        (seen rule scene.entry.nodes.now scene.entry.widths.now scene.entry.heights.now places.now)) held)) }
{
    match side {
        RowSide::Along => spans_along(alloc, scene, rule, pane, places, held),
        RowSide::Beside => spans_beside(alloc, scene, rule, pane, places, held),
    }
}

fn spans_along(
    alloc: Global,
    scene: Placing<'_>,
    rule: Rule,
    pane: &PaneAxis,
    places: &[usize],
    held: u64,
) -> Result<Vec<Span>, AllocError>
    requires pane { IsPaneAxis pane.now }
    requires few { length places.now ≤ 4096 }
    requires within { All (λ j. j < length scene.nodes.now) places.now }
    requires long { held ≤ 100000 }
    ensures { IfOk result (λ spans. spans.items ≡ map clamped (row_spans pane.now (along scene.entry.axis
        (seen rule scene.entry.nodes.now scene.entry.widths.now scene.entry.heights.now places.now)) held)) }
{
    let parts = parts_at(alloc, scene, rule, places)?;
    let mut row = row_for(pane, parts.as_slice(), held);
    let mut spans = Vec::with_capacity(alloc, places.len())?;
    for place in places {
        spans.push(clamped(next_at(scene, rule, *place, &mut row)))?;
    }
    Ok(spans)
}

fn spans_beside(
    alloc: Global,
    scene: Placing<'_>,
    rule: Rule,
    pane: &PaneAxis,
    places: &[usize],
    held: u64,
) -> Result<Vec<Span>, AllocError>
    requires pane { IsPaneAxis pane.now }
    requires within { All (λ j. j < length scene.nodes.now) places.now }
    requires long { held ≤ 100000 }
    ensures { IfOk result (λ spans. spans.items ≡ map clamped (beside_spans pane.now (along scene.entry.axis
        (seen rule scene.entry.nodes.now scene.entry.widths.now scene.entry.heights.now places.now)) held)) }
{
    let mut spans = Vec::with_capacity(alloc, places.len())?;
    for place in places {
        spans.push(clamped(beside_at(scene, rule, *place, pane, held)))?;
    }
    Ok(spans)
}

/// The parts of the children at these places. They are gone over some six times.
fn parts_at(
    alloc: Global,
    scene: Placing<'_>,
    rule: Rule,
    places: &[usize],
) -> Result<Vec<Part>, AllocError>
    requires { All (λ j. j < length scene.nodes.now) places.now }
    ensures { IfOk result (λ parts. parts.items ≡ parts_of (along scene.entry.axis
        (seen rule scene.entry.nodes.now scene.entry.widths.now scene.entry.heights.now places.now))) }
{
    let mut parts = Vec::with_capacity(alloc, places.len())?;
    for place in places {
        parts.push(part_at(scene, rule, *place))?;
    }
    Ok(parts)
}

/// A length, of which none is greater than the longest.
fn held_length(length: u64) -> u64
    ensures value { result ≡ held_length length }
    ensures most { result ≤ 100000 }
{
    length_of(pixels(length))
}
