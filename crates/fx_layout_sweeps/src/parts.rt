//! Children in a row. A child of which nothing is said has its lengths alone, without margins and priority, and the
//! rest of what panes see of a child isn't made.
ghost use Rattle.std.specs.Prelude.{◌≡◌, ◌+◌, ◌^◌, ◌<◌, ◌≤◌, ◌==◌, List, ◌∷◌, length};
ghost use Rattle.fx_boxes.specs.Rows.{beside_span, spans_by};
ghost use Rattle.fx_kinds.specs.declared.facts.BoxFacts.{BoxFacts as Facts};
ghost use Rattle.fx_layout_parts.specs.Children.{plain_child};
ghost use Rattle.fx_layout_sweeps.specs.Nodes.{child_at, extent_at, node_at};
ghost use Rattle.fx_panes_parts.specs.declared.axes.ChildAxis.{ChildAxis as Child};
ghost use Rattle.fx_panes_parts.specs.declared.axes.Extent.{Extent as Lengths};
ghost use Rattle.fx_panes_parts.specs.Axes.{IsChildAxis, IsPaneAxis, child_axis};
ghost use Rattle.fx_panes_parts.specs.Parts.{part_of};

use crate::lengths::extent_at;
use crate::nodes::axis_at;
use crate::placing::Placing;
use fx_boxes::rows::{Row, beside_of, beside_span};
use fx_kinds::BoxFacts;
use fx_layout_parts::{Rule, in_pixels};
use fx_panes_parts::{Axis, ChildAxis, Extent, PaneAxis, Part, Span, length_of, part_of, pixels};

/// The part of the child at this place, along the axis, in a pane of this rule.
pub fn part_at(scene: Placing<'_>, rule: Rule, place: usize) -> Part
    requires { place < length scene.nodes.now }
    ensures { result ≡ part_of (child_axis scene.entry.axis
        (child_at rule scene.entry.nodes.now scene.entry.widths.now scene.entry.heights.now place)) }
{
    if is_plain(scene.nodes, place) {
        plain_at(scene.axis, scene.widths, scene.heights, place)
    } else {
        part_of(&child_in(scene, rule, place))
    }
}

/// Where the child at this place stands next along a row.
pub fn next_at(scene: Placing<'_>, rule: Rule, place: usize, row: &mut Row) -> Span
    requires place { place < length scene.nodes.now }
    requires at { row.old.at < 2 ^ 60 }
    requires spacing { row.old.spacing ≤ 100000 }
    ensures next { (children : List Child) → spans_by row.old (child_axis scene.entry.axis
        (child_at rule scene.entry.nodes.now scene.entry.widths.now scene.entry.heights.now place) ∷ children)
        ≡ result ∷ spans_by row.new children }
    ensures at { row.new.at ≤ row.old.at + 2 ^ 35 }
    ensures spacing { row.new.spacing ≡ row.old.spacing }
{
    if is_plain(scene.nodes, place) {
        let part = plain_at(scene.axis, scene.widths, scene.heights, place);
        row.next_of(part, 0, 0)
    } else {
        row.next(&child_in(scene, rule, place))
    }
}

/// Where the child at this place stands beside a row, in a pane of this length.
pub fn beside_at(
    scene: Placing<'_>,
    rule: Rule,
    place: usize,
    pane: &PaneAxis,
    length_beside: u64,
) -> Span
    requires place { place < length scene.nodes.now }
    requires pane { IsPaneAxis pane.now }
    requires long { length_beside ≤ 100000 }
    ensures { result ≡ beside_span pane.now length_beside (child_axis scene.entry.axis
        (child_at rule scene.entry.nodes.now scene.entry.widths.now scene.entry.heights.now place)) }
{
    if is_plain(scene.nodes, place) {
        let lengths = lengths_at(scene.axis, scene.widths, scene.heights, place);
        beside_of(pane, length_beside, lengths, 0, 0)
    } else {
        beside_span(pane, length_beside, &child_in(scene, rule, place))
    }
}

/// Is nothing said of the child at this place?
#[tactic(auto, using(crate::proofs::Reading::said_read))]
fn is_plain(nodes: &[BoxFacts], place: usize) -> bool
    requires { place < length nodes.now }
    ensures { result ≡ (length (node_at nodes.now place).constraints == 0) }
{
    nodes[place].constraints.as_slice().is_empty()
}

/// The child at this place, as a pane of this rule sees it along the axis.
fn child_in(scene: Placing<'_>, rule: Rule, place: usize) -> ChildAxis
    requires { place < length scene.nodes.now }
    ensures value { result ≡ child_axis scene.entry.axis
        (child_at rule scene.entry.nodes.now scene.entry.widths.now scene.entry.heights.now place) }
    ensures bounds { IsChildAxis result }
{
    axis_at(
        scene.axis,
        rule,
        scene.nodes,
        scene.widths,
        scene.heights,
        place,
    )
}

/// The lengths along an axis of the child at this place, of which nothing is said.
#[tactic(auto, unfolding(fx_panes_parts::specs::Axes::child_axis))]
fn lengths_at(axis: Axis, widths: &[Extent], heights: &[Extent], place: usize) -> Extent
    ensures { (node : Facts) → result ≡ (child_axis axis
        (plain_child node (extent_at widths.now place) (extent_at heights.now place))).extent }
{
    match axis {
        Axis::Across => in_pixels(extent_at(widths, place)),
        Axis::Down => in_pixels(extent_at(heights, place)),
    }
}

/// The part of the child at this place, of which nothing is said.
fn plain_at(axis: Axis, widths: &[Extent], heights: &[Extent], place: usize) -> Part
    ensures { (node : Facts) → result ≡ part_of (child_axis axis
        (plain_child node (extent_at widths.now place) (extent_at heights.now place))) }
{
    match axis {
        Axis::Across => plain_part(extent_at(widths, place)),
        Axis::Down => plain_part(extent_at(heights, place)),
    }
}

/// The part of a child that has these lengths along an axis, and of which nothing is said.
#[tactic(auto, unfolding(fx_panes_parts::specs::Axes::child_axis, fx_panes_parts::specs::Parts::part_of))]
fn plain_part(lengths: Extent) -> Part
    ensures across { (node : Facts) (down : Lengths)
        → result ≡ part_of (child_axis Axis.Across (plain_child node lengths down)) }
    ensures down { (node : Facts) (across : Lengths)
        → result ≡ part_of (child_axis Axis.Down (plain_child node across lengths)) }
{
    Part {
        min: length_of(pixels(lengths.min)) as u32,
        pref: length_of(pixels(lengths.pref)) as u32,
        max: length_of(pixels(lengths.max)) as u32,
        priority: 0,
    }
}
