//! Nodes as the sweeps look at them.
ghost use Rattle.std.specs.Prelude.{◌≡◌, ◌≢◌, ◌<◌, ℕ, All, AllPairs, IfOk, IfSome, List, length, map};
ghost use Rattle.fx_kinds.specs.declared.facts.BoxFacts.{BoxFacts as Facts};
ghost use Rattle.fx_panes_parts.specs.Axes.{IsChildAxis, IsPaneAxis, child_axis, pane_axis};
ghost use Rattle.fx_layout_parts.specs.Boxes.{pane_facts};
ghost use Rattle.fx_base.specs.declared.facts.ChildSize.{ChildSize as Child};
ghost use Rattle.fx_layout_parts.specs.Rules.{IsHigh, IsWide, is_pane, row_side, rule_of};
ghost use Rattle.fx_layout_sweeps.specs.Nodes.{AreNodes, box_at, child_at, children_lists, look_at, node_at, parents, places_at, seen};

use crate::lengths::extent_at;
use crate::places::Places;
use fx_base::ChildSize;
use fx_boxes::sides::RowSide;
use fx_kinds::BoxFacts;
use fx_layout_parts::{
    NodeBox, Rule, box_of, child_along, child_of, is_pane, leaf_heights, leaf_widths, look_axis,
    row_side, rule_of,
};
use fx_look::Look;
use fx_panes_parts::{Axis, ChildAxis, Extent, PaneAxis};
use std::alloc::{AllocError, Global};

/// What the node at this place is laid out by.
#[tactic(auto, using(crate::proofs::Reading::box_read))]
pub fn box_in(
    alloc: Global,
    nodes: &[BoxFacts],
    looks: &[Look],
    place: usize,
) -> Result<NodeBox, AllocError>
    requires looks { length looks.now ≡ length nodes.now }
    requires place { place < length nodes.now }
    ensures { IfOk result (λ made. made ≡ box_at nodes.now looks.now place) }
{
    box_of(alloc, &nodes[place], &looks[place])
}

/// The widths of the node at this place, if it needs nothing of its children.
pub fn leaf_widths_in(nodes: &[BoxFacts], looks: &[Look], place: usize) -> Option<Extent>
    requires looks { length looks.now ≡ length nodes.now }
    requires place { place < length nodes.now }
    ensures { IfSome result (λ widths. (children : List Child)
        → IsWide (box_at nodes.now looks.now place) children widths) }
{
    leaf_widths(&nodes[place], &looks[place])
}

/// The heights of the node at this place, if it needs nothing of its children.
pub fn leaf_heights_in(nodes: &[BoxFacts], looks: &[Look], place: usize) -> Option<Extent>
    requires looks { length looks.now ≡ length nodes.now }
    requires place { place < length nodes.now }
    ensures { IfSome result (λ heights. (children : List Child) (w : ℕ)
        → IsHigh (box_at nodes.now looks.now place) children w heights) }
{
    leaf_heights(&nodes[place], &looks[place])
}

/// The node at this place as a pane along an axis, which its look alone tells.
pub fn pane_in(axis: Axis, looks: &[Look], place: usize) -> PaneAxis
    requires { place < length looks.now }
    ensures value { (node : Facts) → result ≡ pane_axis axis (pane_facts node (look_at looks.now place)) }
    ensures bounds { IsPaneAxis result }
{
    look_axis(axis, &looks[place])
}

/// The rule of the node at this place.
#[tactic(auto, using(crate::proofs::Reading::rule_read))]
pub fn rule_at(nodes: &[BoxFacts], place: usize) -> Rule
    requires { place < length nodes.now }
    ensures { result ≡ rule_of (node_at nodes.now place).class }
{
    rule_of(nodes[place].class)
}

/// What an axis is to the row of the node at this place, if it puts its children in a row.
pub fn row_side_at(nodes: &[BoxFacts], place: usize, axis: Axis) -> Option<RowSide>
    requires { place < length nodes.now }
    ensures { result ≡ row_side (rule_of (node_at nodes.now place).class) axis }
{
    row_side(rule_at(nodes, place), axis)
}

/// Have the children of the node at this place places?
pub fn is_pane_at(nodes: &[BoxFacts], place: usize) -> bool
    requires { place < length nodes.now }
    ensures { result ≡ is_pane (rule_of (node_at nodes.now place).class) }
{
    is_pane(rule_at(nodes, place))
}

/// The places of a node's children.
#[tactic(auto, using(crate::proofs::Asking::lists_long))]
pub fn children_in<'a>(nodes: &[BoxFacts], children: &'a [Places], place: usize) -> &'a [usize]
    requires nodes { AreNodes nodes.now }
    requires children { children.now ≡ children_lists (parents nodes.now) }
    requires place { place < length nodes.now }
    ensures value { result.now ≡ places_at children.now place }
    ensures below { All (λ j. j < length nodes.now) result.now }
    ensures apart { AllPairs (λ i j. i ≢ j) result.now }
{
    places_in(children, place)
}

fn places_in(children: &[Places], place: usize) -> &[usize]
    requires { place < length children.now }
    ensures { result.now ≡ places_at children.now place }
{
    children[place].as_slice()
}

/// The children at these places, as a pane of this rule sees them.
pub fn seen(
    alloc: Global,
    pane: Rule,
    nodes: &[BoxFacts],
    widths: &[Extent],
    heights: &[Extent],
    places: &[usize],
) -> Result<Vec<ChildSize>, AllocError>
    requires { All (λ j. j < length nodes.now) places.now }
    ensures { IfOk result (λ children. children.items ≡ seen pane nodes.now widths.now heights.now places.now) }
{
    let mut children = Vec::with_capacity(alloc, places.len())?;
    for place in places {
        children.push(child_at(pane, nodes, widths, heights, *place))?;
    }
    Ok(children)
}

#[tactic(auto, using(crate::proofs::Reading::child_read))]
fn child_at(
    pane: Rule,
    nodes: &[BoxFacts],
    widths: &[Extent],
    heights: &[Extent],
    place: usize,
) -> ChildSize
    requires { place < length nodes.now }
    ensures { result ≡ child_at pane nodes.now widths.now heights.now place }
{
    child_of(
        pane,
        &nodes[place],
        extent_at(widths, place),
        extent_at(heights, place),
    )
}

/// The child at this place, as a pane of this rule sees it along an axis.
#[tactic(auto, using(crate::proofs::Reading::axis_read))]
pub fn axis_at(
    axis: Axis,
    pane: Rule,
    nodes: &[BoxFacts],
    widths: &[Extent],
    heights: &[Extent],
    place: usize,
) -> ChildAxis
    requires { place < length nodes.now }
    ensures value { result ≡ child_axis axis (child_at pane nodes.now widths.now heights.now place) }
    ensures bounds { IsChildAxis result }
{
    child_along(
        axis,
        pane,
        &nodes[place],
        extent_at(widths, place),
        extent_at(heights, place),
    )
}
