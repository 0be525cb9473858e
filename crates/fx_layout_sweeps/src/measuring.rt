//! Measuring from the leaves, along one axis.
ghost use Rattle.std.specs.Prelude.{◌≡◌, ◌+◌, ◌<◌, [], IfOk, OnOk, Some, length};
ghost use Rattle.fx_layout_sweeps.specs.Nodes.{AreNodes, box_at, children_lists, extent_at, node_at, parents, places_at, seen, span_at};
ghost use Rattle.fx_layout_sweeps.specs.Sweeps.{AreMeasured, IsMeasured, held_length, seen_along, tally};
ghost use Rattle.fx_layout_sweeps.specs.Marks.{flag_in};
ghost use Rattle.fx_layout_parts.specs.Rules.{IsHigh, IsWide, row_side, rule_of};

use crate::lengths::span_at;
use crate::marks::Marks;
use crate::nodes::{box_in, children_in, leaf_heights_in, leaf_widths_in, row_side_at, seen};
use crate::places::Places;
use crate::placing::Placing;
use crate::rows::row_lengths;
use fx_base::{Ledgers, Work};
use fx_boxes::sides::RowSide;
use fx_kinds::BoxFacts;
use fx_layout_parts::{across_half, down_half, measure, measure_in};
use fx_look::Look;
use fx_panes_parts::{Axis, Extent, Span, pixels};
use std::alloc::{AllocError, Global};

/// What measuring looks at: the nodes with their looks and children, which of them are measured, and for heights the
/// widths and the places across.
#[derive(Clone, Copy)]
pub struct Measuring<'a> {
    pub axis: Axis,
    pub nodes: &'a [BoxFacts],
    pub looks: &'a [Look],
    pub children: &'a [Places],
    pub listed: &'a Marks,
    pub widths: &'a [Extent],
    pub spans: &'a [Span],
}

/// The lengths of each node along the axis: of one that is listed those that its pane measures, and of any other those
/// that are there.
pub fn measure_nodes<L: Ledgers>(
    alloc: Global,
    sweep: Measuring<'_>,
    lengths: &mut Vec<Extent>,
    work: &mut Work<L>,
) -> Result<(), AllocError>
    requires looks { length sweep.looks.now ≡ length sweep.nodes.now }
    requires nodes { AreNodes sweep.nodes.now }
    requires children { sweep.children.now ≡ children_lists (parents sweep.nodes.now) }
    requires lengths { length lengths.old.items ≡ length sweep.nodes.now }
    ensures each { OnOk result (length lengths.new.items ≡ length lengths.old.items) }
    ensures lengths { OnOk result (AreMeasured sweep.entry.axis sweep.entry.nodes.now sweep.entry.looks.now
        sweep.entry.children.now (flag_in sweep.entry.listed.now) sweep.entry.widths.now sweep.entry.spans.now
        (extent_at lengths.old.items) lengths.new.items) }
    ensures work { OnOk result (work.new ≡ record work.old {
      laid = work.old.laid + tally (flag_in sweep.entry.listed.now) (length sweep.entry.nodes.now);
    }) }
{
    let mut to = sweep.nodes.len();
    while let Some(place) = sweep.listed.last_before(to) {
        lengths[place] = measured(alloc, sweep, place, lengths.as_slice(), work)?;
        to = place;
    }
    Ok(())
}

/// The lengths of the node at this place, by its pane over those of its children.
fn measured<L: Ledgers>(
    alloc: Global,
    sweep: Measuring<'_>,
    place: usize,
    lengths: &[Extent],
    work: &mut Work<L>,
) -> Result<Extent, AllocError>
    requires looks { length sweep.looks.now ≡ length sweep.nodes.now }
    requires nodes { AreNodes sweep.nodes.now }
    requires children { sweep.children.now ≡ children_lists (parents sweep.nodes.now) }
    requires place { place < length sweep.nodes.now }
    ensures lengths { IfOk result (
        IsMeasured sweep.entry.axis (box_at sweep.entry.nodes.now sweep.entry.looks.now place)
        (seen_along sweep.entry.axis (box_at sweep.entry.nodes.now sweep.entry.looks.now place).rule
        sweep.entry.nodes.now sweep.entry.widths.now lengths.now (places_at sweep.entry.children.now place))
        (span_at sweep.entry.spans.now place).length) }
    ensures work { OnOk result (work.new ≡ record work.old { laid = work.old.laid + 1 }) }
{
    match sweep.axis {
        Axis::Across => widths_of(alloc, sweep, place, lengths, work),
        Axis::Down => heights_of(alloc, sweep, place, lengths, work),
    }
}

fn widths_of<L: Ledgers>(
    alloc: Global,
    sweep: Measuring<'_>,
    place: usize,
    widths: &[Extent],
    work: &mut Work<L>,
) -> Result<Extent, AllocError>
    requires looks { length sweep.looks.now ≡ length sweep.nodes.now }
    requires nodes { AreNodes sweep.nodes.now }
    requires children { sweep.children.now ≡ children_lists (parents sweep.nodes.now) }
    requires place { place < length sweep.nodes.now }
    ensures lengths { IfOk result (IsWide (box_at sweep.entry.nodes.now sweep.entry.looks.now place)
        (seen (box_at sweep.entry.nodes.now sweep.entry.looks.now place).rule
        sweep.entry.nodes.now widths.now [] (places_at sweep.entry.children.now place))) }
    ensures work { OnOk result (work.new ≡ record work.old { laid = work.old.laid + 1 }) }
{
    match leaf_widths_in(sweep.nodes, sweep.looks, place) {
        Some(lengths) => {
            work.laid.tick();
            Ok(lengths)
        }
        None => pane_widths(alloc, sweep, place, widths, work),
    }
}

/// The widths of a node by its pane over those of its children.
fn pane_widths<L: Ledgers>(
    alloc: Global,
    sweep: Measuring<'_>,
    place: usize,
    widths: &[Extent],
    work: &mut Work<L>,
) -> Result<Extent, AllocError>
    requires looks { length sweep.looks.now ≡ length sweep.nodes.now }
    requires nodes { AreNodes sweep.nodes.now }
    requires children { sweep.children.now ≡ children_lists (parents sweep.nodes.now) }
    requires place { place < length sweep.nodes.now }
    ensures lengths { IfOk result (IsWide (box_at sweep.entry.nodes.now sweep.entry.looks.now place)
        (seen (box_at sweep.entry.nodes.now sweep.entry.looks.now place).rule
        sweep.entry.nodes.now widths.now [] (places_at sweep.entry.children.now place))) }
    ensures work { OnOk result (work.new ≡ record work.old { laid = work.old.laid + 1 }) }
{
    match row_side_at(sweep.nodes, place, Axis::Across) {
        Some(side) => Ok(row_widths(sweep, side, place, widths, work)),
        None => other_widths(alloc, sweep, place, widths, work),
    }
}

fn row_widths<L: Ledgers>(
    sweep: Measuring<'_>,
    side: RowSide,
    place: usize,
    widths: &[Extent],
    work: &mut Work<L>,
) -> Extent
    requires looks { length sweep.looks.now ≡ length sweep.nodes.now }
    requires nodes { AreNodes sweep.nodes.now }
    requires children { sweep.children.now ≡ children_lists (parents sweep.nodes.now) }
    requires place { place < length sweep.nodes.now }
    requires side { Some side ≡ row_side (rule_of (node_at sweep.nodes.now place).class) Axis.Across }
    ensures lengths { IsWide (box_at sweep.entry.nodes.now sweep.entry.looks.now place)
        (seen (box_at sweep.entry.nodes.now sweep.entry.looks.now place).rule
        sweep.entry.nodes.now widths.now [] (places_at sweep.entry.children.now place)) result }
    ensures work { work.new ≡ record work.old { laid = work.old.laid + 1 } }
{
    let scene = Placing {
        axis: Axis::Across,
        nodes: sweep.nodes,
        looks: sweep.looks,
        children: sweep.children,
        widths,
        heights: &[],
    };
    work.laid.tick();
    row_lengths(scene, side, place)
}

/// The widths of a node by the whole rule of its pane.
#[tactic(auto, using(crate::proofs::Asking::asked))]
fn other_widths<L: Ledgers>(
    alloc: Global,
    sweep: Measuring<'_>,
    place: usize,
    widths: &[Extent],
    work: &mut Work<L>,
) -> Result<Extent, AllocError>
    requires looks { length sweep.looks.now ≡ length sweep.nodes.now }
    requires nodes { AreNodes sweep.nodes.now }
    requires children { sweep.children.now ≡ children_lists (parents sweep.nodes.now) }
    requires place { place < length sweep.nodes.now }
    ensures lengths { IfOk result (IsWide (box_at sweep.entry.nodes.now sweep.entry.looks.now place)
        (seen (box_at sweep.entry.nodes.now sweep.entry.looks.now place).rule
        sweep.entry.nodes.now widths.now [] (places_at sweep.entry.children.now place))) }
    ensures work { OnOk result (work.new ≡ record work.old { laid = work.old.laid + 1 }) }
{
    let node = box_in(alloc, sweep.nodes, sweep.looks, place)?;
    let places = children_in(sweep.nodes, sweep.children, place);
    let children = seen(alloc, node.rule, sweep.nodes, widths, &[], places)?;
    let sizes = measure(alloc, &node, children.as_slice(), work)?;
    Ok(across_half(sizes))
}

fn heights_of<L: Ledgers>(
    alloc: Global,
    sweep: Measuring<'_>,
    place: usize,
    heights: &[Extent],
    work: &mut Work<L>,
) -> Result<Extent, AllocError>
    requires looks { length sweep.looks.now ≡ length sweep.nodes.now }
    requires nodes { AreNodes sweep.nodes.now }
    requires children { sweep.children.now ≡ children_lists (parents sweep.nodes.now) }
    requires place { place < length sweep.nodes.now }
    ensures lengths { IfOk result (IsHigh (box_at sweep.entry.nodes.now sweep.entry.looks.now place)
        (seen (box_at sweep.entry.nodes.now sweep.entry.looks.now place).rule sweep.entry.nodes.now
        sweep.entry.widths.now heights.now (places_at sweep.entry.children.now place))
        (held_length (span_at sweep.entry.spans.now place).length)) }
    ensures work { OnOk result (work.new ≡ record work.old { laid = work.old.laid + 1 }) }
{
    match leaf_heights_in(sweep.nodes, sweep.looks, place) {
        Some(lengths) => {
            work.laid.tick();
            Ok(lengths)
        }
        None => pane_heights(alloc, sweep, place, heights, work),
    }
}

/// The heights of a node in its width, by its pane over those of its children.
fn pane_heights<L: Ledgers>(
    alloc: Global,
    sweep: Measuring<'_>,
    place: usize,
    heights: &[Extent],
    work: &mut Work<L>,
) -> Result<Extent, AllocError>
    requires looks { length sweep.looks.now ≡ length sweep.nodes.now }
    requires nodes { AreNodes sweep.nodes.now }
    requires children { sweep.children.now ≡ children_lists (parents sweep.nodes.now) }
    requires place { place < length sweep.nodes.now }
    ensures lengths { IfOk result (IsHigh (box_at sweep.entry.nodes.now sweep.entry.looks.now place)
        (seen (box_at sweep.entry.nodes.now sweep.entry.looks.now place).rule sweep.entry.nodes.now
        sweep.entry.widths.now heights.now (places_at sweep.entry.children.now place))
        (held_length (span_at sweep.entry.spans.now place).length)) }
    ensures work { OnOk result (work.new ≡ record work.old { laid = work.old.laid + 1 }) }
{
    match row_side_at(sweep.nodes, place, Axis::Down) {
        Some(side) => Ok(row_heights(sweep, side, place, heights, work)),
        None => other_heights(alloc, sweep, place, heights, work),
    }
}

fn row_heights<L: Ledgers>(
    sweep: Measuring<'_>,
    side: RowSide,
    place: usize,
    heights: &[Extent],
    work: &mut Work<L>,
) -> Extent
    requires looks { length sweep.looks.now ≡ length sweep.nodes.now }
    requires nodes { AreNodes sweep.nodes.now }
    requires children { sweep.children.now ≡ children_lists (parents sweep.nodes.now) }
    requires place { place < length sweep.nodes.now }
    requires side { Some side ≡ row_side (rule_of (node_at sweep.nodes.now place).class) Axis.Down }
    ensures lengths { IsHigh (box_at sweep.entry.nodes.now sweep.entry.looks.now place)
        (seen (box_at sweep.entry.nodes.now sweep.entry.looks.now place).rule sweep.entry.nodes.now
        sweep.entry.widths.now heights.now (places_at sweep.entry.children.now place))
        (held_length (span_at sweep.entry.spans.now place).length) result }
    ensures work { work.new ≡ record work.old { laid = work.old.laid + 1 } }
{
    let scene = Placing {
        axis: Axis::Down,
        nodes: sweep.nodes,
        looks: sweep.looks,
        children: sweep.children,
        widths: sweep.widths,
        heights,
    };
    work.laid.tick();
    row_lengths(scene, side, place)
}

/// The heights of a node in its width, by the whole rule of its pane.
#[tactic(auto, using(crate::proofs::Asking::asked))]
fn other_heights<L: Ledgers>(
    alloc: Global,
    sweep: Measuring<'_>,
    place: usize,
    heights: &[Extent],
    work: &mut Work<L>,
) -> Result<Extent, AllocError>
    requires looks { length sweep.looks.now ≡ length sweep.nodes.now }
    requires nodes { AreNodes sweep.nodes.now }
    requires children { sweep.children.now ≡ children_lists (parents sweep.nodes.now) }
    requires place { place < length sweep.nodes.now }
    ensures lengths { IfOk result (IsHigh (box_at sweep.entry.nodes.now sweep.entry.looks.now place)
        (seen (box_at sweep.entry.nodes.now sweep.entry.looks.now place).rule sweep.entry.nodes.now
        sweep.entry.widths.now heights.now (places_at sweep.entry.children.now place))
        (held_length (span_at sweep.entry.spans.now place).length)) }
    ensures work { OnOk result (work.new ≡ record work.old { laid = work.old.laid + 1 }) }
{
    let node = box_in(alloc, sweep.nodes, sweep.looks, place)?;
    let places = children_in(sweep.nodes, sweep.children, place);
    let children = seen(alloc, node.rule, sweep.nodes, sweep.widths, heights, places)?;
    let width = pixels(span_at(sweep.spans, place).length);
    let sizes = measure_in(alloc, &node, children.as_slice(), width, work)?;
    Ok(down_half(sizes))
}
