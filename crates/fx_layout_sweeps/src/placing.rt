//! Placing from the root, along one axis, where nodes stand in the list where they stood.
ghost use Rattle.std.specs.Prelude.{ℕ, ◌≡◌, ◌≢◌, ◌+◌, ◌<◌, All, AllPairs, IfOk, OnOk, Some, length, map, slice_set};
ghost use Rattle.fx_layout_sweeps.specs.Marks.{flag_in};
ghost use Rattle.fx_layout_sweeps.specs.Nodes.{AreNodes, box_at, children_lists, node_at, parents, places_at, seen, span_at};
ghost use Rattle.fx_layout_parts.specs.Rules.{rects_in, row_side, rule_of};
ghost use Rattle.fx_layout_sweeps.specs.Sweeps.{ArePlaced, IsPut, half, held_length, is_worked, kept_here, spans_along, tally};

use crate::lengths::span_at;
use crate::marks::Marks;
use crate::nodes::{box_in, children_in, is_pane_at, row_side_at, seen};
use crate::places::Places;
use crate::rows::row_spans;
use fx_base::{Ledgers, Rect, Work};
use fx_boxes::sides::RowSide;
use fx_kinds::BoxFacts;
use fx_layout_parts::{across_span, down_span, place};
use fx_look::Look;
use fx_panes_parts::{Axis, Extent, Span, pixels};
use std::alloc::{AllocError, Global};

/// What placing looks at: the nodes with their looks, children and lengths.
#[derive(Clone, Copy)]
pub struct Placing<'a> {
    pub axis: Axis,
    pub nodes: &'a [BoxFacts],
    pub looks: &'a [Look],
    pub children: &'a [Places],
    pub widths: &'a [Extent],
    pub heights: &'a [Extent],
}

/// Where each node stands in its parent, by where it stood. The children of a node that is marked, or is longer or
/// shorter than it was, are placed by its pane, and the node is marked; the others aren't touched.
pub fn place_again<L: Ledgers>(
    alloc: Global,
    sweep: Placing<'_>,
    marks: &mut Marks,
    spans: &mut Vec<Span>,
    work: &mut Work<L>,
) -> Result<(), AllocError>
    requires looks { length sweep.looks.now ≡ length sweep.nodes.now }
    requires nodes { AreNodes sweep.nodes.now }
    requires children { sweep.children.now ≡ children_lists (parents sweep.nodes.now) }
    requires spans { length spans.old.items ≡ length sweep.nodes.now }
    requires marks { length marks.old ≡ length sweep.nodes.now }
    ensures each { OnOk result (length spans.new.items ≡ length sweep.entry.nodes.now) }
    ensures each_mark { OnOk result (length marks.new ≡ length sweep.entry.nodes.now) }
    ensures root { OnOk result (span_at spans.new.items 0 ≡ span_at spans.old.items 0) }
    ensures placed { OnOk result (ArePlaced sweep.entry.axis sweep.entry.nodes.now sweep.entry.looks.now
        sweep.entry.children.now (flag_in marks.old) sweep.entry.widths.now sweep.entry.heights.now
        (span_at spans.old.items) (kept_here sweep.entry.children.now spans.old.items) spans.new.items) }
    ensures marks { OnOk result ((p : ℕ) → p < length sweep.entry.nodes.now
        → flag_in marks.new p ≡ is_worked (flag_in marks.old) (span_at spans.old.items) spans.new.items p) }
    ensures work { OnOk result (work.new ≡ record work.old {
      laid = work.old.laid + tally (flag_in marks.new) (length sweep.entry.nodes.now);
    }) }
{
    let mut from = 0;
    while let Some(at) = marks.first_from(from) {
        let room = span_at(spans.as_slice(), at).length;
        let found = spans_of(alloc, sweep, at, room, work)?;
        let places = children_in(sweep.nodes, sweep.children, at);
        move_children(places, found.as_slice(), marks, spans);
        from = at + 1;
    }
    Ok(())
}

/// Where the children of the node at this place stand in so much length, by its pane.
#[tactic(auto, using(crate::proofs::Asking::asked))]
fn rects_across<L: Ledgers>(
    alloc: Global,
    sweep: Placing<'_>,
    at: usize,
    width: u64,
    work: &mut Work<L>,
) -> Result<Vec<Rect>, AllocError>
    requires looks { length sweep.looks.now ≡ length sweep.nodes.now }
    requires nodes { AreNodes sweep.nodes.now }
    requires children { sweep.children.now ≡ children_lists (parents sweep.nodes.now) }
    requires place { at < length sweep.nodes.now }
    ensures rects { IfOk result (λ rects. rects.items
        ≡ rects_in (box_at sweep.entry.nodes.now sweep.entry.looks.now at)
        (seen (box_at sweep.entry.nodes.now sweep.entry.looks.now at).rule sweep.entry.nodes.now
        sweep.entry.widths.now sweep.entry.heights.now (places_at sweep.entry.children.now at)) (held_length width) 0) }
    ensures work { OnOk result (work.new ≡ record work.old { laid = work.old.laid + 1 }) }
{
    let node = box_in(alloc, sweep.nodes, sweep.looks, at)?;
    let places = children_in(sweep.nodes, sweep.children, at);
    let children = seen(
        alloc,
        node.rule,
        sweep.nodes,
        sweep.widths,
        sweep.heights,
        places,
    )?;
    place(alloc, &node, children.as_slice(), pixels(width), 0, work)
}

#[tactic(auto, using(crate::proofs::Asking::asked))]
fn rects_down<L: Ledgers>(
    alloc: Global,
    sweep: Placing<'_>,
    at: usize,
    height: u64,
    work: &mut Work<L>,
) -> Result<Vec<Rect>, AllocError>
    requires looks { length sweep.looks.now ≡ length sweep.nodes.now }
    requires nodes { AreNodes sweep.nodes.now }
    requires children { sweep.children.now ≡ children_lists (parents sweep.nodes.now) }
    requires place { at < length sweep.nodes.now }
    ensures rects { IfOk result (λ rects. rects.items
        ≡ rects_in (box_at sweep.entry.nodes.now sweep.entry.looks.now at)
        (seen (box_at sweep.entry.nodes.now sweep.entry.looks.now at).rule sweep.entry.nodes.now
        sweep.entry.widths.now sweep.entry.heights.now (places_at sweep.entry.children.now at))
        0 (held_length height)) }
    ensures work { OnOk result (work.new ≡ record work.old { laid = work.old.laid + 1 }) }
{
    let node = box_in(alloc, sweep.nodes, sweep.looks, at)?;
    let places = children_in(sweep.nodes, sweep.children, at);
    let children = seen(
        alloc,
        node.rule,
        sweep.nodes,
        sweep.widths,
        sweep.heights,
        places,
    )?;
    place(alloc, &node, children.as_slice(), 0, pixels(height), work)
}

/// Where the children of a node stand that is so long along the axis. What is no pane isn't asked, and of a row only
/// the half along the axis is.
pub(crate) fn spans_of<L: Ledgers>(
    alloc: Global,
    sweep: Placing<'_>,
    at: usize,
    room: u64,
    work: &mut Work<L>,
) -> Result<Vec<Span>, AllocError>
    requires looks { length sweep.looks.now ≡ length sweep.nodes.now }
    requires nodes { AreNodes sweep.nodes.now }
    requires children { sweep.children.now ≡ children_lists (parents sweep.nodes.now) }
    requires place { at < length sweep.nodes.now }
    ensures spans { IfOk result (λ spans. spans.items
        ≡ spans_along sweep.entry.axis (box_at sweep.entry.nodes.now sweep.entry.looks.now at)
        (seen (box_at sweep.entry.nodes.now sweep.entry.looks.now at).rule sweep.entry.nodes.now
        sweep.entry.widths.now sweep.entry.heights.now (places_at sweep.entry.children.now at)) room) }
    ensures work { OnOk result (work.new ≡ record work.old { laid = work.old.laid + 1 }) }
{
    if !is_pane_at(sweep.nodes, at) {
        work.laid.tick();
        return Ok(Vec::new(alloc));
    }
    match row_side_at(sweep.nodes, at, sweep.axis) {
        Some(side) => spans_in_row(alloc, sweep, side, at, room, work),
        None => spans_in_pane(alloc, sweep, at, room, work),
    }
}

/// Where the children of a row stand that is so long along the axis.
fn spans_in_row<L: Ledgers>(
    alloc: Global,
    sweep: Placing<'_>,
    side: RowSide,
    at: usize,
    room: u64,
    work: &mut Work<L>,
) -> Result<Vec<Span>, AllocError>
    requires looks { length sweep.looks.now ≡ length sweep.nodes.now }
    requires nodes { AreNodes sweep.nodes.now }
    requires children { sweep.children.now ≡ children_lists (parents sweep.nodes.now) }
    requires place { at < length sweep.nodes.now }
    requires side { Some side ≡ row_side (rule_of (node_at sweep.nodes.now at).class) sweep.axis }
    ensures spans { IfOk result (λ spans. spans.items
        ≡ spans_along sweep.entry.axis (box_at sweep.entry.nodes.now sweep.entry.looks.now at)
        (seen (box_at sweep.entry.nodes.now sweep.entry.looks.now at).rule sweep.entry.nodes.now
        sweep.entry.widths.now sweep.entry.heights.now (places_at sweep.entry.children.now at)) room) }
    ensures work { OnOk result (work.new ≡ record work.old { laid = work.old.laid + 1 }) }
{
    work.laid.tick();
    row_spans(alloc, sweep, side, at, room)
}

/// Where the children of a pane stand that is so long along the axis, by its whole rule.
fn spans_in_pane<L: Ledgers>(
    alloc: Global,
    sweep: Placing<'_>,
    at: usize,
    room: u64,
    work: &mut Work<L>,
) -> Result<Vec<Span>, AllocError>
    requires looks { length sweep.looks.now ≡ length sweep.nodes.now }
    requires nodes { AreNodes sweep.nodes.now }
    requires children { sweep.children.now ≡ children_lists (parents sweep.nodes.now) }
    requires place { at < length sweep.nodes.now }
    ensures spans { IfOk result (λ spans. spans.items
        ≡ spans_along sweep.entry.axis (box_at sweep.entry.nodes.now sweep.entry.looks.now at)
        (seen (box_at sweep.entry.nodes.now sweep.entry.looks.now at).rule sweep.entry.nodes.now
        sweep.entry.widths.now sweep.entry.heights.now (places_at sweep.entry.children.now at)) room) }
    ensures work { OnOk result (work.new ≡ record work.old { laid = work.old.laid + 1 }) }
{
    let rects = rects_of(alloc, sweep, at, room, work)?;
    halves(alloc, sweep.axis, rects.as_slice())
}

/// The rectangles of the children of a node that is so long along the axis.
fn rects_of<L: Ledgers>(
    alloc: Global,
    sweep: Placing<'_>,
    at: usize,
    room: u64,
    work: &mut Work<L>,
) -> Result<Vec<Rect>, AllocError>
    requires looks { length sweep.looks.now ≡ length sweep.nodes.now }
    requires nodes { AreNodes sweep.nodes.now }
    requires children { sweep.children.now ≡ children_lists (parents sweep.nodes.now) }
    requires place { at < length sweep.nodes.now }
    ensures rects { IfOk result (λ rects. map (half sweep.entry.axis) rects.items
        ≡ spans_along sweep.entry.axis (box_at sweep.entry.nodes.now sweep.entry.looks.now at)
        (seen (box_at sweep.entry.nodes.now sweep.entry.looks.now at).rule sweep.entry.nodes.now
        sweep.entry.widths.now sweep.entry.heights.now (places_at sweep.entry.children.now at)) room) }
    ensures work { OnOk result (work.new ≡ record work.old { laid = work.old.laid + 1 }) }
{
    match sweep.axis {
        Axis::Across => rects_across(alloc, sweep, at, room, work),
        Axis::Down => rects_down(alloc, sweep, at, room, work),
    }
}

/// The halves of rectangles along the axis.
fn halves(alloc: Global, axis: Axis, rects: &[Rect]) -> Result<Vec<Span>, AllocError>
    ensures { IfOk result (λ spans. spans.items ≡ map (half axis) rects.now) }
{
    let mut spans = Vec::with_capacity(alloc, rects.len())?;
    for rect in rects {
        spans.push(half(axis, *rect))?;
    }
    Ok(spans)
}

/// Half a rectangle, along the axis.
fn half(axis: Axis, rect: Rect) -> Span
    ensures { result ≡ half axis rect }
{
    match axis {
        Axis::Across => across_span(rect),
        Axis::Down => down_span(rect),
    }
}

/// Puts these spans at the places.
pub(crate) fn put_spans(places: &[usize], found: &[Span], spans: &mut Vec<Span>)
    requires within { All (λ j. j < length spans.old.items) places.now }
    requires apart { AllPairs (λ i j. i ≢ j) places.now }
    ensures { IsPut places.now found.now spans.old.items spans.new.items }
{
    for k in 0..places.len() {
        spans[places[k]] = span_at(found, k);
    }
}

/// Puts these spans at the places, and marks those at which the length is another one then.
fn move_children(places: &[usize], found: &[Span], marks: &mut Marks, spans: &mut Vec<Span>)
    requires within { All (λ j. j < length spans.old.items) places.now }
    requires apart { AllPairs (λ i j. i ≢ j) places.now }
    requires marks { length marks.old ≡ length spans.old.items }
    ensures put { IsPut places.now found.now spans.old.items spans.new.items }
    ensures each_mark { length marks.new ≡ length marks.old }
    ensures marks { (q : ℕ) → q < length marks.old
        → flag_in marks.new q ≡ is_worked (flag_in marks.old) (span_at spans.old.items) spans.new.items q }
{
    for k in 0..places.len() {
        move_child(places[k], span_at(found, k), marks, spans);
    }
}

/// Puts a span at a place, and marks the place if its length is another one then.
pub fn move_child(place: usize, span: Span, marks: &mut Marks, spans: &mut Vec<Span>)
    requires { place < length spans.old.items }
    ensures spans { spans.new.items ≡ slice_set spans.old.items place span }
    ensures each_mark { length marks.new ≡ length marks.old }
    ensures marks { (q : ℕ) → q < length marks.old
        → flag_in marks.new q ≡ is_worked (flag_in marks.old) (span_at spans.old.items) spans.new.items q }
{
    let before = span_at(spans.as_slice(), place).length;
    marks.mark_if(place, span.length != before);
    spans[place] = span;
}
