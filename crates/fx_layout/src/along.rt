//! The sweeps along one axis: measuring, and then placing in the length of the root.
ghost use Rattle.std.specs.Prelude.{ℕ, ◌≡◌, ◌<◌, ◌+◌, IfOk, OnOk, length};
ghost use Rattle.fx_layout_sweeps.specs.Marks.{flag_in};
ghost use Rattle.fx_layout_sweeps.specs.Nodes.{AreNodes, children_lists, extent_at, parents, span_at};
ghost use Rattle.fx_layout_sweeps.specs.Sweeps.{AreMeasured, ArePlaced, is_worked, kept_here, kept_in, last_in, tally};
ghost use Rattle.fx_layout.specs.Updates.{from_corner, heights_along, lengths_in, root_length, widths_along};

use crate::lengths::{heights_along, kept_lengths, root_length, spans_from, widths_along};
use fx_base::{Ledgers, Work};
use fx_kinds::BoxFacts;
use fx_layout_sweeps::{
    Marks, Measuring, Moving, Places, Placing, extent_at, measure_nodes, move_child, place_again,
    place_nodes,
};
use fx_look::Look;
use fx_panes_parts::{Axis, Extent, Span};
use std::alloc::{AllocError, Global};

/// Lengths and places of the nodes along one axis.
#[derive(Drop)]
pub(crate) struct Along {
    pub(crate) lengths: Vec<Extent>,
    pub(crate) spans: Vec<Span>,
}

/// The nodes of an update with their looks and children.
#[derive(Clone, Copy)]
pub(crate) struct Scene<'a> {
    pub(crate) nodes: &'a [BoxFacts],
    pub(crate) looks: &'a [Look],
    pub(crate) children: &'a [Places],
}

/// The nodes of an update, where each stood before it, and the children that they had there.
#[derive(Clone, Copy)]
pub(crate) struct Moved<'a> {
    pub(crate) scene: Scene<'a>,
    pub(crate) olds: &'a [usize],
    pub(crate) old_children: &'a [Places],
}

/// The sweeps along one axis: what is kept along it, the root's length where it is given, and for heights the widths
/// and the places across.
#[derive(Clone, Copy)]
pub(crate) struct Sweep<'a> {
    pub(crate) axis: Axis,
    pub(crate) old_lengths: &'a [Extent],
    pub(crate) old_spans: &'a [Span],
    pub(crate) root: Option<u32>,
    pub(crate) widths: &'a [Extent],
    pub(crate) spans: &'a [Span],
}

/// Lengths and places along one axis of nodes that may have stood elsewhere: nodes that are marked are measured, and
/// the marks are then of the nodes whose children were placed anew.
pub(crate) fn lay_moved<L: Ledgers>(
    alloc: Global,
    moved: Moved<'_>,
    sweep: Sweep<'_>,
    marks: &mut Marks,
    work: &mut Work<L>,
) -> Result<Along, AllocError>
    requires some { 0 < length moved.scene.nodes.now }
    requires nodes { AreNodes moved.scene.nodes.now }
    requires looks { length moved.scene.looks.now ≡ length moved.scene.nodes.now }
    requires children { moved.scene.children.now ≡ children_lists (parents moved.scene.nodes.now) }
    requires olds { length moved.olds.now ≡ length moved.scene.nodes.now }
    requires marks { length marks.old ≡ length moved.scene.nodes.now }
    ensures lengths { IfOk result (λ along. AreMeasured sweep.entry.axis moved.entry.scene.nodes.now
        moved.entry.scene.looks.now moved.entry.scene.children.now (flag_in marks.old)
        sweep.entry.widths.now sweep.entry.spans.now
        (lengths_in moved.entry.olds.now sweep.entry.old_lengths.now) along.lengths.items) }
    ensures each { IfOk result (λ along. length along.lengths.items ≡ length moved.entry.scene.nodes.now) }
    ensures each_span { IfOk result (λ along. length along.spans.items ≡ length moved.entry.scene.nodes.now) }
    ensures root { IfOk result (λ along. span_at along.spans.items 0
        ≡ from_corner (root_length sweep.entry.root (extent_at along.lengths.items 0))) }
    ensures placed { IfOk result (λ along. ArePlaced sweep.entry.axis moved.entry.scene.nodes.now
        moved.entry.scene.looks.now moved.entry.scene.children.now (flag_in marks.old)
        (widths_along sweep.entry.axis sweep.entry.widths.now along.lengths.items)
        (heights_along sweep.entry.axis along.lengths.items)
        (last_in moved.entry.olds.now sweep.entry.old_spans.now)
        (kept_in moved.entry.olds.now moved.entry.old_children.now sweep.entry.old_spans.now) along.spans.items) }
    ensures each_mark { OnOk result (length marks.new ≡ length moved.entry.scene.nodes.now) }
    ensures marks { IfOk result (λ along. (p : ℕ) → p < length moved.entry.scene.nodes.now → flag_in marks.new p
        ≡ is_worked (flag_in marks.old) (last_in moved.entry.olds.now sweep.entry.old_spans.now)
        along.spans.items p) }
    ensures work { OnOk result (work.new ≡ record work.old {
      laid = work.old.laid + (tally (flag_in marks.old) (length moved.entry.scene.nodes.now)
          + tally (flag_in marks.new) (length moved.entry.scene.nodes.now));
    }) }
{
    let mut lengths = kept_lengths(alloc, moved.olds, sweep.old_lengths)?;
    let measuring = Measuring {
        axis: sweep.axis,
        nodes: moved.scene.nodes,
        looks: moved.scene.looks,
        children: moved.scene.children,
        listed: &*marks,
        widths: sweep.widths,
        spans: sweep.spans,
    };
    measure_nodes(alloc, measuring, &mut lengths, work)?;
    let room = root_length(sweep.root, extent_at(lengths.as_slice(), 0));
    let mut spans = spans_from(alloc, u64::from(room), moved.scene.nodes.len())?;
    let placing = Placing {
        axis: sweep.axis,
        nodes: moved.scene.nodes,
        looks: moved.scene.looks,
        children: moved.scene.children,
        widths: widths_along(sweep.axis, sweep.widths, lengths.as_slice()),
        heights: heights_along(sweep.axis, lengths.as_slice()),
    };
    let moving = Moving {
        placing,
        olds: moved.olds,
        old_children: moved.old_children,
        old_spans: sweep.old_spans,
    };
    place_nodes(alloc, moving, marks, &mut spans, work)?;
    Ok(Along { lengths, spans })
}

/// Lengths and places along one axis of nodes that stand where they stood: only nodes that are marked, or are longer or
/// shorter than they were, are worked on, and these are marked then. What is kept of them is worked on in place.
pub(crate) fn lay_again<L: Ledgers>(
    alloc: Global,
    scene: Scene<'_>,
    sweep: Sweep<'_>,
    kept: Along,
    marks: &mut Marks,
    work: &mut Work<L>,
) -> Result<Along, AllocError>
    requires some { 0 < length scene.nodes.now }
    requires nodes { AreNodes scene.nodes.now }
    requires looks { length scene.looks.now ≡ length scene.nodes.now }
    requires children { scene.children.now ≡ children_lists (parents scene.nodes.now) }
    requires lengths { length sweep.old_lengths.now ≡ length scene.nodes.now }
    requires spans { length sweep.old_spans.now ≡ length scene.nodes.now }
    requires marks { length marks.old ≡ length scene.nodes.now }
    requires kept_lengths { kept.lengths.items ≡ sweep.old_lengths.now }
    requires kept_spans { kept.spans.items ≡ sweep.old_spans.now }
    ensures lengths { IfOk result (λ along. AreMeasured sweep.entry.axis scene.entry.nodes.now scene.entry.looks.now
        scene.entry.children.now (flag_in marks.old) sweep.entry.widths.now sweep.entry.spans.now
        (extent_at sweep.entry.old_lengths.now) along.lengths.items) }
    ensures each { IfOk result (λ along. length along.lengths.items ≡ length scene.entry.nodes.now) }
    ensures each_span { IfOk result (λ along. length along.spans.items ≡ length scene.entry.nodes.now) }
    ensures root { IfOk result (λ along. span_at along.spans.items 0
        ≡ from_corner (root_length sweep.entry.root (extent_at along.lengths.items 0))) }
    ensures placed { IfOk result (λ along. ArePlaced sweep.entry.axis scene.entry.nodes.now scene.entry.looks.now
        scene.entry.children.now (flag_in marks.old)
        (widths_along sweep.entry.axis sweep.entry.widths.now along.lengths.items)
        (heights_along sweep.entry.axis along.lengths.items)
        (span_at sweep.entry.old_spans.now)
        (kept_here scene.entry.children.now sweep.entry.old_spans.now) along.spans.items) }
    ensures each_mark { OnOk result (length marks.new ≡ length scene.entry.nodes.now) }
    ensures marks { IfOk result (λ along. (p : ℕ) → p < length scene.entry.nodes.now → flag_in marks.new p
        ≡ is_worked (flag_in marks.old) (span_at sweep.entry.old_spans.now) along.spans.items p) }
    ensures work { OnOk result (work.new ≡ record work.old {
      laid = work.old.laid + (tally (flag_in marks.old) (length scene.entry.nodes.now)
          + tally (flag_in marks.new) (length scene.entry.nodes.now));
    }) }
{
    let Along {
        mut lengths,
        mut spans,
    } = kept;
    let measuring = Measuring {
        axis: sweep.axis,
        nodes: scene.nodes,
        looks: scene.looks,
        children: scene.children,
        listed: &*marks,
        widths: sweep.widths,
        spans: sweep.spans,
    };
    measure_nodes(alloc, measuring, &mut lengths, work)?;
    let room = root_length(sweep.root, extent_at(lengths.as_slice(), 0));
    let root = Span {
        start: 0,
        length: u64::from(room),
    };
    move_child(0, root, marks, &mut spans);
    let placing = Placing {
        axis: sweep.axis,
        nodes: scene.nodes,
        looks: scene.looks,
        children: scene.children,
        widths: widths_along(sweep.axis, sweep.widths, lengths.as_slice()),
        heights: heights_along(sweep.axis, lengths.as_slice()),
    };
    place_again(alloc, placing, marks, &mut spans, work)?;
    Ok(Along { lengths, spans })
}
