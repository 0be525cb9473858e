//! Placing from the root, along one axis, where nodes may stand elsewhere in the list than they stood.
ghost use Rattle.std.specs.Prelude.{ℕ, ◌≡◌, ◌≢◌, ◌+◌, ◌<◌, All, AllPairs, OnOk, if◌then◌else◌, length, map};
ghost use Rattle.fx_layout_sweeps.specs.Marks.{flag_in};
ghost use Rattle.fx_layout_sweeps.specs.Nodes.{AreNodes, children_lists, parents, places_at, span_at};
ghost use Rattle.fx_layout_sweeps.specs.Sweeps.{ArePlaced, IsPut, is_worked, kept_in, last_in, old_at, spans_for, tally};

use crate::lengths::{NOWHERE, span_at};
use crate::marks::Marks;
use crate::nodes::children_in;
use crate::places::Places;
use crate::placing::{Placing, put_spans, spans_of};
use fx_base::{Ledgers, Work};
use fx_panes_parts::Span;
use std::alloc::{AllocError, Global};

/// What placing looks at, and what is kept of the last update.
#[derive(Clone, Copy)]
pub struct Moving<'a> {
    pub placing: Placing<'a>,
    /// Where each node stood.
    pub olds: &'a [usize],
    pub old_children: &'a [Places],
    pub old_spans: &'a [Span],
}

/// Where each node stands in its parent. The children of a node that is marked, or is longer or shorter than it was,
/// are placed by its pane; those of any other stay where they were kept. The marks are then of the nodes whose
/// children were placed anew.
pub fn place_nodes<L: Ledgers>(
    alloc: Global,
    sweep: Moving<'_>,
    marks: &mut Marks,
    spans: &mut Vec<Span>,
    work: &mut Work<L>,
) -> Result<(), AllocError>
    requires looks { length sweep.placing.looks.now ≡ length sweep.placing.nodes.now }
    requires nodes { AreNodes sweep.placing.nodes.now }
    requires children { sweep.placing.children.now ≡ children_lists (parents sweep.placing.nodes.now) }
    requires spans { length spans.old.items ≡ length sweep.placing.nodes.now }
    requires marks { length marks.old ≡ length sweep.placing.nodes.now }
    ensures each { OnOk result (length spans.new.items ≡ length sweep.entry.placing.nodes.now) }
    ensures each_mark { OnOk result (length marks.new ≡ length sweep.entry.placing.nodes.now) }
    ensures root { OnOk result (span_at spans.new.items 0 ≡ span_at spans.old.items 0) }
    ensures placed { OnOk result (ArePlaced sweep.entry.placing.axis sweep.entry.placing.nodes.now
        sweep.entry.placing.looks.now sweep.entry.placing.children.now (flag_in marks.old)
        sweep.entry.placing.widths.now sweep.entry.placing.heights.now
        (last_in sweep.entry.olds.now sweep.entry.old_spans.now)
        (kept_in sweep.entry.olds.now sweep.entry.old_children.now sweep.entry.old_spans.now) spans.new.items) }
    ensures marks { OnOk result ((p : ℕ) → p < length sweep.entry.placing.nodes.now → flag_in marks.new p
        ≡ is_worked (flag_in marks.old) (last_in sweep.entry.olds.now sweep.entry.old_spans.now)
        spans.new.items p) }
    ensures work { OnOk result (work.new ≡ record work.old {
      laid = work.old.laid + tally (flag_in marks.new) (length sweep.entry.placing.nodes.now);
    }) }
{
    for at in 0..sweep.placing.nodes.len() {
        let worked = is_worked(sweep, marks, spans.as_slice(), at);
        marks.put(at, worked);
        place_children(alloc, sweep, at, worked, spans, work)?;
    }
    Ok(())
}

#[tactic(auto, using(crate::proofs::Spreads::kept_read, crate::proofs::Spreads::kept_missing))]
fn kept_at(places: &[usize], spans: &[Span], k: usize) -> Span
    ensures { result ≡ span_at (map (span_at spans.now) places.now) k }
{
    if k < places.len() {
        span_at(spans, places[k])
    } else {
        NOWHERE
    }
}

/// Puts what is kept for the old places at the places.
fn put_kept(places: &[usize], old_places: &[usize], old: &[Span], spans: &mut Vec<Span>)
    requires within { All (λ j. j < length spans.old.items) places.now }
    requires apart { AllPairs (λ i j. i ≢ j) places.now }
    ensures { IsPut places.now (map (span_at old.now) old_places.now) spans.old.items spans.new.items }
{
    for k in 0..places.len() {
        spans[places[k]] = kept_at(old_places, old, k);
    }
}

/// The place that is kept for the node at this place.
fn old_at(olds: &[usize], at: usize) -> usize
    ensures { result ≡ old_at olds.now at }
{
    match olds.get(at) {
        Some(old) => *old,
        None => 0,
    }
}

/// The places of the children of a node that may not be there.
fn old_places(children: &[Places], at: usize) -> &[usize]
    ensures { result.now ≡ places_at children.now at }
{
    match children.get(at) {
        Some(places) => places.as_slice(),
        None => &[],
    }
}

/// Are the children of the node at this place placed anew?
fn is_worked(sweep: Moving<'_>, marks: &Marks, spans: &[Span], at: usize) -> bool
    ensures { result ≡ is_worked (flag_in marks.now) (last_in sweep.entry.olds.now sweep.entry.old_spans.now)
        spans.now at }
{
    marks.is_marked(at)
        || span_at(spans, at).length != span_at(sweep.old_spans, old_at(sweep.olds, at)).length
}

/// Places the children of one node.
fn place_children<L: Ledgers>(
    alloc: Global,
    sweep: Moving<'_>,
    at: usize,
    worked: bool,
    spans: &mut Vec<Span>,
    work: &mut Work<L>,
) -> Result<(), AllocError>
    requires looks { length sweep.placing.looks.now ≡ length sweep.placing.nodes.now }
    requires nodes { AreNodes sweep.placing.nodes.now }
    requires children { sweep.placing.children.now ≡ children_lists (parents sweep.placing.nodes.now) }
    requires spans { length spans.old.items ≡ length sweep.placing.nodes.now }
    requires place { at < length sweep.placing.nodes.now }
    ensures put { OnOk result (IsPut (places_at sweep.entry.placing.children.now at)
        (spans_for sweep.entry.placing.axis sweep.entry.placing.nodes.now sweep.entry.placing.looks.now
        sweep.entry.placing.children.now sweep.entry.placing.widths.now sweep.entry.placing.heights.now
        (kept_in sweep.entry.olds.now sweep.entry.old_children.now sweep.entry.old_spans.now) at worked
        (span_at spans.old.items at).length)
        spans.old.items spans.new.items) }
    ensures work { OnOk result (work.new ≡ record work.old { laid = work.old.laid + (if worked then 1 else 0) }) }
{
    let places = children_in(sweep.placing.nodes, sweep.placing.children, at);
    if worked {
        let room = span_at(spans.as_slice(), at).length;
        let found = spans_of(alloc, sweep.placing, at, room, work)?;
        put_spans(places, found.as_slice(), spans);
    } else {
        let old = old_places(sweep.old_children, old_at(sweep.olds, at));
        put_kept(places, old, sweep.old_spans, spans);
    }
    Ok(())
}
