//! A second copy of what is kept along both axes. An update works in it, and what it changed there is then changed in
//! the first copy too, so nothing is copied of nodes that it doesn't touch.
ghost use Rattle.std.specs.Prelude.{ℕ, ◌≡◌, ◌<◌, ◌≤◌, All, IfOk, false, length};
ghost use Rattle.fx_layout_sweeps.specs.Marks.{flag_in};
ghost use Rattle.fx_layout_sweeps.specs.Nodes.{AreNodes, children_lists, extent_at, parents, places_at, span_at};

use crate::along::{Along, Scene};
use crate::copies::copied;
use fx_layout_sweeps::{Marks, children_in, extent_at, span_at};
use fx_panes_parts::{Extent, Span};
use std::alloc::{AllocError, Global};

/// Lengths and places along both axes.
#[derive(Drop)]
pub(crate) struct Spare {
    pub(crate) across: Along,
    pub(crate) down: Along,
}

/// A copy of what is kept along an axis.
pub(crate) fn copied_along(alloc: Global, along: &Along) -> Result<Along, AllocError>
    ensures lengths { IfOk result (λ copy. copy.lengths.items ≡ along.now.lengths.items) }
    ensures spans { IfOk result (λ copy. copy.spans.items ≡ along.now.spans.items) }
{
    let lengths = copied(alloc, along.lengths.as_slice())?;
    let spans = copied(alloc, along.spans.as_slice())?;
    Ok(Along { lengths, spans })
}

/// Changes lengths to those that stand elsewhere, of which they differ at most at marked places.
pub(crate) fn catch_lengths(marks: &Marks, from: &[Extent], to: &mut Vec<Extent>)
    requires each { length to.old.items ≡ length from.now }
    requires marks { length marks.now ≡ length from.now }
    requires still { (p : ℕ) → p < length from.now → flag_in marks.now p ≡ false
        → extent_at to.old.items p ≡ extent_at from.now p }
    ensures { to.new.items ≡ from.now }
{
    let mut next = 0;
    while let Some(place) = marks.first_from(next) {
        to[place] = extent_at(from, place);
        next = place + 1;
    }
}

/// Changes places to those that stand elsewhere, of which they differ at most at the root and the children of marked
/// nodes.
pub(crate) fn catch_spans(scene: Scene<'_>, marks: &Marks, from: &[Span], to: &mut Vec<Span>)
    requires some { 0 < length scene.nodes.now }
    requires nodes { AreNodes scene.nodes.now }
    requires children { scene.children.now ≡ children_lists (parents scene.nodes.now) }
    requires marks { length marks.now ≡ length scene.nodes.now }
    requires from { length from.now ≡ length scene.nodes.now }
    requires to { length to.old.items ≡ length scene.nodes.now }
    requires still { (p : ℕ) → p < length scene.nodes.now → flag_in marks.now p ≡ false
        → All (λ j. span_at to.old.items j ≡ span_at from.now j) (places_at scene.children.now p) }
    ensures { to.new.items ≡ from.now }
{
    to[0] = span_at(from, 0);
    let mut next = 0;
    while let Some(at) = marks.first_from(next) {
        let places = children_in(scene.nodes, scene.children, at);
        put_alike(places, from, to);
        next = at + 1;
    }
}

/// Puts at these places what stands there elsewhere.
fn put_alike(places: &[usize], from: &[Span], to: &mut Vec<Span>)
    requires within { All (λ j. j < length to.old.items) places.now }
    ensures each { length to.new.items ≡ length to.old.items }
    ensures alike { All (λ j. span_at to.new.items j ≡ span_at from.now j) places.now }
    ensures others { (q : ℕ) → span_at to.old.items q ≡ span_at from.now q
        → span_at to.new.items q ≡ span_at from.now q }
{
    for k in 0..places.len() {
        let place = places[k];
        to[place] = span_at(from, place);
    }
}

/// A copy of what is kept along both axes.
pub(crate) fn copied_spare(alloc: Global, across: &Along, down: &Along) -> Result<Spare, AllocError>
    ensures widths { IfOk result (λ spare. spare.across.lengths.items ≡ across.now.lengths.items) }
    ensures across { IfOk result (λ spare. spare.across.spans.items ≡ across.now.spans.items) }
    ensures heights { IfOk result (λ spare. spare.down.lengths.items ≡ down.now.lengths.items) }
    ensures down { IfOk result (λ spare. spare.down.spans.items ≡ down.now.spans.items) }
{
    let across = copied_along(alloc, across)?;
    let down = copied_along(alloc, down)?;
    Ok(Spare { across, down })
}

/// Changes lengths and places to those that stand elsewhere, of which they differ at most at marked nodes, at their
/// children and at the root.
pub(crate) fn catch_up(scene: Scene<'_>, marks: &Marks, from: &Along, to: &mut Along)
    requires some { 0 < length scene.nodes.now }
    requires nodes { AreNodes scene.nodes.now }
    requires children { scene.children.now ≡ children_lists (parents scene.nodes.now) }
    requires marks { length marks.now ≡ length scene.nodes.now }
    requires from_lengths { length from.now.lengths.items ≡ length scene.nodes.now }
    requires from_spans { length from.now.spans.items ≡ length scene.nodes.now }
    requires to_lengths { length to.old.lengths.items ≡ length scene.nodes.now }
    requires to_spans { length to.old.spans.items ≡ length scene.nodes.now }
    requires still_lengths { (p : ℕ) → p < length scene.nodes.now → flag_in marks.now p ≡ false
        → extent_at to.old.lengths.items p ≡ extent_at from.now.lengths.items p }
    requires still_spans { (p : ℕ) → p < length scene.nodes.now → flag_in marks.now p ≡ false
        → All (λ j. span_at to.old.spans.items j ≡ span_at from.now.spans.items j)
        (places_at scene.children.now p) }
    ensures lengths { to.new.lengths.items ≡ from.now.lengths.items }
    ensures spans { to.new.spans.items ≡ from.now.spans.items }
{
    catch_lengths(marks, from.lengths.as_slice(), &mut to.lengths);
    catch_spans(scene, marks, from.spans.as_slice(), &mut to.spans);
}
