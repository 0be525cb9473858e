//! The places of the nodes in the window, added up from the root.
ghost use Rattle.std.specs.Prelude.{ℕ, ◌≡◌, ◌≢◌, ◌≤ℤ◌, ◌+ℤ◌, ◌<◌, negsuc, pos, ◌^◌, All, AllPairs, IfOk, false, length, slice_set, true};
ghost use Rattle.fx_layout_sweeps.specs.Marks.{flag_in};
ghost use Rattle.fx_layout_sweeps.specs.Nodes.{AreNodes, children_lists, node_at, parents, span_at};
ghost use Rattle.fx_layout_sweeps.specs.Sweeps.{old_at};
ghost use Rattle.fx_layout.specs.Keeping.{AreAdded, AreAlike};
ghost use Rattle.fx_layout.specs.Updates.{AreRects, around, reached, rect_at, shifted};

use crate::along::Scene;
use fx_base::Rect;
use fx_kinds::BoxFacts;
use fx_layout_sweeps::{Marks, children_in, span_at};
use fx_panes_parts::{Span, pixels};
use std::alloc::{AllocError, Global};

const CORNER: Rect = Rect {
    x: 0,
    y: 0,
    w: 0,
    h: 0,
};

/// Where each node stands in its parent, along both axes.
#[derive(Clone, Copy)]
pub(crate) struct Halves<'a> {
    pub(crate) across: &'a [Span],
    pub(crate) down: &'a [Span],
}

/// The rectangle of each node, by where each stands in its parent.
pub(crate) fn rects_of(
    alloc: Global,
    nodes: &[BoxFacts],
    across: &[Span],
    down: &[Span],
) -> Result<Vec<Rect>, AllocError>
    requires { AreNodes nodes.now }
    ensures { IfOk result (λ rects. AreRects nodes.now across.now down.now rects.items) }
{
    let mut rects = Vec::with_capacity(alloc, nodes.len())?;
    for place in 0..nodes.len() {
        let outer = around(rects.as_slice(), parent_at(nodes, place));
        rects.push(shifted(outer, span_at(across, place), span_at(down, place)))?;
    }
    Ok(rects)
}

/// Adds up again where the nodes stand: the children of those that are marked, and of those that have another rectangle
/// then, which are marked too.
pub(crate) fn add_again(
    scene: Scene<'_>,
    halves: Halves<'_>,
    marks: &mut Marks,
    rects: &mut Vec<Rect>,
)
    requires some { 0 < length scene.nodes.now }
    requires nodes { AreNodes scene.nodes.now }
    requires children { scene.children.now ≡ children_lists (parents scene.nodes.now) }
    requires marks { length marks.old ≡ length scene.nodes.now }
    requires rects { length rects.old.items ≡ length scene.nodes.now }
    requires kept { (p : ℕ) → p < length scene.nodes.now → flag_in marks.old p ≡ false
        → AreAdded scene.children.now halves.across.now halves.down.now rects.old.items
        (rect_at rects.old.items p) p }
    ensures rects { AreRects scene.entry.nodes.now halves.entry.across.now halves.entry.down.now rects.new.items }
    ensures each_mark { length marks.new ≡ length scene.entry.nodes.now }
    ensures still { (p : ℕ) → p < length scene.entry.nodes.now → flag_in marks.new p ≡ false
        → rect_at rects.new.items p ≡ rect_at rects.old.items p }
{
    let root = shifted(CORNER, span_at(halves.across, 0), span_at(halves.down, 0));
    put_rect(0, root, marks, rects);
    let mut from = 0;
    while let Some(at) = marks.first_from(from) {
        let outer = rect_at(rects.as_slice(), at);
        let places = children_in(scene.nodes, scene.children, at);
        add_children(outer, places, halves, marks, rects);
        from = at + 1;
    }
}

/// Puts the children that stand at these places into a rectangle, and marks those that have another one then.
fn add_children(
    outer: Rect,
    places: &[usize],
    halves: Halves<'_>,
    marks: &mut Marks,
    rects: &mut Vec<Rect>,
)
    requires within { All (λ j. j < length rects.old.items) places.now }
    requires apart { AllPairs (λ i j. i ≢ j) places.now }
    requires marks { length marks.old ≡ length rects.old.items }
    ensures each { length rects.new.items ≡ length rects.old.items }
    ensures added { All (λ j. rect_at rects.new.items j
        ≡ shifted outer (span_at halves.entry.across.now j) (span_at halves.entry.down.now j)) places.now }
    ensures others { (q : ℕ) → All (λ j. j ≢ q) places.now
        → rect_at rects.new.items q ≡ rect_at rects.old.items q }
    ensures each_mark { length marks.new ≡ length marks.old }
    ensures marks { (q : ℕ) → q < length marks.old → flag_in marks.new q ≡ false
        → (flag_in marks.old q ≡ false) × (rect_at rects.new.items q ≡ rect_at rects.old.items q) }
{
    for k in 0..places.len() {
        let place = places[k];
        let rect = shifted(
            outer,
            span_at(halves.across, place),
            span_at(halves.down, place),
        );
        put_rect(place, rect, marks, rects);
    }
}

/// Puts a rectangle at a place, and marks the place if it was another one.
fn put_rect(place: usize, rect: Rect, marks: &mut Marks, rects: &mut Vec<Rect>)
    requires within { place < length rects.old.items }
    requires marks { length marks.old ≡ length rects.old.items }
    ensures rects { rects.new.items ≡ slice_set rects.old.items place rect }
    ensures each_mark { length marks.new ≡ length marks.old }
    ensures marks { (q : ℕ) → q < length marks.old → flag_in marks.new q ≡ false
        → (flag_in marks.old q ≡ false) × (rect_at rects.new.items q ≡ rect_at rects.old.items q) }
{
    let moves = !are_alike(rect, rect_at(rects.as_slice(), place));
    marks.mark_if(place, moves);
    rects[place] = rect;
}

/// Have these rectangles the same four numbers?
fn are_alike(one: Rect, other: Rect) -> bool
    ensures { result ≡ true → AreAlike one other }
{
    one.x == other.x && one.y == other.y && one.w == other.w && one.h == other.h
}

/// Marks of the nodes that have another rectangle than before, or had none, by the place where each stood.
pub(crate) fn changed_of(
    alloc: Global,
    olds: &[usize],
    before: &[Rect],
    rects: &[Rect],
) -> Result<Marks, AllocError>
    ensures each { IfOk result (λ marks. length marks ≡ length olds.now) }
    ensures still { IfOk result (λ marks. (p : ℕ) → p < length olds.now → flag_in marks p ≡ false
        → (old_at olds.now p < length before.now) × (rect_at rects.now p ≡ rect_at before.now (old_at olds.now p))) }
{
    let mut marks = Marks::new(alloc, olds.len())?;
    for place in 0..olds.len() {
        let changes = !stood(before, olds[place], rect_at(rects, place));
        marks.put(place, changes);
    }
    Ok(marks)
}

/// Was this the rectangle at a place?
fn stood(before: &[Rect], place: usize, rect: Rect) -> bool
    ensures there { result ≡ true → place < length before.now }
    ensures alike { result ≡ true → AreAlike rect (rect_at before.now place) }
{
    place < before.len() && are_alike(rect, rect_at(before, place))
}

pub(crate) fn parent_at(nodes: &[BoxFacts], place: usize) -> Option<usize>
    ensures { result ≡ (node_at nodes.now place).parent }
{
    match nodes.get(place) {
        Some(node) => node.parent,
        None => None,
    }
}

/// What a node stands in.
fn around(rects: &[Rect], parent: Option<usize>) -> Rect
    ensures { result ≡ around rects.now parent }
{
    match parent {
        None => CORNER,
        Some(place) => rect_at(rects, place),
    }
}

fn rect_at(rects: &[Rect], place: usize) -> Rect
    ensures { result ≡ rect_at rects.now place }
{
    match rects.get(place) {
        Some(rect) => *rect,
        None => CORNER,
    }
}

fn shifted(outer: Rect, across: Span, down: Span) -> Rect
    ensures { result ≡ shifted outer across down }
{
    Rect {
        x: reached(sum(outer.x, across.start)),
        y: reached(sum(outer.y, down.start)),
        w: pixels(across.length),
        h: pixels(down.length),
    }
}

fn sum(from: i64, by: i64) -> i128
    ensures { result ≡ from +ℤ by }
{
    i128::from(from) + i128::from(by)
}

/// A place within ten to the twelve pixels.
fn reached(place: i128) -> i64
    ensures { result ≡ reached place }
{
    place.clamp(-1_000_000_000_000, 1_000_000_000_000) as i64
}
