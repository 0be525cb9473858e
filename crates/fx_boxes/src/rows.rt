//! Rows of children along either axis, and what stands beside them: HBox and VBox in one.
//! It stands on the track rule, below the two panes.
ghost use Rattle.std.specs.Prelude.{◌≡◌, ◌+◌, ◌*◌, ◌^◌, ◌<◌, ◌≤◌, List, ◌∷◌, IfOk, length, map, sum_by};
ghost use Rattle.std.specs.Simd.Lanes.{zip2};
ghost use Rattle.fx_boxes.specs.Rows as spec;
ghost use Rattle.fx_panes_parts.specs.declared.axes.ChildAxis.{ChildAxis};
ghost use Rattle.fx_panes_parts.specs.Axes.{IsChildAxis, IsPaneAxis, along, child_axis, content, gaps, pane_axis};
ghost use Rattle.fx_panes_parts.specs.Parts.{greatest_of, part_of};

use fx_base::{ChildSize, PaneFacts, Rect};
use fx_panes_parts::{
    Axis, ChildAxis, Extent, PaneAxis, Part, Plan, Span, aligned, child_axis, content,
    filled_length, gaps, insets, pane_axis, pane_extent, part_of, pixels, plan_for, rect_of,
};
use std::alloc::{AllocError, Global};

/// A row of which some children have been placed: how the others come to their lengths, and where the next begins.
#[derive(Clone, Copy, PartialEq, Eq, Debug)]
pub struct Row {
    pub plan: Plan,
    pub at: u64,
    pub spacing: u64,
}

/// What children need along an axis: a minimum and a preferred length.
#[derive(Clone, Copy, PartialEq, Eq, Debug)]
struct Needs {
    min: u64,
    pref: u64,
}

/// The sizes of a pane along the axis of its row.
pub(crate) fn row_extent(axis: Axis, pane: &PaneFacts, children: &[ChildSize]) -> Extent
    requires { length children.now ≤ 4096 }
    ensures { result ≡ spec.row_extent (pane_axis axis pane.now) (along axis children.now) }
{
    let facts = pane_axis(axis, pane);
    let rest = insets(&facts) + gaps(facts.spacing, children.len());
    let sums = sums_along(axis, children);
    pane_extent(facts.own, rest + sums.min, rest + sums.pref)
}

/// The sizes of a pane along the axis beside its row.
pub(crate) fn beside_extent(axis: Axis, pane: &PaneFacts, children: &[ChildSize]) -> Extent
    ensures { result ≡ spec.beside_extent (pane_axis axis pane.now) (along axis children.now) }
{
    let facts = pane_axis(axis, pane);
    let around = insets(&facts);
    let most = most_along(axis, children);
    pane_extent(facts.own, around + most.min, around + most.pref)
}

/// The minimum and the preferred lengths of all children together, with their margins.
fn sums_along(axis: Axis, children: &[ChildSize]) -> Needs
    requires { length children.now ≤ 4096 }
    ensures min { result.min ≡ sum_by (λ part. part.min) (spec.parts_of (along axis children.now)) }
    ensures pref { result.pref ≡ sum_by (λ part. part.pref) (spec.parts_of (along axis children.now)) }
    ensures most_min { result.min ≤ 2 ^ 32 * length children.now }
    ensures most_pref { result.pref ≤ 2 ^ 32 * length children.now }
{
    let mut min = 0;
    let mut pref = 0;
    for child in children {
        let part = part_of(&child_axis(axis, child));
        min += u64::from(part.min);
        pref += u64::from(part.pref);
    }
    Needs { min, pref }
}

/// The greatest minimum and the greatest preferred length of the children with their margins, or 0.
fn most_along(axis: Axis, children: &[ChildSize]) -> Needs
    ensures min { result.min ≡ greatest_of (map (λ part. part.min) (spec.parts_of (along axis children.now))) }
    ensures pref { result.pref ≡ greatest_of (map (λ part. part.pref) (spec.parts_of (along axis children.now))) }
    ensures most_min { result.min < 2 ^ 32 }
    ensures most_pref { result.pref < 2 ^ 32 }
{
    let mut min = 0;
    let mut pref = 0;
    for child in children {
        let part = part_of(&child_axis(axis, child));
        min = u64::from(part.min).max(min);
        pref = u64::from(part.pref).max(pref);
    }
    Needs { min, pref }
}

/// The rectangles of the children of a row of this axis, in a pane that is so long along it and so long beside it.
pub(crate) fn row_rects(
    alloc: Global,
    axis: Axis,
    pane: &PaneFacts,
    children: &[ChildSize],
    length_along: u64,
    length_beside: u64,
) -> Result<Vec<Rect>, AllocError>
    requires few { length children.now ≤ 4096 }
    requires along { length_along ≤ 100000 }
    requires beside { length_beside ≤ 100000 }
    ensures { IfOk result (λ rects. rects.items ≡ zip2 (spec.rect_along axis)
        (spec.row_spans (pane_axis axis pane.now) (along axis children.now) length_along)
        (spec.beside_spans (pane_axis (spec.other axis) pane.now) (along (spec.other axis) children.now)
        length_beside)) }
{
    let facts = pane_axis(other(axis), pane);
    let parts = parts_along(alloc, axis, children)?;
    let mut row = row_for(&pane_axis(axis, pane), parts.as_slice(), length_along);
    let mut rects = Vec::with_capacity(alloc, children.len())?;
    for child in children {
        let along = row.next(&child_axis(axis, child));
        let beside = beside_span(&facts, length_beside, &child_axis(other(axis), child));
        rects.push(rect_along(axis, along, beside))?;
    }
    Ok(rects)
}

/// The parts of the children along an axis. They are gone over some six times, and are a tenth as long as children.
fn parts_along(alloc: Global, axis: Axis, children: &[ChildSize]) -> Result<Vec<Part>, AllocError>
    ensures { IfOk result (λ parts. parts.items ≡ spec.parts_of (along axis children.now)) }
{
    let mut parts = Vec::with_capacity(alloc, children.len())?;
    for child in children {
        parts.push(part_of(&child_axis(axis, child)))?;
    }
    Ok(parts)
}

/// The row before any child has been placed, of children that have these parts.
pub fn row_for(pane: &PaneAxis, parts: &[Part], length_along: u64) -> Row
    requires pane { IsPaneAxis pane.now }
    requires few { length parts.now ≤ 4096 }
    requires long { length_along ≤ 100000 }
    ensures spans { (children : List ChildAxis) → parts.now ≡ spec.parts_of children
        → spec.spans_by result children ≡ spec.row_spans pane.now children length_along }
    ensures at { result.at ≤ 2 ^ 18 }
    ensures spacing { result.spacing ≤ 100000 }
{
    let space = content(pane, length_along);
    let between = gaps(pane.spacing, parts.len());
    // a part is the same along both axes
    let plan = plan_for(space.saturating_sub(between), Axis::Across, parts);
    let used = plan.whole(Axis::Across, parts) + between;
    Row {
        plan,
        at: pane.before + aligned(pane.alignment, used, space),
        spacing: pane.spacing,
    }
}

impl Row {
    /// Where the next child stands along the row.
    pub fn next(&mut self, child: &ChildAxis) -> Span
        requires child { IsChildAxis child.now }
        requires at { self.old.at < 2 ^ 60 }
        requires spacing { self.old.spacing ≤ 100000 }
        ensures next { (children : List ChildAxis) → spec.spans_by self.old (child.now ∷ children)
            ≡ result ∷ spec.spans_by self.new children }
        ensures at { self.new.at ≤ self.old.at + 2 ^ 35 }
        ensures spacing { self.new.spacing ≡ self.old.spacing }
    {
        self.next_of(part_of(child), child.before, child.after)
    }

    /// The same of a child of which just the part and the margins are told.
    pub fn next_of(&mut self, part: Part, before: u64, after: u64) -> Span
        requires before { before ≤ 100000 }
        requires after { after ≤ 100000 }
        requires at { self.old.at < 2 ^ 60 }
        requires spacing { self.old.spacing ≤ 100000 }
        ensures next { (child : ChildAxis) (children : List ChildAxis)
            → part ≡ part_of child → before ≡ child.before → after ≡ child.after
            → spec.spans_by self.old (child ∷ children) ≡ result ∷ spec.spans_by self.new children }
        ensures at { self.new.at ≤ self.old.at + 2 ^ 35 }
        ensures spacing { self.new.spacing ≡ self.old.spacing }
    {
        let length = self.plan.next(part);
        let span = span_at(self.at, before, after, length);
        self.at += length + self.spacing;
        span
    }
}

/// Where a child with these margins stands that begins at a place and has this length, both with its margins.
fn span_at(at: u64, before: u64, after: u64, outer_length: u64) -> Span
    requires at { at < 2 ^ 60 }
    requires before { before ≤ 100000 }
    requires after { after ≤ 100000 }
    ensures { (child : ChildAxis) → before ≡ child.before → after ≡ child.after
        → result ≡ spec.span_at at child outer_length }
{
    Span {
        start: pixels(at + before),
        length: outer_length.saturating_sub(before + after),
    }
}

/// Where a child stands beside the row, in a pane of this length.
pub fn beside_span(pane: &PaneAxis, length_beside: u64, child: &ChildAxis) -> Span
    requires pane { IsPaneAxis pane.now }
    requires long { length_beside ≤ 100000 }
    requires child { IsChildAxis child.now }
    ensures { result ≡ spec.beside_span pane.now length_beside child.now }
{
    beside_of(pane, length_beside, child.extent, child.before, child.after)
}

/// The same of a child of which just the lengths and the margins are told.
#[tactic(auto, unfolding(crate::specs::Rows::beside_span))]
pub fn beside_of(
    pane: &PaneAxis,
    length_beside: u64,
    extent: Extent,
    before: u64,
    after: u64,
) -> Span
    requires pane { IsPaneAxis pane.now }
    requires long { length_beside ≤ 100000 }
    requires before { before ≤ 100000 }
    requires after { after ≤ 100000 }
    ensures { (child : ChildAxis) → extent ≡ child.extent → before ≡ child.before → after ≡ child.after
        → result ≡ spec.beside_span pane.now length_beside child }
{
    let free = content(pane, length_beside).saturating_sub(before + after);
    let length = filled_length(pane.fill, extent, free);
    Span {
        start: pixels(pane.before + before + aligned(pane.alignment, length, free)),
        length,
    }
}

fn rect_along(axis: Axis, along: Span, beside: Span) -> Rect
    ensures { result ≡ spec.rect_along axis along beside }
{
    match axis {
        Axis::Across => rect_of(along, beside),
        Axis::Down => rect_of(beside, along),
    }
}

fn other(axis: Axis) -> Axis
    ensures { result ≡ spec.other axis }
{
    match axis {
        Axis::Across => Axis::Down,
        Axis::Down => Axis::Across,
    }
}
