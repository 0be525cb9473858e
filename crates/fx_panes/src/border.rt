//! BorderPane: children at the four edges and in the centre.
//! It stands on the rules that panes share, below the layout of the whole tree.
ghost use Rattle.std.specs.Prelude.{◌≡◌, ◌+◌, ◌≤◌, IfOk, length};
ghost use Rattle.fx_panes_parts.specs.Axes.{IsChildAxis, IsPaneAxis, along, child_axis, pane_axis};
ghost use Rattle.fx_panes_parts.specs.Lengths.{length_of};
ghost use Rattle.fx_panes_parts.specs.Panes.{IsAcrossFirst};
ghost use Rattle.fx_panes.specs.Border as spec;
ghost use Rattle.fx_panes_parts.specs.Sizes.{held, in_area};
ghost use Rattle.fx_panes.specs.Rules.{inner};

use crate::rules::{Bound, inner, outer_by};
use fx_base::{ChildSize, Ledgers, PaneFacts, Rect, Sizes, Work};
use fx_panes_parts::{
    Axis, ChildAxis, Extent, PaneAxis, Span, child_axis, content, held, in_area, insets, joined,
    length_of, pane_axis, pane_extent, rect_of,
};
use std::alloc::{AllocError, Global};

/// Where a child of a BorderPane stands.
#[derive(Clone, Copy, PartialEq, Eq, Debug)]
pub enum Edge {
    Top,
    Right,
    Bottom,
    Left,
    Center,
}

/// A part of the content along one axis.
#[derive(Clone, Copy, PartialEq, Eq, Debug)]
pub enum Area {
    Head,
    Middle,
    Tail,
    Whole,
}

/// How long the child of each area is with its margins, in pixels.
#[derive(Clone, Copy, PartialEq, Eq, Debug)]
pub struct Areas {
    pub head: u64,
    pub middle: u64,
    pub tail: u64,
    pub whole: u64,
}

/// The sizes of a BorderPane with these children.
pub fn measure<L: Ledgers>(
    _alloc: Global,
    pane: &PaneFacts,
    children: &[ChildSize],
    work: &mut Work<L>,
) -> Result<Sizes, AllocError>
    ensures sizes { result ≡ Ok (spec.border_sizes pane.now children.now) }
    ensures work { work.new ≡ record work.old { laid = work.old.laid + 1 } }
{
    work.laid.tick();
    Ok(joined(
        extent(Axis::Across, pane, children),
        extent(Axis::Down, pane, children),
    ))
}

/// Where the children of a BorderPane of this size stand.
pub fn place<L: Ledgers>(
    alloc: Global,
    pane: &PaneFacts,
    children: &[ChildSize],
    w: i64,
    h: i64,
    work: &mut Work<L>,
) -> Result<Vec<Rect>, AllocError>
    ensures rects { IfOk result (λ rects. rects.items
        ≡ spec.border_rects pane.now children.now (length_of w) (length_of h)) }
    ensures each { IfOk result (λ rects. length rects.items ≡ length children.now) }
    ensures work { work.new ≡ record work.old { laid = work.old.laid + 1 } }
{
    work.laid.tick();
    rects(alloc, pane, children, length_of(w), length_of(h))
}

/// What is across depends on nothing vertical.
pub fn across_first()
    ensures { IsAcrossFirst spec.border_sizes spec.border_rects }
{}

fn rects(
    alloc: Global,
    pane: &PaneFacts,
    children: &[ChildSize],
    width: u64,
    height: u64,
) -> Result<Vec<Rect>, AllocError>
    requires width { width ≤ 100000 }
    requires height { height ≤ 100000 }
    ensures { IfOk result (λ rects. rects.items ≡ spec.border_rects pane.now children.now width height) }
{
    let across = pane_axis(Axis::Across, pane);
    let down = pane_axis(Axis::Down, pane);
    let columns = areas_by(Bound::Preferred, Axis::Across, children);
    let rows = areas_by(Bound::Preferred, Axis::Down, children);
    let mut rects = Vec::with_capacity(alloc, children.len())?;
    for child in children {
        let x = span(Axis::Across, &across, columns, width, child);
        let y = span(Axis::Down, &down, rows, height, child);
        rects.push(rect_of(x, y))?;
    }
    Ok(rects)
}

#[tactic(auto, unfolding(crate::specs::Border::border_extent))]
fn extent(axis: Axis, pane: &PaneFacts, children: &[ChildSize]) -> Extent
    ensures { result ≡ spec.border_extent axis (pane_axis axis pane.now) (along axis children.now) }
{
    let pane = pane_axis(axis, pane);
    pane_extent(
        pane.own,
        computed(axis, Bound::Minimum, &pane, children),
        computed(axis, Bound::Preferred, &pane, children),
    )
}

#[tactic(auto, unfolding(crate::specs::Border::border_computed))]
fn computed(axis: Axis, bound: Bound, pane: &PaneAxis, children: &[ChildSize]) -> u64
    requires { IsPaneAxis pane.now }
    ensures { result ≡ spec.border_computed axis bound pane.now (along axis children.now) }
{
    let kept = areas_by(Bound::Preferred, axis, children);
    let areas = areas_by(bound, axis, children);
    insets(pane) + areas.whole.max(kept.head + areas.middle + kept.tail)
}

/// What each area has to hold.
#[tactic(auto, unfolding(crate::specs::Border::areas_by))]
fn areas_by(bound: Bound, axis: Axis, children: &[ChildSize]) -> Areas
    ensures value { result ≡ spec.areas_by bound axis (along axis children.now) }
    ensures few { spec.IsRoom result }
{
    let mut areas = Areas {
        head: 0,
        middle: 0,
        tail: 0,
        whole: 0,
    };
    for child in children {
        areas = areas_with(bound, axis, areas, &child_axis(axis, child));
    }
    areas
}

#[tactic(auto, unfolding(crate::specs::Border::areas_with))]
fn areas_with(bound: Bound, axis: Axis, areas: Areas, child: &ChildAxis) -> Areas
    requires areas { spec.IsRoom areas }
    requires child { IsChildAxis child.now }
    ensures value { result ≡ spec.areas_with bound axis areas child.now }
    ensures few { spec.IsRoom result }
{
    widened(
        area_of(axis, edge_of(child.edge)),
        outer_by(bound, child),
        areas,
    )
}

#[tactic(auto, unfolding(crate::specs::Border::widened))]
fn widened(area: Area, length: u64, areas: Areas) -> Areas
    requires length { length ≤ 300000 }
    requires areas { spec.IsRoom areas }
    ensures value { result ≡ spec.widened area length areas }
    ensures few { spec.IsRoom result }
{
    let mut areas = areas;
    match area {
        Area::Head => areas.head = areas.head.max(length),
        Area::Middle => areas.middle = areas.middle.max(length),
        Area::Tail => areas.tail = areas.tail.max(length),
        Area::Whole => areas.whole = areas.whole.max(length),
    }
    areas
}

#[tactic(auto, unfolding(crate::specs::Border::edge_of))]
fn edge_of(number: Option<u8>) -> Edge
    ensures { result ≡ spec.edge_of number }
{
    match number {
        Some(0) => Edge::Top,
        Some(1) => Edge::Right,
        Some(2) => Edge::Bottom,
        Some(3) => Edge::Left,
        _ => Edge::Center,
    }
}

#[tactic(auto, unfolding(crate::specs::Border::area_of))]
fn area_of(axis: Axis, edge: Edge) -> Area
    ensures { result ≡ spec.area_of axis edge }
{
    match axis {
        Axis::Across => match edge {
            Edge::Left => Area::Head,
            Edge::Right => Area::Tail,
            Edge::Center => Area::Middle,
            Edge::Top | Edge::Bottom => Area::Whole,
        },
        Axis::Down => match edge {
            Edge::Top => Area::Head,
            Edge::Bottom => Area::Tail,
            Edge::Left | Edge::Center | Edge::Right => Area::Middle,
        },
    }
}

/// The side of its area at which a child stands that says nothing of it.
#[tactic(auto, unfolding(crate::specs::Border::side_of))]
fn side_of(axis: Axis, edge: Edge) -> u8
    ensures { result ≡ spec.side_of axis edge }
{
    match edge {
        Edge::Center => 1,
        Edge::Right => match axis {
            Axis::Across => 2,
            Axis::Down => 0,
        },
        Edge::Bottom => match axis {
            Axis::Across => 0,
            Axis::Down => 2,
        },
        Edge::Top | Edge::Left => 0,
    }
}

#[tactic(auto, unfolding(crate::specs::Border::border_span))]
fn span(axis: Axis, pane: &PaneAxis, kept: Areas, length: u64, child: &ChildSize) -> Span
    requires pane { IsPaneAxis pane.now }
    requires kept { spec.IsRoom kept }
    requires length { length ≤ 100000 }
    ensures { result ≡ spec.border_span axis pane.now kept length (child_axis axis child.now) }
{
    let child = child_axis(axis, child);
    let edge = edge_of(child.edge);
    let how = child.alignment.unwrap_or(side_of(axis, edge));
    bordered(
        area_of(axis, edge),
        how,
        pane,
        kept,
        content(pane, length),
        &child,
    )
}

#[tactic(auto, unfolding(crate::specs::Border::bordered))]
fn bordered(
    area: Area,
    how: u8,
    pane: &PaneAxis,
    kept: Areas,
    space: u64,
    child: &ChildAxis,
) -> Span
    requires pane { IsPaneAxis pane.now }
    requires kept { spec.IsRoom kept }
    requires space { space ≤ 100000 }
    requires child { IsChildAxis child.now }
    ensures { result ≡ spec.bordered area how pane.now kept space child.now }
{
    let tail = tail_start(kept, space);
    match area {
        Area::Head => in_area(how, pane.before, kept.head, child, child.extent.pref),
        Area::Tail => in_area(how, pane.before + tail, kept.tail, child, child.extent.pref),
        Area::Middle => filled(
            how,
            pane.before + kept.head,
            tail.saturating_sub(kept.head),
            child,
        ),
        Area::Whole => filled(how, pane.before, space, child),
    }
}

/// Where the area at the tail begins in the content.
fn tail_start(kept: Areas, space: u64) -> u64
    requires kept { spec.IsRoom kept }
    requires space { space ≤ 100000 }
    ensures value { result ≡ spec.tail_start kept space }
    ensures most { result ≤ 300000 }
{
    kept.head.max(space.saturating_sub(kept.tail))
}

/// Where a child stands that fills its area.
fn filled(how: u8, start: u64, area: u64, child: &ChildAxis) -> Span
    requires start { start ≤ 400000 }
    requires area { area ≤ 300000 }
    requires child { IsChildAxis child.now }
    ensures { result ≡ in_area how start area child.now (held child.now.extent (inner child.now area)) }
{
    in_area(
        how,
        start,
        area,
        child,
        held(child.extent, inner(child, area)),
    )
}
