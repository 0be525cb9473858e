//! AnchorPane: children keep their distance to the ends of the content.
//! It stands on the rules that panes share, below the layout of the whole tree.
ghost use Rattle.std.specs.Prelude.{◌≡◌, ◌+◌, ◌^◌, ◌≤◌, pos, negsuc, ◌+ℤ◌, ◌-ℤ◌, ◌≤ℤ◌, IfOk, length, map};
ghost use Rattle.fx_panes_parts.specs.Axes.{IsChildAxis, IsPaneAxis, along, pane_axis};
ghost use Rattle.fx_panes_parts.specs.Lengths.{length_of, place_of};
ghost use Rattle.fx_panes_parts.specs.Panes.{IsAcrossFirst};
ghost use Rattle.fx_panes_parts.specs.Parts.{greatest_of};
ghost use Rattle.fx_panes.specs.Anchor.{anchor_computed, anchor_extent, anchor_rects, anchor_sizes, anchor_span, anchored, needed, reach_for, reach_of};

use crate::rules::{Bound, length_by};
use fx_base::{ChildSize, Ledgers, PaneFacts, Rect, Sizes, Work};
use fx_panes_parts::{
    Axis, ChildAxis, Extent, PaneAxis, Span, child_axis, content, end_of, held, insets, joined,
    length_of, pane_axis, pane_extent, place_of, rect_of,
};
use std::alloc::{AllocError, Global};

/// The sizes of an AnchorPane with these children.
pub fn measure<L: Ledgers>(
    _alloc: Global,
    pane: &PaneFacts,
    children: &[ChildSize],
    work: &mut Work<L>,
) -> Result<Sizes, AllocError>
    ensures sizes { result ≡ Ok (anchor_sizes pane.now children.now) }
    ensures work { work.new ≡ record work.old { laid = work.old.laid + 1 } }
{
    work.laid.tick();
    Ok(joined(
        extent(Axis::Across, pane, children),
        extent(Axis::Down, pane, children),
    ))
}

/// Where the children of an AnchorPane of this size stand.
pub fn place<L: Ledgers>(
    alloc: Global,
    pane: &PaneFacts,
    children: &[ChildSize],
    w: i64,
    h: i64,
    work: &mut Work<L>,
) -> Result<Vec<Rect>, AllocError>
    ensures rects { IfOk result (λ rects. rects.items
        ≡ anchor_rects pane.now children.now (length_of w) (length_of h)) }
    ensures each { IfOk result (λ rects. length rects.items ≡ length children.now) }
    ensures work { work.new ≡ record work.old { laid = work.old.laid + 1 } }
{
    work.laid.tick();
    rects(alloc, pane, children, length_of(w), length_of(h))
}

/// What is across depends on nothing vertical.
pub fn across_first()
    ensures { IsAcrossFirst anchor_sizes anchor_rects }
{}

fn rects(
    alloc: Global,
    pane: &PaneFacts,
    children: &[ChildSize],
    width: u64,
    height: u64,
) -> Result<Vec<Rect>, AllocError>
    requires width { width ≤ 100000 }
    requires height { height ≤ 100000 }
    ensures { IfOk result (λ rects. rects.items ≡ anchor_rects pane.now children.now width height) }
{
    let across = pane_axis(Axis::Across, pane);
    let down = pane_axis(Axis::Down, pane);
    let mut rects = Vec::with_capacity(alloc, children.len())?;
    for child in children {
        let x = span(&across, width, &child_axis(Axis::Across, child));
        let y = span(&down, height, &child_axis(Axis::Down, child));
        rects.push(rect_of(x, y))?;
    }
    Ok(rects)
}

#[tactic(auto, unfolding(crate::specs::Anchor::anchor_extent))]
fn extent(axis: Axis, pane: &PaneFacts, children: &[ChildSize]) -> Extent
    ensures { result ≡ anchor_extent (pane_axis axis pane.now) (along axis children.now) }
{
    let pane = pane_axis(axis, pane);
    pane_extent(
        pane.own,
        computed(axis, Bound::Minimum, &pane, children),
        computed(axis, Bound::Preferred, &pane, children),
    )
}

fn computed(axis: Axis, bound: Bound, pane: &PaneAxis, children: &[ChildSize]) -> u64
    requires { IsPaneAxis pane.now }
    ensures { result ≡ anchor_computed bound pane.now (along axis children.now) }
{
    insets(pane).max(greatest_reach(axis, bound, pane, children))
}

fn greatest_reach(axis: Axis, bound: Bound, pane: &PaneAxis, children: &[ChildSize]) -> u64
    requires { IsPaneAxis pane.now }
    ensures { result ≡ greatest_of (map (reach_of bound pane.now) (along axis children.now)) }
{
    let mut greatest = 0;
    for child in children {
        greatest = reach(bound, pane, &child_axis(axis, child)).max(greatest);
    }
    greatest
}

fn reach(bound: Bound, pane: &PaneAxis, child: &ChildAxis) -> u64
    requires pane { IsPaneAxis pane.now }
    requires child { IsChildAxis child.now }
    ensures { result ≡ reach_of bound pane.now child.now }
{
    let length = needed(child.low, child.high, bound, child);
    reach_for(child.low, child.high, child.layout, insets(pane), length)
}

#[tactic(auto, unfolding(crate::specs::Anchor::needed))]
fn needed(low: Option<i64>, high: Option<i64>, bound: Bound, child: &ChildAxis) -> u64
    requires { IsChildAxis child.now }
    ensures value { result ≡ needed low high bound child.now }
    ensures most { result ≤ 100000 }
{
    match low {
        Some(_) => match high {
            Some(_) => length_by(bound, child),
            None => child.extent.pref,
        },
        None => child.extent.pref,
    }
}

#[tactic(auto, unfolding(crate::specs::Anchor::reach_for))]
fn reach_for(low: Option<i64>, high: Option<i64>, layout: i64, insets: u64, length: u64) -> u64
    requires insets { insets ≤ 200000 }
    requires length { length ≤ 100000 }
    ensures { result ≡ reach_for low high layout insets length }
{
    match low {
        Some(low) => match high {
            Some(high) => clamped(behind(insets + length, both(low, high))),
            None => clamped(behind(insets + length, i128::from(low))),
        },
        None => match high {
            Some(high) => clamped(behind(insets + length, i128::from(high))),
            None => end_of(layout, length),
        },
    }
}

fn span(pane: &PaneAxis, length: u64, child: &ChildAxis) -> Span
    requires pane { IsPaneAxis pane.now }
    requires child { IsChildAxis child.now }
    requires length { length ≤ 100000 }
    ensures { result ≡ anchor_span pane.now length child.now }
{
    anchored(child.low, child.high, pane, content(pane, length), child)
}

#[tactic(auto, unfolding(crate::specs::Anchor::anchored))]
fn anchored(
    low: Option<i64>,
    high: Option<i64>,
    pane: &PaneAxis,
    space: u64,
    child: &ChildAxis,
) -> Span
    requires pane { IsPaneAxis pane.now }
    requires child { IsChildAxis child.now }
    requires space { space ≤ 100000 }
    ensures { result ≡ anchored low high pane.now space child.now }
{
    match low {
        Some(low) => match high {
            Some(high) => Span {
                start: near(behind(pane.before, i128::from(low))),
                length: held(child.extent, clamped(before(space, both(low, high)))),
            },
            None => Span {
                start: near(behind(pane.before, i128::from(low))),
                length: child.extent.pref,
            },
        },
        None => unanchored(high, pane, space, child),
    }
}

/// Where a child stands that has no anchor at the start.
#[tactic(auto, unfolding(crate::specs::Anchor::anchored))]
fn unanchored(high: Option<i64>, pane: &PaneAxis, space: u64, child: &ChildAxis) -> Span
    requires pane { IsPaneAxis pane.now }
    requires child { IsChildAxis child.now }
    requires space { space ≤ 100000 }
    ensures { result ≡ anchored None high pane.now space child.now }
{
    let start = match high {
        Some(high) => near(before(
            pane.before + space,
            behind(child.extent.pref, i128::from(high)),
        )),
        None => place_of(child.layout),
    };
    Span {
        start,
        length: child.extent.pref,
    }
}

/// Two anchors together.
fn both(low: i64, high: i64) -> i128
    ensures value { result ≡ low +ℤ high }
    ensures bounds { (negsuc (2 ^ 65) ≤ℤ result) × (result ≤ℤ pos (2 ^ 65)) }
{
    i128::from(low) + i128::from(high)
}

/// So far behind the end of a length.
fn behind(length: u64, by: i128) -> i128
    requires { (negsuc (2 ^ 65) ≤ℤ by) × (by ≤ℤ pos (2 ^ 65)) }
    ensures value { result ≡ pos length +ℤ by }
    ensures bounds { (negsuc (2 ^ 66) ≤ℤ result) × (result ≤ℤ pos (2 ^ 66)) }
{
    i128::from(length) + by
}

/// So far before the end of a length.
fn before(length: u64, by: i128) -> i128
    requires { (negsuc (2 ^ 66) ≤ℤ by) × (by ≤ℤ pos (2 ^ 66)) }
    ensures { result ≡ pos length -ℤ by }
{
    i128::from(length) - by
}

/// A number as a length.
fn clamped(n: i128) -> u64
    ensures { result ≡ length_of n }
{
    n.clamp(0, 100_000) as u64
}

/// A number as a place.
fn near(n: i128) -> i64
    ensures { result ≡ place_of n }
{
    n.clamp(-100_000, 100_000) as i64
}
