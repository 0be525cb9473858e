//! Each word once, on numbers that a reader can follow.
ghost use Rattle.std.specs.Prelude.{◌≤◌, length};

use crate::given::{CHILD, pane};
use fx_base::{ChildSize, PaneFacts, Rect, Sides, Sizes};
use fx_panes_parts::*;
use std::alloc::Global;

const SIZES: Sizes = Sizes {
    min_w: 1,
    pref_w: 2,
    max_w: 3,
    min_h: 4,
    pref_h: 5,
    max_h: 200_000,
};

const MARGIN: Sides = Sides {
    top: 1,
    right: 2,
    bottom: -3,
    left: 4,
};

fn child() -> ChildSize {
    ChildSize {
        sizes: SIZES,
        margin: MARGIN,
        hgrow: Some(2),
        alignment: Some(5),
        valign: Some(1),
        left: Some(7),
        fill_height: false,
        layout_x: 8,
        layout_y: 9,
        ..CHILD
    }
}

fn facts(alloc: Global) -> PaneFacts {
    let mut facts = pane(alloc);
    facts.own = SIZES;
    facts.insets = MARGIN;
    facts.alignment = 5;
    facts.spacing = -1;
    facts.hgap = 2;
    facts.vgap = 3;
    facts
}

#[test]
fn clamps_and_aligns(rt: HostRuntime) {
    assert!(rt; lengths_are_clamped());
    assert!(rt; places_are_clamped());
    assert!(rt; ends_are_clamped() && pixels(5) == 5);
    assert!(rt; lengths_are_aligned());
}

fn lengths_are_clamped() -> bool {
    length_of(-1) == 0 && length_of(7) == 7 && length_of(100_001) == 100_000
}

fn places_are_clamped() -> bool {
    place_of(-100_001) == -100_000 && place_of(-7) == -7 && place_of(100_001) == 100_000
}

fn ends_are_clamped() -> bool {
    end_of(-3, 5) == 2 && end_of(-6, 5) == 0 && end_of(3, 5) == 8
}

fn lengths_are_aligned() -> bool {
    aligned(0, 2, 7) == 0 && aligned(1, 2, 7) == 2 && aligned(2, 2, 7) == 5 && aligned(2, 9, 7) == 0
}

#[test]
fn splits_by_axis(rt: HostRuntime) {
    assert!(rt; splits_across(&child_axis(Axis::Across, &child())));
    assert!(rt; splits_down(&child_axis(Axis::Down, &child())));
    assert!(rt; splits_a_pane(&facts(rt.alloc())));
    assert!(rt; joins_axes(&child()));
}

fn splits_across(across: &ChildAxis) -> bool {
    across.before == 4 && across.alignment == Some(2) && across.low == Some(7) && across.layout == 8
}

fn splits_down(down: &ChildAxis) -> bool {
    down.after == 0 && down.alignment == Some(1) && down.extent.max == 100_000 && !down.fill
}

fn splits_a_pane(facts: &PaneFacts) -> bool {
    let pane = pane_axis(Axis::Down, facts);
    has_parts(&pane) && insets(&pane) == 1 && content(&pane, 5) == 4 && has_gaps()
}

fn has_parts(pane: &PaneAxis) -> bool {
    pane.before == 1
        && pane.alignment == 1
        && pane.spacing == 0
        && pane.gap == 3
        && pane.own.min == 4
}

fn has_gaps() -> bool {
    gaps(3, 4) == 9 && gaps(3, 0) == 0
}

/// Places the child in an area that begins at 2 and is 20 long, and joins its two axes.
fn joins_axes(child: &ChildSize) -> bool {
    let across = child_axis(Axis::Across, child);
    let span = in_area(1, 2, 20, &across, 5);
    let rect = rect_of(span, span);
    let down = child_axis(Axis::Down, child);
    is_span(span) && is_rect(rect) && joined(across.extent, down.extent).max_h == 100_000
}

fn is_span(span: Span) -> bool {
    span.start == 10 && span.length == 5
}

fn is_rect(rect: Rect) -> bool {
    rect.x == 10 && rect.y == 10 && rect.w == 5 && rect.h == 5
}

#[test]
fn resolves_sizes(rt: HostRuntime) {
    let own = OwnLengths {
        min: -1,
        pref: 20,
        max: i64::MIN,
    };
    assert!(rt; is_extent(pane_extent(own, 30, 7), 30, 30, 30));
    let computed = OwnLengths {
        min: i64::MIN,
        pref: -1,
        max: -1,
    };
    assert!(rt; is_extent(pane_extent(computed, 3, 7), 7, 7, 100_000));
    assert!(rt; is_extent(control_extent(computed, 3, 7), 7, 7, 7));
    let range = Extent {
        min: 2,
        pref: 4,
        max: 6,
    };
    assert!(rt; holds_lengths(range));
}

fn is_extent(extent: Extent, min: u64, pref: u64, max: u64) -> bool {
    extent.min == min && extent.pref == pref && extent.max == max
}

fn holds_lengths(range: Extent) -> bool {
    held(range, 9) == 6 && filled_length(true, range, 9) == 6 && filled_length(false, range, 3) == 3
}

const PART: Part = Part {
    min: 1,
    pref: 2,
    max: 100,
    priority: 2,
};

const SOME: Part = Part {
    min: 1,
    pref: 2,
    max: 100,
    priority: 1,
};

const SHORT: Part = Part {
    min: 1,
    pref: 2,
    max: 3,
    priority: 2,
};

#[test]
fn tracks_share(rt: HostRuntime) {
    let parts = [PART, SOME, SHORT];
    assert!(rt; adds_up(&parts));
    assert!(rt; shares_more(&parts));
    assert!(rt; shares_less(&parts));
    assert!(rt; levels(&parts));
}

fn adds_up(parts: &[Part]) -> bool
    requires { length parts.now ≤ 4 }
{
    needed(Axis::Across, parts) == 3
        && wanted(Axis::Across, parts) == 6
        && greatest_min(Axis::Down, parts) == 1
        && greatest_pref(Axis::Down, parts) == 2
}

fn shares_more(parts: &[Part]) -> bool
    requires { length parts.now ≤ 4 }
{
    let mut plan = plan_for(12, Axis::Across, parts);
    plan.whole(Axis::Across, parts) == 12
        && plan.next(PART) == 7
        && plan.next(SOME) == 2
        && plan.next(SHORT) == 3
}

fn shares_less(parts: &[Part]) -> bool
    requires { length parts.now ≤ 4 }
{
    let mut less = plan_for(4, Axis::Across, parts);
    less.next(PART) == 1 && less.next(SOME) == 1 && less.next(SHORT) == 2
}

fn levels(parts: &[Part]) -> bool
    requires { length parts.now ≤ 4 }
{
    let room = room_in(Room::Above(2), part_of(&child_axis(Axis::Across, &child())));
    let mut level = level_for(7, Room::Below, Axis::Across, parts);
    room == 1 && given(level, Room::Below, Axis::Across, parts) == 3 && level.give(9) == 9
}
