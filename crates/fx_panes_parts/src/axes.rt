//! A pane and its children along one axis. A pane's rule is one rule for both axes: it is written over these
//! types, and what it answers for each axis is joined at the end.
ghost use Rattle.std.specs.Prelude.{◌≡◌, ◌*◌, ◌/◌, ◌%◌, ◌≤◌};
ghost use Rattle.std.specs.Option.{option_map};
ghost use Rattle.fx_panes_parts.specs.Axes.{IsChildAxis, IsPaneAxis, child_axis, content, gaps, insets, joined, pane_axis, rect_of};

use crate::lengths::{length_of, pixels};
use fx_base::{ChildSize, PaneFacts, Rect, Sizes};

/// The horizontal or the vertical axis.
#[derive(Clone, Copy, PartialEq, Eq, Debug)]
pub enum Axis {
    Across,
    Down,
}

/// Minimum, preferred and maximum length, in pixels.
#[derive(Clone, Copy, PartialEq, Eq, Debug)]
pub struct Extent {
    pub min: u64,
    pub pref: u64,
    pub max: u64,
}

/// The three lengths of a look as they stand: a length, the least `i64` for -Infinity, or another number below
/// 0 where the length is to be computed.
#[derive(Clone, Copy, PartialEq, Eq, Debug)]
pub struct OwnLengths {
    pub min: i64,
    pub pref: i64,
    pub max: i64,
}

/// A child along one axis: its sizes, the margins before and behind it, and its constraints. `alignment` is that
/// of a `Pos` along this axis and `align` that of an `HPos` or `VPos`, 0 for the start, 1 for the centre, 2 for
/// the end; `low` and `high` are the anchors, `layout` is the place that it was given.
#[derive(Clone, Copy, PartialEq, Eq, Debug)]
pub struct ChildAxis {
    pub extent: Extent,
    pub before: u64,
    pub after: u64,
    pub grow: Option<u8>,
    pub alignment: Option<u8>,
    pub align: Option<u8>,
    pub low: Option<i64>,
    pub high: Option<i64>,
    pub index: u32,
    pub span: u32,
    pub fill: bool,
    pub edge: Option<u8>,
    pub layout: i64,
}

/// A pane along one axis: the lengths of its look, its insets before and behind the content, and what it is
/// laid out by. `fill` is `fillWidth` across and `fillHeight` down.
#[derive(Clone, Copy, PartialEq, Eq, Debug)]
pub struct PaneAxis {
    pub own: OwnLengths,
    pub before: u64,
    pub after: u64,
    pub alignment: u8,
    pub spacing: u64,
    pub gap: u64,
    pub fill: bool,
}

/// Where a child stands along one axis.
#[derive(Clone, Copy, PartialEq, Eq, Debug)]
pub struct Span {
    pub start: i64,
    pub length: u64,
}

/// A child along an axis.
pub fn child_axis(axis: Axis, child: &ChildSize) -> ChildAxis
    ensures value { result ≡ child_axis axis child.now }
    ensures bounds { IsChildAxis result }
{
    match axis {
        Axis::Across => child_across(child),
        Axis::Down => child_down(child),
    }
}

/// A pane along an axis.
pub fn pane_axis(axis: Axis, pane: &PaneFacts) -> PaneAxis
    ensures value { result ≡ pane_axis axis pane.now }
    ensures bounds { IsPaneAxis result }
{
    match axis {
        Axis::Across => pane_across(pane),
        Axis::Down => pane_down(pane),
    }
}

/// The insets before and behind the content.
pub fn insets(pane: &PaneAxis) -> u64
    requires { IsPaneAxis pane.now }
    ensures value { result ≡ insets pane.now }
    ensures most { result ≤ 200000 }
{
    pane.before + pane.after
}

/// The length of the content of a pane that has this length.
pub fn content(pane: &PaneAxis, length: u64) -> u64
    requires { IsPaneAxis pane.now }
    ensures value { result ≡ content pane.now length }
    ensures most { result ≤ length }
{
    length.saturating_sub(insets(pane))
}

/// The gaps between so many parts.
pub fn gaps(gap: u64, count: usize) -> u64
    requires gap { gap ≤ 100000 }
    requires count { count ≤ 4096 }
    ensures value { result ≡ gaps gap count }
    ensures most { result ≤ 100000 * 4096 }
{
    gap * count.saturating_sub(1) as u64
}

/// Sizes of the extents along the two axes.
pub fn joined(across: Extent, down: Extent) -> Sizes
    ensures { result ≡ joined across down }
{
    Sizes {
        min_w: pixels(across.min),
        pref_w: pixels(across.pref),
        max_w: pixels(across.max),
        min_h: pixels(down.min),
        pref_h: pixels(down.pref),
        max_h: pixels(down.max),
    }
}

/// The rectangle of the spans along the two axes.
pub fn rect_of(across: Span, down: Span) -> Rect
    ensures { result ≡ rect_of across down }
{
    Rect {
        x: across.start,
        y: down.start,
        w: pixels(across.length),
        h: pixels(down.length),
    }
}

#[tactic(auto, unfolding(crate::specs::Axes::child_axis))]
fn child_across(child: &ChildSize) -> ChildAxis
    ensures value { result ≡ child_axis Axis.Across child.now }
    ensures bounds { IsChildAxis result }
{
    ChildAxis {
        extent: Extent {
            min: length_of(child.sizes.min_w),
            pref: length_of(child.sizes.pref_w),
            max: length_of(child.sizes.max_w),
        },
        before: length_of(child.margin.left),
        after: length_of(child.margin.right),
        grow: child.hgrow,
        alignment: column_of(child.alignment),
        align: child.halign,
        low: child.left,
        high: child.right,
        index: child.column,
        span: child.column_span,
        fill: child.fill_width,
        edge: child.edge,
        layout: child.layout_x,
    }
}

#[tactic(auto, unfolding(crate::specs::Axes::child_axis))]
fn child_down(child: &ChildSize) -> ChildAxis
    ensures value { result ≡ child_axis Axis.Down child.now }
    ensures bounds { IsChildAxis result }
{
    ChildAxis {
        extent: Extent {
            min: length_of(child.sizes.min_h),
            pref: length_of(child.sizes.pref_h),
            max: length_of(child.sizes.max_h),
        },
        before: length_of(child.margin.top),
        after: length_of(child.margin.bottom),
        grow: child.vgrow,
        alignment: row_of(child.alignment),
        align: child.valign,
        low: child.top,
        high: child.bottom,
        index: child.row,
        span: child.row_span,
        fill: child.fill_height,
        edge: child.edge,
        layout: child.layout_y,
    }
}

/// Where a `Pos` aligns horizontally.
fn column_of(alignment: Option<u8>) -> Option<u8>
    ensures { result ≡ option_map (λ number. number % 3) alignment }
{
    match alignment {
        Some(number) => Some(number % 3),
        None => None,
    }
}

/// Where a `Pos` aligns vertically.
fn row_of(alignment: Option<u8>) -> Option<u8>
    ensures { result ≡ option_map (λ number. number / 3) alignment }
{
    match alignment {
        Some(number) => Some(number / 3),
        None => None,
    }
}

#[tactic(auto, unfolding(crate::specs::Axes::pane_axis))]
fn pane_across(pane: &PaneFacts) -> PaneAxis
    ensures value { result ≡ pane_axis Axis.Across pane.now }
    ensures bounds { IsPaneAxis result }
{
    PaneAxis {
        own: OwnLengths {
            min: pane.own.min_w,
            pref: pane.own.pref_w,
            max: pane.own.max_w,
        },
        before: length_of(pane.insets.left),
        after: length_of(pane.insets.right),
        alignment: pane.alignment % 3,
        spacing: length_of(pane.spacing),
        gap: length_of(pane.hgap),
        fill: pane.fill_width,
    }
}

#[tactic(auto, unfolding(crate::specs::Axes::pane_axis))]
fn pane_down(pane: &PaneFacts) -> PaneAxis
    ensures value { result ≡ pane_axis Axis.Down pane.now }
    ensures bounds { IsPaneAxis result }
{
    PaneAxis {
        own: OwnLengths {
            min: pane.own.min_h,
            pref: pane.own.pref_h,
            max: pane.own.max_h,
        },
        before: length_of(pane.insets.top),
        after: length_of(pane.insets.bottom),
        alignment: pane.alignment / 3,
        spacing: length_of(pane.spacing),
        gap: length_of(pane.vgap),
        fill: pane.fill_height,
    }
}
