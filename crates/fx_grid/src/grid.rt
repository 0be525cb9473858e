//! GridPane: children in columns and rows.
//! It stands on the tracks and on the words of all panes, below the layout of the whole tree.
ghost use Rattle.std.specs.Prelude.{◌≡◌, ◌+◌, ◌^◌, ◌<◌, ◌≤◌, ◌↔◌, All, IfOk, IsTrue, Ok, length, map, sum_by, unwrap_or};
ghost use Rattle.std.specs.List.{list_all};
ghost use Rattle.std.specs.Simd.Lanes.{zip2};
ghost use Rattle.fx_panes_parts.specs.declared.axes.Axis.TheVariants.{Across, Down};
ghost use Rattle.fx_panes_parts.specs.Axes.{IsChildAxis, along, child_axis, pane_axis, rect_of};
ghost use Rattle.fx_panes_parts.specs.Lengths.{length_of};
ghost use Rattle.fx_panes_parts.specs.Sizes.{pane_extent};
ghost use Rattle.fx_grid.specs.Grid.{IsGrid, IsGridAcrossFirst, grid_extent, grid_rects, grid_sizes, is_grid, side_of};
ghost use Rattle.fx_grid.specs.Starts.{AreStarts, IsSide, span_at};
ghost use Rattle.fx_grid.specs.Tracks.{IsCell, given_on, is_cell, track_count};

use crate::starts::fill_starts;
use crate::tracks::{NO_TRACK, fill_tracks, given_on, track_at, track_count};
use fx_base::{ChildSize, Ledgers, PaneFacts, Rect, Sizes, Track, Work};
use fx_panes::inner;
use fx_panes_parts::{
    Axis, ChildAxis, Extent, PaneAxis, Part, Span, child_axis, filled_length, gaps, in_area,
    insets, joined, length_of, needed, pane_axis, pane_extent, rect_of, wanted,
};
use std::alloc::{AllocError, Global};

/// Room for the tracks of most grids, and for a place behind them.
const FEW: usize = 64;

/// Room for as many tracks as a grid may have, and for a place behind them.
const MOST: usize = 320;

/// The length of a grid along an axis, and how many tracks it has there.
#[derive(Clone, Copy)]
struct Side {
    length: u64,
    count: usize,
}

/// The sizes of a GridPane with these children. It takes no memory.
pub fn measure<L: Ledgers>(
    _alloc: Global,
    pane: &PaneFacts,
    children: &[ChildSize],
    work: &mut Work<L>,
) -> Result<Sizes, AllocError>
    requires { IsGrid pane.now children.now }
    ensures sizes { result ≡ Ok (grid_sizes pane.now children.now) }
    ensures work { work.new ≡ record work.old { laid = work.old.laid + 1 } }
{
    work.laid.tick();
    Ok(joined(
        extent(Axis::Across, pane, children),
        extent(Axis::Down, pane, children),
    ))
}

/// Where the children of a GridPane of this size stand. It takes memory for its answer alone.
pub fn place<L: Ledgers>(
    alloc: Global,
    pane: &PaneFacts,
    children: &[ChildSize],
    w: i64,
    h: i64,
    work: &mut Work<L>,
) -> Result<Vec<Rect>, AllocError>
    requires { IsGrid pane.now children.now }
    ensures rects { IfOk result (λ rects. rects.items ≡ grid_rects pane.now children.now (length_of w) (length_of h)) }
    ensures each { IfOk result (λ rects. length rects.items ≡ length children.now) }
    ensures work { work.new ≡ record work.old { laid = work.old.laid + 1 } }
{
    work.laid.tick();
    rects(alloc, pane, children, length_of(w), length_of(h))
}

/// Do the numbers of the children lie in their ranges, and are there few enough columns and rows?
pub fn is_grid(pane: &PaneFacts, children: &[ChildSize]) -> bool
    ensures { IsTrue result ↔ IsGrid pane.now children.now }
{
    has_cells(pane, children)
}

#[tactic(auto, unfolding(crate::specs::Grid::is_grid))]
fn has_cells(pane: &PaneFacts, children: &[ChildSize]) -> bool
    ensures { result ≡ is_grid pane.now children.now }
{
    pane.columns.as_slice().len() <= 256
        && pane.rows.as_slice().len() <= 256
        && are_cells(Axis::Across, children)
        && are_cells(Axis::Down, children)
}

fn are_cells(axis: Axis, children: &[ChildSize]) -> bool
    ensures { result ≡ list_all (is_cell axis) children.now }
{
    children.iter().all(|child| is_cell(axis, child))
}

fn is_cell(axis: Axis, child: &ChildSize) -> bool
    ensures { result ≡ is_cell axis child.now }
{
    let child = child_axis(axis, child);
    child.index <= 255 && child.span <= 64
}

/// What is across depends on nothing vertical.
pub fn across_first()
    ensures { IsGridAcrossFirst }
{}

/// The extent along an axis. Few tracks have less room, which costs less to clear.
fn extent(axis: Axis, pane: &PaneFacts, children: &[ChildSize]) -> Extent
    requires given { length (given_on axis pane.now) ≤ 256 }
    requires cells { All (IsCell axis) children.now }
    ensures { result ≡ grid_extent (given_on axis pane.now) (pane_axis axis pane.now) (along axis children.now) }
{
    let count = count_on(axis, pane, children);
    if count < FEW {
        extent_over::<FEW>(axis, count, pane, children)
    } else {
        extent_over::<MOST>(axis, count, pane, children)
    }
}

fn extent_over<const N: usize>(
    axis: Axis,
    count: usize,
    pane: &PaneFacts,
    children: &[ChildSize],
) -> Extent
    requires cells { All (IsCell axis) children.now }
    requires count { count ≡ track_count (given_on axis pane.now) (along axis children.now) }
    requires few { count < N }
    requires most { N ≤ 320 }
    ensures { result ≡ grid_extent (given_on axis pane.now) (pane_axis axis pane.now) (along axis children.now) }
{
    let facts = pane_axis(axis, pane);
    let mut tracks = [NO_TRACK; N];
    let tracks = &mut tracks[..count];
    fill_tracks::<N>(axis, facts.gap, given_on(axis, pane), children, tracks);
    extent_of(
        axis,
        &facts,
        insets(&facts) + gaps(facts.gap, count),
        tracks,
    )
}

/// How many columns or rows there are.
fn count_on(axis: Axis, pane: &PaneFacts, children: &[ChildSize]) -> usize
    requires given { length (given_on axis pane.now) ≤ 256 }
    requires cells { All (IsCell axis) children.now }
    ensures value { result ≡ track_count (given_on axis pane.now) (along axis children.now) }
    ensures few { result ≤ 319 }
{
    track_count(axis, given_on(axis, pane), children)
}

/// The extent of a pane that has so much beside its tracks.
fn extent_of(axis: Axis, pane: &PaneAxis, rest: u64, tracks: &[Part]) -> Extent
    requires rest { rest ≤ 2 ^ 32 }
    requires few { length tracks.now ≤ 319 }
    ensures { result ≡ pane_extent pane.now.own (rest + sum_by (λ part. part.min) tracks.now)
        (rest + sum_by (λ part. part.pref) tracks.now) }
{
    pane_extent(
        pane.own,
        rest + needed(axis, tracks),
        rest + wanted(axis, tracks),
    )
}

fn rects(
    alloc: Global,
    pane: &PaneFacts,
    children: &[ChildSize],
    width: u64,
    height: u64,
) -> Result<Vec<Rect>, AllocError>
    requires grid { IsGrid pane.now children.now }
    requires width { width ≤ 100000 }
    requires height { height ≤ 100000 }
    ensures { IfOk result (λ rects. rects.items ≡ grid_rects pane.now children.now width height) }
{
    let across = Side {
        length: width,
        count: count_on(Axis::Across, pane, children),
    };
    let down = Side {
        length: height,
        count: count_on(Axis::Down, pane, children),
    };
    if across.count < FEW && down.count < FEW {
        rects_over::<FEW>(alloc, pane, children, across, down)
    } else {
        rects_over::<MOST>(alloc, pane, children, across, down)
    }
}

fn rects_over<const N: usize>(
    alloc: Global,
    pane: &PaneFacts,
    children: &[ChildSize],
    across: Side,
    down: Side,
) -> Result<Vec<Rect>, AllocError>
    requires grid { IsGrid pane.now children.now }
    requires across { IsSide Across pane.now children.now across }
    requires down { IsSide Down pane.now children.now down }
    requires columns { across.count < N }
    requires rows { down.count < N }
    requires most { N ≤ 320 }
    ensures { IfOk result (λ rects. rects.items ≡ grid_rects pane.now children.now across.length down.length) }
{
    let mut lefts = [0; N];
    let lefts = &mut lefts[..across.count + 1];
    let mut tops = [0; N];
    let tops = &mut tops[..down.count + 1];
    fill_starts::<N>(Axis::Across, pane, children, across.length, lefts);
    fill_starts::<N>(Axis::Down, pane, children, down.length, tops);
    placed(alloc, pane, children, lefts, tops)
}

/// The rectangles of children in tracks that begin there.
fn placed(
    alloc: Global,
    pane: &PaneFacts,
    children: &[ChildSize],
    lefts: &[u64],
    tops: &[u64],
) -> Result<Vec<Rect>, AllocError>
    requires lefts { AreStarts Across lefts.now children.now }
    requires tops { AreStarts Down tops.now children.now }
    ensures { IfOk result (λ rects. rects.items ≡ zip2 rect_of
        (map (span_at Across pane.now.columns (pane_axis Across pane.now).gap lefts.now) (along Across children.now))
        (map (span_at Down pane.now.rows (pane_axis Down pane.now).gap tops.now) (along Down children.now))) }
{
    let hgap = pane_axis(Axis::Across, pane).gap;
    let vgap = pane_axis(Axis::Down, pane).gap;
    let mut rects = Vec::with_capacity(alloc, children.len())?;
    for child in children {
        let across = child_axis(Axis::Across, child);
        let down = child_axis(Axis::Down, child);
        rects.push(rect_of(
            span_at(Axis::Across, pane.columns.as_slice(), hgap, lefts, &across),
            span_at(Axis::Down, pane.rows.as_slice(), vgap, tops, &down),
        ))?;
    }
    Ok(rects)
}

/// Where a child stands in tracks that begin there.
#[tactic(auto, unfolding(crate::specs::Starts::span_at))]
fn span_at(axis: Axis, given: &[Track], gap: u64, starts: &[u64], child: &ChildAxis) -> Span
    requires child { IsChildAxis child.now }
    requires near { All (λ start. start < 2 ^ 62) starts.now }
    requires within { child.now.index + child.now.span < length starts.now }
    ensures { result ≡ span_at axis given.now gap starts.now child.now }
{
    let start = starts[child.index as usize];
    let end = starts[child.index as usize + child.span as usize];
    let area = end.saturating_sub(start).saturating_sub(gap);
    let how = side_in(axis, track_at(given, child.index as usize), child);
    let length = filled_length(child.fill, child.extent, inner(child, area));
    in_area(how, start, area, child, length)
}

/// Where a child is aligned in its tracks: as it says, or its first track, or else as grids do.
fn side_in(axis: Axis, track: Track, child: &ChildAxis) -> u8
    ensures { result ≡ unwrap_or child.now.align (unwrap_or track.align (side_of axis)) }
{
    let side = match axis {
        Axis::Across => 0,
        Axis::Down => 1,
    };
    child.align.unwrap_or(track.align.unwrap_or(side))
}
