//! Where the tracks of a grid begin: their lengths by the track rule, added up once for all children.
//! It stands between the tracks and the children that stand in them.
ghost use Rattle.std.specs.Prelude.{◌≡◌, ◌+◌, ◌*◌, ◌^◌, ◌<◌, ◌≤◌, All, length, sum};
ghost use Rattle.fx_panes_parts.specs.Axes.{IsPaneAxis, along};
ghost use Rattle.fx_panes_parts.specs.Tracks.{tracked};
ghost use Rattle.fx_grid.specs.Grid.{grid_start};
ghost use Rattle.fx_grid.specs.Starts.{AreStarts, grid_starts, starts_from, starts_of};
ghost use Rattle.fx_grid.specs.Tracks.{IsCell, given_on, track_count};

use crate::tracks::{NO_TRACK, fill_tracks, given_on};
use fx_base::{ChildSize, PaneFacts};
use fx_panes_parts::{Axis, PaneAxis, Part, aligned, content, gaps, pane_axis, plan_for};

/// Fills in where the tracks of a grid begin in a pane of this length, and one place more, behind the last of them.
/// There is room for `N` tracks.
pub(crate) fn fill_starts<const N: usize>(
    axis: Axis,
    pane: &PaneFacts,
    children: &[ChildSize],
    n: u64,
    starts: &mut [u64],
)
    requires cells { All (IsCell axis) children.now }
    requires length { n ≤ 100000 }
    requires count { length starts.old ≡ track_count (given_on axis pane.now) (along axis children.now) + 1 }
    requires few { length starts.old ≤ N }
    requires most { N ≤ 320 }
    ensures value { starts.new ≡ grid_starts axis pane.now (along axis children.now) n }
    ensures bounds { AreStarts axis starts.new children.now }
{
    let facts = pane_axis(axis, pane);
    let mut tracks = [NO_TRACK; N];
    let tracks = &mut tracks[..starts.len() - 1];
    fill_tracks::<N>(axis, facts.gap, given_on(axis, pane), children, tracks);
    place_tracks(axis, &facts, n, tracks, starts);
}

/// Fills in where these tracks begin.
#[tactic(auto, unfolding(crate::specs::Starts::starts_of))]
fn place_tracks(axis: Axis, pane: &PaneAxis, n: u64, tracks: &[Part], starts: &mut [u64])
    requires pane { IsPaneAxis pane.now }
    requires length { n ≤ 100000 }
    requires count { length starts.old ≡ length tracks.now + 1 }
    requires few { length tracks.now ≤ 319 }
    ensures value { starts.new ≡ starts_of pane.now n tracks.now }
    ensures near { All (λ start. start < 2 ^ 62) starts.new }
{
    let count = tracks.len();
    let room = content(pane, n).saturating_sub(gaps(pane.gap, count));
    fill_lengths(axis, room, tracks, &mut starts[..count]);
    starts[count] = 0;
    let start = grid_start(pane, n, &starts[..count]);
    add_up(start, pane.gap, starts);
}

/// Fills in the lengths of these tracks in so much room.
fn fill_lengths(axis: Axis, room: u64, tracks: &[Part], lengths: &mut [u64])
    requires room { room ≤ 100000 }
    requires each { length lengths.old ≡ length tracks.now }
    requires few { length tracks.now ≤ 319 }
    ensures value { lengths.new ≡ tracked room tracks.now }
    ensures short { All (λ n. n < 2 ^ 34) lengths.new }
{
    let mut plan = plan_for(room, axis, tracks);
    for k in 0..tracks.len() {
        lengths[k] = plan.next(tracks[k]);
    }
}

/// Where tracks of these lengths begin in a pane of this length.
#[tactic(auto, unfolding(crate::specs::Grid::grid_start))]
fn grid_start(pane: &PaneAxis, n: u64, lengths: &[u64]) -> u64
    requires pane { IsPaneAxis pane.now }
    requires length { n ≤ 100000 }
    requires few { length lengths.now ≤ 319 }
    requires short { All (λ n. n < 2 ^ 34) lengths.now }
    ensures value { result ≡ grid_start pane.now n lengths.now }
    ensures most { result ≤ 200000 }
{
    let used = total(lengths) + gaps(pane.gap, lengths.len());
    pane.before + aligned(pane.alignment, used, content(pane, n))
}

/// These lengths together.
fn total(lengths: &[u64]) -> u64
    requires few { length lengths.now ≤ 319 }
    requires short { All (λ n. n < 2 ^ 34) lengths.now }
    ensures value { result ≡ sum lengths.now }
    ensures most { result ≤ 2 ^ 34 * 319 }
{
    let mut sum = 0;
    for length in lengths {
        sum += *length;
    }
    sum
}

/// Puts in place of each length where it begins, if the first begins here and a gap stands behind each.
fn add_up(start: u64, gap: u64, lengths: &mut [u64])
    requires start { start ≤ 200000 }
    requires gap { gap ≤ 100000 }
    requires few { length lengths.old ≤ 320 }
    requires short { All (λ n. n < 2 ^ 34) lengths.old }
    ensures value { lengths.new ≡ starts_from start gap lengths.old }
    ensures near { All (λ start. start < 2 ^ 62) lengths.new }
{
    let mut next = start;
    for k in 0..lengths.len() {
        let length = lengths[k];
        lengths[k] = next;
        next += length + gap;
    }
}
