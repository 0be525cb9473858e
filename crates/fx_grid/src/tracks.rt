//! The columns or the rows of a grid, by their constraints and by the children along one axis.
//! They stand between facts along that axis and the track rule.
ghost use Rattle.std.specs.Prelude.{◌≡◌, ◌≤◌, All, length, map, slice_index_or};
ghost use Rattle.fx_panes_parts.specs.Axes.{along};
ghost use Rattle.std.specs.List.{range_with_len};
ghost use Rattle.fx_panes_parts.specs.Sizes.{limited};
ghost use Rattle.fx_grid.specs.Tracks as spec;

use crate::needs::{NO_NEED, Need, fill_needs};
use crate::sharing::widen_all;
use fx_base::{ChildSize, PaneFacts, Track};
use fx_panes::Bound;
use fx_panes_parts::{Axis, Part, child_axis, length_of};

/// A track without a constraint.
const FREE_TRACK: Track = Track {
    min: -1,
    pref: -1,
    max: -1,
    grow: None,
    align: None,
};

/// A track of no length, until its own is known.
pub(crate) const NO_TRACK: Part = Part {
    min: 0,
    pref: 0,
    max: 0,
    priority: 0,
};

/// The constraints of a pane's columns or rows.
pub(crate) fn given_on(axis: Axis, pane: &PaneFacts) -> &[Track]
    ensures { result.now ≡ spec.given_on axis pane.now }
{
    match axis {
        Axis::Across => pane.columns.as_slice(),
        Axis::Down => pane.rows.as_slice(),
    }
}

/// The constraint of a track.
pub(crate) fn track_at(given: &[Track], k: usize) -> Track
    ensures { result ≡ spec.track_at given.now k }
{
    match given.get(k) {
        Some(track) => *track,
        None => FREE_TRACK,
    }
}

/// How many tracks a grid has: no more than 319.
pub(crate) fn track_count(axis: Axis, given: &[Track], children: &[ChildSize]) -> usize
    requires given { length given.now ≤ 256 }
    requires cells { All (spec.IsCell axis) children.now }
    ensures value { result ≡ spec.track_count given.now (along axis children.now) }
    ensures few { result ≤ 319 }
{
    let mut count = given.len();
    for child in children {
        let child = child_axis(axis, child);
        count = ((child.index + child.span) as usize).max(count);
    }
    count
}

/// Fills in all tracks of a grid, as the track rule takes them, with room for `N` of them.
pub(crate) fn fill_tracks<const N: usize>(
    axis: Axis,
    gap: u64,
    given: &[Track],
    children: &[ChildSize],
    tracks: &mut [Part],
)
    requires gap { gap ≤ 100000 }
    requires cells { All (spec.IsCell axis) children.now }
    requires count { length tracks.old ≡ spec.track_count given.now (along axis children.now) }
    requires few { length tracks.old ≤ N }
    requires most { N ≤ 320 }
    ensures { tracks.new ≡ spec.tracks_of gap given.now (along axis children.now) }
{
    let mut needs = [NO_NEED; N];
    let needs = &mut needs[..tracks.len()];
    fill_needs(axis, children, needs);
    let mut leasts = [0; N];
    let leasts = &mut leasts[..tracks.len()];
    fill_alone(Bound::Minimum, given, needs, leasts);
    widen_all(axis, Bound::Minimum, gap, children, leasts);
    let mut wishes = [0; N];
    let wishes = &mut wishes[..tracks.len()];
    fill_alone(Bound::Preferred, given, needs, wishes);
    widen_all(axis, Bound::Preferred, gap, children, wishes);
    fill_by(given, needs, leasts, wishes, tracks);
}

/// Fills in the tracks by what is needed there and by their lengths.
fn fill_by(given: &[Track], needs: &[Need], leasts: &[u64], wishes: &[u64], tracks: &mut [Part])
    requires { length tracks.old ≡ length needs.now }
    ensures { tracks.new ≡ map (spec.track_at_place given.now needs.now leasts.now wishes.now)
        (range_with_len 0 (length needs.now)) }
{
    for k in 0..tracks.len() {
        tracks[k] = track_at_place(given, needs, leasts, wishes, k);
    }
}

#[tactic(auto, unfolding(crate::specs::Tracks::track_by))]
fn track_at_place(given: &[Track], needs: &[Need], leasts: &[u64], wishes: &[u64], k: usize) -> Part
    ensures { result ≡ spec.track_at_place given.now needs.now leasts.now wishes.now k }
{
    let track = track_at(given, k);
    let least = leasts.get(k).copied().unwrap_or(0);
    let wish = wishes.get(k).copied().unwrap_or(0);
    part_by(
        track,
        least,
        wish,
        track.grow.unwrap_or(need_at(needs, k).grow),
    )
}

fn need_at(needs: &[Need], k: usize) -> Need
    ensures { result ≡ slice_index_or needs.now k spec.no_need }
{
    match needs.get(k) {
        Some(need) => *need,
        None => NO_NEED,
    }
}

#[tactic(auto, unfolding(crate::specs::Tracks::part_by))]
fn part_by(track: Track, least: u64, wish: u64, priority: u8) -> Part
    ensures { result ≡ spec.part_by track least wish priority }
{
    let low = least.min(100_000);
    let asked = wish.min(100_000);
    let high = greatest_length(track.max, asked).max(low);
    Part {
        min: low as u32,
        pref: asked.min(high).max(low) as u32,
        max: high as u32,
        priority,
    }
}

/// A track's maximum: the preferred length for -Infinity, and without one the longest length.
fn greatest_length(own: i64, pref: u64) -> u64
    requires { pref ≤ 100000 }
    ensures value { result ≡ limited own pref 100000 }
    ensures most { result ≤ 100000 }
{
    if own >= 0 {
        length_of(own)
    } else if own == i64::MIN {
        pref
    } else {
        100_000
    }
}

/// Fills in the lengths of all tracks before any child covers more than one, and before they are clamped.
fn fill_alone(bound: Bound, given: &[Track], needs: &[Need], lengths: &mut [u64])
    requires { length lengths.old ≡ length needs.now }
    ensures { lengths.new ≡ map (spec.length_at_place bound given.now needs.now) (range_with_len 0 (length needs.now)) }
{
    for k in 0..lengths.len() {
        lengths[k] = length_at_place(bound, given, needs, k);
    }
}

#[tactic(auto, unfolding(crate::specs::Tracks::length_by))]
fn length_at_place(bound: Bound, given: &[Track], needs: &[Need], k: usize) -> u64
    ensures { result ≡ spec.length_at_place bound given.now needs.now k }
{
    let track = track_at(given, k);
    let need = need_at(needs, k);
    let pref = own_pref(track.pref, need.wish);
    match bound {
        Bound::Preferred => pref,
        Bound::Minimum => own_min(track.min, pref, need.least),
    }
}

#[tactic(auto, unfolding(crate::specs::Tracks::own_pref))]
fn own_pref(own: i64, computed: u64) -> u64
    ensures { result ≡ spec.own_pref own computed }
{
    if own >= 0 { length_of(own) } else { computed }
}

#[tactic(auto, unfolding(crate::specs::Tracks::own_min))]
fn own_min(own: i64, pref: u64, computed: u64) -> u64
    ensures { result ≡ spec.own_min own pref computed }
{
    if own >= 0 {
        length_of(own)
    } else if own == i64::MIN {
        pref
    } else {
        computed
    }
}
