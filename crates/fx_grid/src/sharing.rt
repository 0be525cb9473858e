//! What the children that cover more than one track add to the tracks' lengths.
//! It stands between lengths by single children and the tracks as the track rule takes them.
ghost use Rattle.std.specs.Prelude.{◌≡◌, ◌+◌, ◌^◌, ◌-◌, ◌<◌, ◌≤◌, All, EachIndex, fold, length, min, replicate, slice_index, sum};
ghost use Rattle.std.specs.Simd.Lanes.{zip2};
ghost use Rattle.fx_panes_parts.specs.Axes.{IsChildAxis, along};
ghost use Rattle.fx_share.specs.Parts.{IsShare};
ghost use Rattle.fx_grid.specs.Tracks.{IsCell, IsWithin, shared_out, widened};

use fx_base::ChildSize;
use fx_panes::{Bound, outer_by};
use fx_panes_parts::{Axis, ChildAxis, child_axis, gaps};
use fx_share::share;

/// Children that cover more than one track widen their tracks, one after the other.
pub(crate) fn widen_all(
    axis: Axis,
    bound: Bound,
    gap: u64,
    children: &[ChildSize],
    lengths: &mut [u64],
)
    requires gap { gap ≤ 100000 }
    requires cells { All (IsCell axis) children.now }
    requires within { All (IsWithin axis (length lengths.old)) children.now }
    ensures { lengths.new ≡ fold (widened bound gap) lengths.old (along axis children.now) }
{
    for child in children {
        widen(bound, gap, &child_axis(axis, child), lengths);
    }
}

#[tactic(auto, unfolding(crate::specs::Tracks::widened))]
fn widen(bound: Bound, gap: u64, child: &ChildAxis, lengths: &mut [u64])
    requires gap { gap ≤ 100000 }
    requires child { IsChildAxis child.now }
    requires index { child.now.index ≤ 255 }
    requires span { child.now.span ≤ 64 }
    requires within { child.now.index + child.now.span ≤ length lengths.old }
    ensures { lengths.new ≡ widened bound gap lengths.old child.now }
{
    if child.span > 1 {
        let start = child.index as usize;
        let end = start + child.span as usize;
        let between = gaps(gap, child.span as usize);
        let need = outer_by(bound, child).saturating_sub(between);
        share_out(need, &mut lengths[start..end]);
    }
}

/// Shares out among these lengths what they lack.
fn share_out(need: u64, lengths: &mut [u64])
    requires need { need ≤ 300000 }
    requires few { length lengths.old ≤ 64 }
    ensures { lengths.new ≡ shared_out need lengths.old }
{
    let mut parts = [0; 64];
    let more = &mut parts[..lengths.len()];
    share_evenly(need.saturating_sub(whole(lengths)), more);
    add(more, lengths);
}

/// The share of a total over parts that may each have the longest length.
fn share_evenly(total: u64, parts: &mut [u64])
    requires total { total ≤ 300000 }
    requires few { length parts.old ≤ 64 }
    ensures { IsShare total (replicate (length parts.old) 100000) parts.new }
{
    let caps = [100_000; 64];
    share(total, &caps[..parts.len()], parts);
}

/// All lengths together, or `u64::MAX` where that is less.
fn whole(lengths: &[u64]) -> u64
    ensures { result ≡ min (sum lengths.now) (2 ^ 64 - 1) }
{
    let mut sum: u64 = 0;
    for length in lengths {
        sum = sum.saturating_add(*length);
    }
    sum
}

fn add(more: &[u64], lengths: &mut [u64])
    requires same_length { length more.now ≡ length lengths.old }
    requires fits { EachIndex lengths.old (λ k. slice_index lengths.old k + slice_index more.now k < 2 ^ 64) }
    ensures { lengths.new ≡ zip2 (λ one more. one + more) lengths.old more.now }
{
    for i in 0..lengths.len() {
        lengths[i] += more[i];
    }
}
