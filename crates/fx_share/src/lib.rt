//! Sharing out: a length that is left over, or that is lacking, among parts that each have a cap. The
//! parts differ by one at most, but for those that are at their caps, and the first get the remainder.
#![tactic(auto)]

ghost use Rattle.std.specs.Prelude.{◌≡◌, ℕ, ◌+◌, ◌-◌, ◌^◌, ◌<◌, ◌≤◌, ◌⊎◌, All, length, min};
ghost use Rattle.fx_share.specs.Levels.{filled, levelled};
ghost use Rattle.fx_share.specs.Parts.{IsShare, OneShare, SomeShare};

/// The most that a total or a cap can be.
pub const MOST: u64 = 1_000_000_000_000;

/// Writes the parts of the total into `out`, in some forty passes over the caps, whatever the total.
pub fn share(total: u64, caps: &[u64], out: &mut [u64])
    requires same_length { length out.old ≡ length caps.now }
    requires small_total { total ≤ MOST }
    requires small_caps { All (λ cap. cap ≤ MOST) caps.now }
    ensures { IsShare total caps.now out.new }
{
    let level = level_for(total, caps);
    give(level, total - taken(level, caps), caps, out);
}

/// A total and caps have exactly one share.
pub fn one_share()
    ensures some { SomeShare }
    ensures one { OneShare }
{}

/// The greatest level up to which the total fills the caps, but `MOST` at most.
fn level_for(total: u64, caps: &[u64]) -> u64
    requires { total ≤ MOST }
    ensures most { result ≤ MOST }
    ensures enough { filled result caps.now ≤ total }
    ensures greatest { (result ≡ MOST) ⊎ (total < filled (result + 1) caps.now) }
{
    let mut low = 0;
    let mut high = MOST;
    while low < high {
        let middle = high - (high - low) / 2;
        if taken(middle, caps) <= total {
            low = middle;
        } else {
            high = middle - 1;
        }
    }
    low
}

/// How much the caps hold below the level, or `u64::MAX` where that is less.
fn taken(level: u64, caps: &[u64]) -> u64
    ensures { result ≡ min (filled level caps.now) (2 ^ 64 - 1) }
{
    let mut sum: u64 = 0;
    for cap in caps {
        sum = sum.saturating_add((*cap).min(level));
    }
    sum
}

/// Fills the caps up to the level, and the first `more` of those above it by one more.
fn give(level: u64, mut more: u64, caps: &[u64], out: &mut [u64])
    requires same_length { length out.old ≡ length caps.now }
    requires below_end { level < 2 ^ 64 - 1 }
    ensures { out.new ≡ levelled level more caps.now }
{
    for (i, cap) in caps.iter().enumerate() {
        if *cap <= level {
            out[i] = *cap;
        } else if more > 0 {
            out[i] = level + 1;
            more -= 1;
        } else {
            out[i] = level;
        }
    }
}
