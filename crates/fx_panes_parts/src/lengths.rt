//! Lengths and places in whole pixels, clamped as layout clamps them.
//! Everything above computes with naturals, and only facts and answers are signed.
ghost use Rattle.std.specs.Prelude.{◌≡◌, ◌+◌, ◌^◌, ◌<◌, ◌≤◌};
ghost use Rattle.fx_panes_parts.specs.Lengths.{aligned, end_of, length_of, pixels, place_of};

/// The greatest length in layout, in pixels, and the farthest place.
const LONGEST: u64 = 100_000;

/// A number as a length: 0 to 100,000 pixels.
pub fn length_of(n: i64) -> u64
    ensures value { result ≡ length_of n }
    ensures most { result ≤ 100_000 }
{
    if n < 0 { 0 } else { (n as u64).min(LONGEST) }
}

/// A number as a place in the parent: -100,000 to 100,000 pixels.
pub fn place_of(n: i64) -> i64
    ensures { result ≡ place_of n }
{
    if n < 0 {
        n.max(-100_000)
    } else {
        n.min(100_000)
    }
}

/// A length as the number that an answer has.
pub fn pixels(length: u64) -> i64
    ensures { result ≡ pixels length }
{
    length.min(LONGEST) as i64
}

/// The end of a length that begins at a place, or 0 where it ends before the content.
pub fn end_of(place: i64, length: u64) -> u64
    requires { length < 2 ^ 63 }
    ensures { result ≡ end_of place length }
{
    if place < 0 {
        length.saturating_sub(place.unsigned_abs())
    } else {
        place as u64 + length
    }
}

/// Where a length that is used begins in a free one: 0 stands for its start, 1 for its centre, any other
/// number for its end. A used length that is too long begins at the start.
pub fn aligned(how: u8, used: u64, free: u64) -> u64
    ensures value { result ≡ aligned how used free }
    ensures most { result ≤ free }
{
    match how {
        0 => 0,
        1 => free.saturating_sub(used) / 2,
        _ => free.saturating_sub(used),
    }
}
