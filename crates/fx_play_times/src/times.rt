//! The numbers in lines on timelines.
ghost use Rattle.std.specs.Prelude.{◌≡◌, ◌≤◌, IfSome};
ghost use Rattle.fx_event_lines.specs.Coordinates.{is_negative};
ghost use Rattle.fx_plain_times.specs.Times as spec;

use fx_base::Text;
use fx_stage_words::number_of;

/// How often a timeline runs, where it ends.
pub(crate) fn count_of(word: &Text) -> Option<Option<u32>>
    ensures { result ≡ spec.count_of word.now }
{
    if word.as_str() == "indefinite" {
        return Some(None);
    }
    let count = number_of(word);
    if is_count(count) {
        Some(Some(count))
    } else {
        None
    }
}

fn is_count(count: u32) -> bool
    ensures { result ≡ spec.is_count count }
{
    1 <= count && count <= 1_000_000
}

/// The milliseconds that the word says, at least so many.
pub(crate) fn time_of(least: u32, word: &Text) -> Option<u32>
    ensures time { result ≡ spec.time_of least word.now }
    ensures small { IfSome result (λ time. time ≤ 3600000) }
    ensures least { IfSome result (λ time. least ≤ time) }
{
    let time = number_of(word);
    if is_negative(word.as_str().as_bytes()) && time >= 1 {
        return None;
    }
    if is_time(least, time) {
        Some(time)
    } else {
        None
    }
}

fn is_time(least: u32, time: u32) -> bool
    ensures { result ≡ spec.is_time least time }
{
    least <= time && time <= 3_600_000
}

fn is_negative(word: &[u8]) -> bool
    ensures { result ≡ is_negative word.now }
{
    word.starts_with(b"-")
}
