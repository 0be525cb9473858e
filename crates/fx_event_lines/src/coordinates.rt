//! Where a line moves the pointer.
ghost use Rattle.std.specs.Prelude.{◌≡◌};
ghost use Rattle.fx_event_lines.specs.Coordinates as spec;

use fx_base::Text;
use fx_stage_words::number_of;

/// The pixels that the word says, at most 100,000 either way.
pub(crate) fn coordinate_of(word: &Text) -> Option<i64>
    ensures { result ≡ spec.coordinate_of word.now }
{
    let size = number_of(word);
    if size > 100_000 {
        return None;
    }
    Some(signed(is_negative(word.as_str().as_bytes()), size))
}

fn is_negative(word: &[u8]) -> bool
    ensures { result ≡ spec.is_negative word.now }
{
    word.starts_with(b"-")
}

fn signed(negative: bool, size: u32) -> i64
    ensures { result ≡ spec.signed negative size }
{
    if negative {
        -i64::from(size)
    } else {
        i64::from(size)
    }
}
