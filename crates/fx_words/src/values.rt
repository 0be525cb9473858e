//! What the values of options say, and the number of a demo.
//! Each is found from the bytes of a word or of what is behind a `=`.
ghost use Rattle.std.specs.Prelude.{◌≡◌, ◌≤◌, ◌<◌, Some, None, length, nat_le, if◌then◌else◌};
ghost use Rattle.std.specs.List.{prefix_len};
ghost use Rattle.fx_words.specs.Values as spec;

use crate::runs::{Frames, Size};
use fx_text::{all_digits, capped_number};

/// `WxH`.
#[tactic(auto, unfolding(crate::specs::Values::size_of))]
pub(crate) fn size_of(text: &[u8]) -> Option<Size>
    ensures { result ≡ spec.size_of text.now }
{
    let (width, behind) = text.split_at(x_in(text));
    sized(number_up_to(2048, width), height_of(behind))
}

fn sized(width: Option<u32>, height: Option<u32>) -> Option<Size>
    ensures { result ≡ spec.sized width height }
{
    match (width, height) {
        (Some(width), Some(height)) => Some(Size { width, height }),
        _ => None,
    }
}

fn height_of(text: &[u8]) -> Option<u32>
    ensures { result ≡ spec.height_of text.now }
{
    match text {
        [_, digits @ ..] => number_up_to(2048, digits),
        [] => None,
    }
}

fn x_in(text: &[u8]) -> usize
    ensures len { result ≡ prefix_len spec.before_x text.now }
    ensures within { result ≤ length text.now }
{
    text.iter().take_while(|c| **c != b'x').count()
}

#[tactic(auto, unfolding(crate::specs::Values::frames_of))]
pub(crate) fn frames_of(text: &[u8]) -> Option<Frames>
    ensures { result ≡ spec.frames_of text.now }
{
    if text == b"text".as_slice() {
        Some(Frames::Text)
    } else if text == b"ppm".as_slice() {
        Some(Frames::Ppm)
    } else if text == b"none".as_slice() {
        Some(Frames::Nothing)
    } else if text == b"delta".as_slice() {
        Some(Frames::Delta)
    } else {
        None
    }
}

/// A decimal number without sign or leading zero, up to the greatest one.
#[tactic(auto, using(crate::proofs::NumberLemmas::capped_within), unfolding(crate::specs::Values::number_up_to))]
pub(crate) fn number_up_to(most: u32, text: &[u8]) -> Option<u32>
    requires { most < 10000 }
    ensures { result ≡ spec.number_up_to most text.now }
{
    if is_decimal(text) {
        within(most, capped_number(text))
    } else {
        None
    }
}

fn within(most: u32, number: u32) -> Option<u32>
    ensures { result ≡ if nat_le number most then Some number else None }
{
    if number <= most { Some(number) } else { None }
}

fn is_decimal(text: &[u8]) -> bool
    ensures { result ≡ spec.is_decimal text.now }
{
    match text {
        [first, ..] => *first != b'0' && all_digits(text),
        [] => false,
    }
}
