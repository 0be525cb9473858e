//! Texts without the white at their ends.
ghost use Rattle.std.specs.Prelude.{◌≡◌};
ghost use Rattle.fx_text.specs.Trimming.{trim_front, trim_back, trimmed};

use crate::classes::is_white;
use std::str;

/// The text without the white in front of it.
#[tactic(auto, using(crate::proofs::TrimLemmas::front_moves))]
pub fn trim_front(text: &[u8]) -> &[u8]
    ensures { result.now ≡ trim_front text.now }
{
    let mut rest = text;
    while let Some((first, others)) = rest.split_first() {
        if !is_white(*first) {
            break;
        }
        rest = others;
    }
    rest
}

#[tactic(auto, using(crate::proofs::TrimLemmas::back_moves))]
fn trim_back(text: &[u8]) -> &[u8]
    ensures { result.now ≡ trim_back text.now }
{
    let mut rest = text;
    while let Some((last, others)) = rest.split_last() {
        if !is_white(*last) {
            break;
        }
        rest = others;
    }
    rest
}

/// The text without the white at its ends.
pub fn trimmed(text: &[u8]) -> &[u8]
    ensures { result.now ≡ trimmed text.now }
{
    trim_back(trim_front(text))
}

/// The text without the white at its ends, as text again: white is ASCII.
pub fn trimmed_text(text: &str) -> &str
    ensures { result.now ≡ trimmed text.now }
{
    match str::from_utf8(trimmed(text.as_bytes())) {
        Ok(middle) => middle,
        Err(_) => unreachable!(),
    }
}
