//! What stands at the front of a text: a character, or a run of white, digits or letters.
ghost use Rattle.std.specs.Prelude.{◌≡◌, ◌≤◌, ◌∷◌, [], IfSome, IfNone, length};
ghost use Rattle.std.specs.Char.{is_ascii_digit};
ghost use Rattle.std.specs.List.{prefix_len};
ghost use Rattle.std.specs.Str.{chars};
ghost use Rattle.fx_text.specs.Classes.{is_letter_or_digit, is_white};
ghost use Rattle.fx_text.specs.Fronts.{front, behind};

use fx_text::{digit_count, is_letter_or_digit, white_count};

/// The first character, and what is behind it.
pub fn first(text: &str) -> Option<(char, &str)>
    ensures some { IfSome result (λ p. chars text.now ≡ p.0 ∷ chars p.1.now) }
    ensures none { IfNone result (chars text.now ≡ []) }
{
    let mut characters = text.chars();
    match characters.next() {
        Some(c) => Some((c, characters.as_str())),
        None => None,
    }
}

/// What is behind the white in front of the text.
pub fn past_white(text: &str) -> &str
    ensures { chars result.now ≡ behind is_white (chars text.now) }
{
    let (_, rest) = text.split_at(white_count(text.as_bytes()));
    rest
}

/// The digits in front of the text, and what is behind them.
pub fn digits(text: &str) -> (&str, &str)
    ensures digits { result.0.now ≡ front is_ascii_digit (chars text.now) }
    ensures rest { chars result.1.now ≡ behind is_ascii_digit (chars text.now) }
{
    text.split_at(digit_count(text.as_bytes()))
}

/// The letters and digits in front of the text, and what is behind them.
pub fn letters(text: &str) -> (&str, &str)
    ensures letters { result.0.now ≡ front is_letter_or_digit (chars text.now) }
    ensures rest { chars result.1.now ≡ behind is_letter_or_digit (chars text.now) }
{
    text.split_at(letter_count(text.as_bytes()))
}

/// How many letters and digits stand in front of the text?
fn letter_count(text: &[u8]) -> usize
    ensures count { result ≡ prefix_len is_letter_or_digit text.now }
    ensures within { result ≤ length text.now }
{
    text.iter()
        .take_while(|byte| is_letter_or_digit(**byte))
        .count()
}

/// How many characters the text has: as many as bytes, where all are ASCII.
pub fn character_count(text: &str) -> usize
    ensures { result ≡ length (chars text.now) }
{
    if text.is_ascii() {
        return text.len();
    }
    text.chars().count()
}
