//! Four lengths, one a side: insets, paddings and border widths of documents and style sheets.
//! Property values and declarations are read by them.
ghost use Rattle.std.specs.Prelude.{◌≡◌, ◌≤◌, length, List, ℕ, IfSome, IfNone};
ghost use Rattle.std.specs.List.{list_any, prefix_len};
ghost use Rattle.fx_base.specs.declared.geometry.Sides.{Sides as Insets};
ghost use Rattle.fx_look.specs.Numbers.{IsSize, size_at};
ghost use Rattle.fx_text.specs.Classes.{is_white};
ghost use Rattle.fx_look.specs.Insets.{IsSides, word, behind_word, not_white, four, sides_at, length_at};

use crate::numbers::{number_at, size_at};
use fx_base::Sides;
use fx_text::{behind_white, is_white};

/// The four sizes that the text spells: one for all sides, or top, right, bottom and left separated by white
/// (JavaFX CSS Reference Guide, `-fx-padding`).
pub fn read_sides(s: &str) -> Option<Sides>
    ensures found { IfSome result (IsSides IsSize s.now) }
    ensures none { IfNone result ((sides : Insets) → IsSides IsSize s.now sides → ⊥) }
{
    sizes_at(s.as_bytes())
}

/// A text spells four sizes in one way at most.
pub fn one_sides()
    ensures { (text : List ℕ) (s t : Insets) → IsSides IsSize text s → IsSides IsSize text t → s ≡ t }
{}

/// The four sizes that the bytes spell, as `read_sides` reads them.
pub fn sizes_at(text: &[u8]) -> Option<Sides>
    ensures { result ≡ sides_at size_at text.now }
{
    sides_at(Length::Size, text)
}

/// How each of the four is written: as in a document, or as in a style sheet.
#[derive(Clone, Copy)]
pub enum Length {
    Number,
    Size,
}

fn length_at(length: Length, text: &[u8]) -> Option<i64>
    ensures { result ≡ length_at length text.now }
{
    match length {
        Length::Number => number_at(text),
        Length::Size => size_at(text),
    }
}

pub fn sides_at(length: Length, text: &[u8]) -> Option<Sides>
    ensures { result ≡ sides_at (length_at length) text.now }
{
    if !has_white(text) {
        let all = length_at(length, text);
        return four(all, all, all, all);
    }
    let right = behind_word(text);
    let bottom = behind_word(right);
    let left = behind_word(bottom);
    four(
        length_at(length, word(text)),
        length_at(length, word(right)),
        length_at(length, word(bottom)),
        length_at(length, left),
    )
}

#[tactic(auto, unfolding(crate::specs::Insets::four))]
fn four(
    top: Option<i64>,
    right: Option<i64>,
    bottom: Option<i64>,
    left: Option<i64>,
) -> Option<Sides>
    ensures { result ≡ four top right bottom left }
{
    Some(Sides {
        top: top?,
        right: right?,
        bottom: bottom?,
        left: left?,
    })
}

fn has_white(text: &[u8]) -> bool
    ensures { result ≡ list_any is_white text.now }
{
    text.iter().any(|c| is_white(*c))
}

/// The text up to the first white.
fn word(text: &[u8]) -> &[u8]
    ensures { result.now ≡ word text.now }
{
    let (word, _) = text.split_at(word_length(text));
    word
}

/// What is behind the first word and the white behind it.
fn behind_word(text: &[u8]) -> &[u8]
    ensures { result.now ≡ behind_word text.now }
{
    let (_, rest) = text.split_at(word_length(text));
    behind_white(rest)
}

fn word_length(text: &[u8]) -> usize
    ensures length { result ≡ prefix_len not_white text.now }
    ensures within { result ≤ length text.now }
{
    text.iter().take_while(|c| !is_white(**c)).count()
}
