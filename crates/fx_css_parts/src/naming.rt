//! Style declarations by the names that stand in front of texts, and the rows of names, found at the first look where a
//! name is one of theirs. Declarations carry their rows from here on.
ghost use Rattle.std.specs.Prelude.{◌≡◌, ◌↔◌, ◌++◌, ◌∷◌, IfSome, IsTrue, slice_get};
ghost use Rattle.std.specs.Option.{unwrap_or};
ghost use Rattle.fx_text.specs.Characters.{colon};
ghost use Rattle.fx_css_types.specs.Limits.{row_of};
ghost use Rattle.fx_css_parts.specs.Drafts.{IsKnown, may_be_style};

use fx_look::{Style, StyleKey, StyleName, style_named};

/// A style declaration whose name and `:` stand in front of a text, and what is behind them.
#[derive(Clone, Copy)]
pub struct Known<'a> {
    pub row: StyleName,
    pub style: &'static Style,
    pub value: &'a [u8],
}

/// The style declaration whose name and `:` the text begins with, if there is one. The one that a few letters tell is
/// the only one that is looked at.
pub fn known_front(text: &[u8]) -> Option<Known<'_>>
    ensures { IfSome result (λ known. IsKnown text.now known) }
{
    let row = StyleName(guessed(text)? as u32);
    let style = row.style()?;
    let value = behind_name(style.name, text)?;
    Some(Known { row, style, value })
}

/// What is behind the name and `:` that the text begins with.
#[tactic(auto, using(crate::proofs::KnownLemmas::name_and_value))]
fn behind_name<'a>(name: &str, text: &'a [u8]) -> Option<&'a [u8]>
    ensures { IfSome result (λ value. text.now ≡ name.now ++ (colon ∷ value.now)) }
{
    let (front, rest) = text.split_at_checked(name.len())?;
    if !is_same(front, name.as_bytes()) {
        return None;
    }
    let (first, value) = rest.split_first()?;
    if *first != b':' {
        return None;
    }
    Some(value)
}

fn is_same(text: &[u8], other: &[u8]) -> bool
    ensures { IsTrue result ↔ (text.now ≡ other.now) }
{
    text == other
}

/// The row of the style declaration of this name. Where the second letter is none of theirs, the table isn't searched.
#[tactic(auto, using(crate::proofs::KnownLemmas::not_styled))]
pub fn row_named(name: &str) -> Option<StyleName>
    ensures { result ≡ row_of name.now }
{
    if !may_be_style(name.as_bytes()) {
        return None;
    }
    style_named(name)
}

/// Has the name a second letter as one of the style declarations has it?
fn may_be_style(name: &[u8]) -> bool
    ensures { result ≡ may_be_style name.now }
{
    matches!(letter(name, 1), b'f' | b'i')
}

/// The only row whose name may have these letters where its fifth one is.
fn guessed(text: &[u8]) -> Option<StyleKey> {
    match letter(text, 4) {
        b'a' => Some(StyleKey::Alignment),
        b'b' => guessed_of_b(text),
        b'f' => guessed_of_f(text),
        b'h' => Some(StyleKey::Hgap),
        b'm' => guessed_of_m(text),
        b'p' => guessed_of_p(text),
        b's' => Some(StyleKey::Spacing),
        b't' => Some(StyleKey::TextFill),
        b'v' => Some(StyleKey::Vgap),
        b'w' => Some(StyleKey::WrapText),
        _ => None,
    }
}

fn guessed_of_b(text: &[u8]) -> Option<StyleKey> {
    match (letter(text, 5), letter(text, 11), letter(text, 15)) {
        (b'a', _, b'c') => Some(StyleKey::BackgroundColor),
        (b'a', _, _) => Some(StyleKey::BackgroundInsets),
        (b'o', b'c', _) => Some(StyleKey::BorderColor),
        (b'o', b'w', _) => Some(StyleKey::BorderWidth),
        (b'o', _, _) => Some(StyleKey::BorderInsets),
        _ => Some(StyleKey::Visibility),
    }
}

fn guessed_of_f(text: &[u8]) -> Option<StyleKey> {
    match (letter(text, 5), letter(text, 9)) {
        (b'i', b'w') => Some(StyleKey::FillWidth),
        (b'i', _) => Some(StyleKey::FillHeight),
        _ => Some(StyleKey::FontSize),
    }
}

fn guessed_of_m(text: &[u8]) -> Option<StyleKey> {
    match (letter(text, 5), letter(text, 8)) {
        (b'i', b'w') => Some(StyleKey::MinWidth),
        (b'i', _) => Some(StyleKey::MinHeight),
        (_, b'w') => Some(StyleKey::MaxWidth),
        _ => Some(StyleKey::MaxHeight),
    }
}

fn guessed_of_p(text: &[u8]) -> Option<StyleKey> {
    match (letter(text, 5), letter(text, 9)) {
        (b'a', _) => Some(StyleKey::Padding),
        (_, b'w') => Some(StyleKey::PrefWidth),
        _ => Some(StyleKey::PrefHeight),
    }
}

/// The letter at this place, or 0 past the end.
fn letter(text: &[u8], at: usize) -> u8
    ensures { result ≡ unwrap_or (slice_get text.now at) 0 }
{
    match text.get(at) {
        Some(letter) => *letter,
        None => 0,
    }
}
