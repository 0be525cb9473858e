//! Colours of documents and style sheets: hexadecimal, by `rgb` and `rgba`, `transparent`, and by name.
//! Property values and paints are read by them.
ghost use Rattle.std.specs.Prelude.{◌≡◌, ◌+◌, ◌*◌, ◌/◌, ◌<◌, ◌≤◌, ◌^◌, List, ℕ, IfSome, IfNone};
ghost use Rattle.std.specs.Option.{option_map};
ghost use Rattle.fx_base.specs.declared.color.Color.{Color as Paint};
ghost use Rattle.fx_look.specs.Colors as spec;
ghost use Rattle.fx_look.specs.Written.{written, decimal_and_rest, value_and_rest};

use crate::color_names::named;
use crate::decimals::{Decimal, decimal_at};
use crate::numbers::leading;
use fx_base::Color;
use fx_text::{behind_white, hex_pair, hex_value};

/// The colour that the text spells.
///
/// That is `#rgb`, `#rrggbb` or `#rrggbbaa`; `rgb(r,g,b)` with whole numbers, clamped to 0 to 255; `rgba(r,g,b,a)`
/// with an `a` of at most nine decimals, clamped to 0 to 1; `transparent`; or a name in any case of letters (JavaFX
/// CSS Reference Guide, "color", of whose names 53 are read).
pub fn read_color(s: &str) -> Option<Color>
    ensures found { IfSome result (spec.IsColor s.now) }
    ensures none { IfNone result ((c : Paint) → spec.IsColor s.now c → ⊥) }
{
    color_at(s.as_bytes())
}

/// A text spells one colour at most.
pub fn one_color()
    ensures { (text : List ℕ) (c d : Paint) → spec.IsColor text c → spec.IsColor text d → c ≡ d }
{}

/// The colour that the bytes spell, as `read_color` reads them.
pub fn color_at(text: &[u8]) -> Option<Color>
    ensures { result ≡ spec.color_at text.now }
{
    if let Some(digits) = strip(b"#", text) {
        return hex_at(digits);
    }
    if let Some(arguments) = strip(b"rgb(", text) {
        return rgb_at(arguments);
    }
    if let Some(arguments) = strip(b"rgba(", text) {
        return rgba_at(arguments);
    }
    word_at(text)
}

fn word_at(text: &[u8]) -> Option<Color>
    ensures { result ≡ spec.word_at text.now }
{
    if text == b"transparent".as_slice() {
        return Some(Color {
            r: 0,
            g: 0,
            b: 0,
            a: 0,
        });
    }
    named(text).map(|pixel| solid(pixel))
}

/// The opaque colour of a pixel 0x00RRGGBB.
fn solid(pixel: u32) -> Color
    ensures { result ≡ spec.solid pixel }
{
    Color {
        r: (pixel / 65536 % 256) as u8,
        g: (pixel / 256 % 256) as u8,
        b: (pixel % 256) as u8,
        a: 255,
    }
}

/// What is behind this front, if the text begins with it.
fn strip<'a>(front: &[u8], text: &'a [u8]) -> Option<&'a [u8]>
    ensures { option_map (λ rest. rest.now) result ≡ spec.strip front.now text.now }
{
    text.strip_prefix(front)
}

fn hex_at(digits: &[u8]) -> Option<Color>
    ensures { result ≡ spec.hex_at digits.now }
{
    match digits {
        [r, g, b] => three(twice(*r), twice(*g), twice(*b), 255),
        [r0, r1, g0, g1, b0, b1] => three(pair(*r0, *r1), pair(*g0, *g1), pair(*b0, *b1), 255),
        [r0, r1, g0, g1, b0, b1, a0, a1] => {
            let a = pair(*a0, *a1)?;
            three(pair(*r0, *r1), pair(*g0, *g1), pair(*b0, *b1), a)
        }
        _ => None,
    }
}

/// The colour of these channels, if each is one.
#[tactic(auto, unfolding(crate::specs::Colors::three))]
fn three(r: Option<u8>, g: Option<u8>, b: Option<u8>, a: u8) -> Option<Color>
    ensures { result ≡ spec.three r g b a }
{
    Some(Color {
        r: r?,
        g: g?,
        b: b?,
        a,
    })
}

/// A digit that counts twice.
#[tactic(auto, unfolding(crate::specs::Colors::twice_value))]
fn twice(digit: u8) -> Option<u8>
    ensures { result ≡ spec.twice_value digit }
{
    Some(17 * hex_value(digit)?)
}

#[tactic(auto, unfolding(crate::specs::Colors::pair_value))]
fn pair(high: u8, low: u8) -> Option<u8>
    ensures { result ≡ spec.pair_value high low }
{
    hex_pair(high, low)
}

fn rgb_at(text: &[u8]) -> Option<Color>
    ensures { result ≡ spec.rgb_at text.now }
{
    let (r, text) = channel_at(b',', text)?;
    let (g, text) = channel_at(b',', text)?;
    let (b, text) = channel_at(b')', text)?;
    ended(Color { r, g, b, a: 255 }, text)
}

fn rgba_at(text: &[u8]) -> Option<Color>
    ensures { result ≡ spec.rgba_at text.now }
{
    let (r, text) = channel_at(b',', text)?;
    let (g, text) = channel_at(b',', text)?;
    let (b, text) = channel_at(b',', text)?;
    let (a, text) = opacity_at(b')', text)?;
    ended(Color { r, g, b, a }, text)
}

/// The colour, if nothing is left of the text.
fn ended(color: Color, text: &[u8]) -> Option<Color>
    ensures { result ≡ spec.ended color text.now }
{
    match text {
        [] => Some(color),
        _ => None,
    }
}

/// A whole number in front of the mark, clamped to 0 to 255, and what is behind the mark.
fn channel_at(mark: u8, text: &[u8]) -> Option<(u8, &[u8])>
    ensures { option_map value_and_rest result ≡ spec.channel_at mark text.now }
{
    let (number, rest) = argument_at(mark, text)?;
    let channel = channel_value(&number)?;
    Some((channel, rest))
}

/// A share from 0 to 1 in front of the mark, as 0 to 255, and what is behind the mark.
fn opacity_at(mark: u8, text: &[u8]) -> Option<(u8, &[u8])>
    ensures { option_map value_and_rest result ≡ spec.opacity_at mark text.now }
{
    let (number, rest) = argument_at(mark, text)?;
    let opacity = opacity_value(&number)?;
    Some((opacity, rest))
}

fn channel_value(number: &Decimal<'_>) -> Option<u8>
    ensures { result ≡ spec.channel_value (written number.now) }
{
    if number.fraction.len() > 0 {
        return None;
    }
    if number.negative {
        return Some(0);
    }
    Some(leading(number, number.whole.len()).min(255) as u8)
}

/// The share of opacity, of 255, rounded half up.
fn opacity_value(number: &Decimal<'_>) -> Option<u8>
    ensures { result ≡ spec.opacity_value (written number.now) }
{
    let places = number.fraction.len();
    if places > 9 {
        return None;
    }
    if number.negative {
        return Some(0);
    }
    let below = ten_power(places);
    let above = leading(number, number.whole.len() + places).min(below);
    Some(rounded_share(above, below))
}

/// Ten to this power.
fn ten_power(places: usize) -> u64
    requires { places ≤ 9 }
    ensures value { result ≡ 10 ^ places }
    ensures some { 0 < result }
    ensures bound { result ≤ 1000000000 }
{
    10u64.pow(places as u32)
}

/// 255 times the fraction, rounded half up.
fn rounded_share(above: u64, below: u64) -> u8
    requires part { above ≤ below }
    requires some { 0 < below }
    requires bound { below ≤ 1000000000 }
    ensures { result ≡ (2 * (255 * above) + below) / (2 * below) }
{
    ((2 * (255 * above) + below) / (2 * below)) as u8
}

/// A decimal with white around it in front of the mark, and what is behind the mark.
fn argument_at(mark: u8, text: &[u8]) -> Option<(Decimal<'_>, &[u8])>
    ensures { option_map decimal_and_rest result ≡ spec.argument_at mark text.now }
{
    let (number, rest) = decimal_at(behind_white(text))?;
    before_mark(mark, number, behind_white(rest))
}

fn before_mark<'a>(mark: u8, number: Decimal<'a>, text: &'a [u8]) -> Option<(Decimal<'a>, &'a [u8])>
    ensures { option_map decimal_and_rest result ≡ spec.before_mark mark (written number.entry) text.now }
{
    match text {
        [first, rest @ ..] if *first == mark => Some((number, rest)),
        _ => None,
    }
}
