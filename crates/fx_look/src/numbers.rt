//! Numbers of documents and scripts, and sizes of style sheets: whole numbers of 64 bits, rounded half up.
//! Insets, property values and declarations are read by them.
ghost use Rattle.std.specs.Prelude.{◌≡◌, ◌+◌, ◌*◌, ◌^◌, ◌-◌, ◌<◌, ◌≤◌, min, length, drop, List, ℕ, ℤ, IfSome, IfNone, IsTrue, nat_lt, slice_index_or};
ghost use Rattle.std.specs.List.{list_all, list_any};
ghost use Rattle.std.specs.Char.{is_ascii_digit};
ghost use Rattle.std.specs.Option.{option_map};
ghost use Rattle.fx_text.specs.Characters.{digit_zero};
ghost use Rattle.fx_look.specs.Numbers as spec;
ghost use Rattle.fx_look.specs.Rounding.{digits_of, leading, rounds_away, rounded_at, size_of};
ghost use Rattle.fx_look.specs.Written.{written, power_of_ten};

use crate::decimals::{Decimal, decimal_at, sign_at};
use fx_text::{all_digits, capped_number};

/// The number that the text spells.
///
/// That is an optional sign, digits, an optional point with digits behind it, and an optional `e` or `E` with an
/// optional sign and one to three digits; or `Infinity` or `-Infinity`.
pub fn read_number(s: &str) -> Option<i64>
    ensures found { IfSome result (spec.IsNumber s.now) }
    ensures none { IfNone result ((n : ℤ) → spec.IsNumber s.now n → ⊥) }
{
    number_at(s.as_bytes())
}

/// The size in pixels that the text spells: a number without exponent, optionally with `px` behind it
/// (JavaFX CSS Reference Guide, "size").
pub fn read_size(s: &str) -> Option<i64>
    ensures found { IfSome result (spec.IsSize s.now) }
    ensures none { IfNone result ((n : ℤ) → spec.IsSize s.now n → ⊥) }
{
    size_at(s.as_bytes())
}

/// A text spells one number at most.
pub fn one_number()
    ensures { (text : List ℕ) (m n : ℤ) → spec.IsNumber text m → spec.IsNumber text n → m ≡ n }
{}

/// A text spells one size at most.
pub fn one_size()
    ensures { (text : List ℕ) (m n : ℤ) → spec.IsSize text m → spec.IsSize text n → m ≡ n }
{}

/// A power of ten: ten to the power `up` - `down`, one of which is 0.
#[derive(Clone, Copy)]
struct Power {
    up: u16,
    down: u16,
}

const ONE: Power = Power { up: 0, down: 0 };

/// The number that the bytes spell, as `read_number` reads them.
pub fn number_at(text: &[u8]) -> Option<i64>
    ensures { result ≡ spec.number_at text.now }
{
    if text == b"Infinity".as_slice() {
        return Some(i64::MAX);
    }
    if text == b"-Infinity".as_slice() {
        return Some(i64::MIN);
    }
    let (decimal, behind) = decimal_at(text)?;
    let power = power_at(behind)?;
    Some(rounded(&decimal, power))
}

/// The size that the bytes spell, as `read_size` reads them.
pub fn size_at(text: &[u8]) -> Option<i64>
    ensures { result ≡ spec.size_at text.now }
{
    if is_short_whole(text) {
        return Some(i64::from(capped_number(text)));
    }
    any_size_at(text)
}

/// Is the text one to nine digits, as most sizes are?
fn is_short_whole(text: &[u8]) -> bool
    ensures { result ≡ spec.is_short_whole text.now }
{
    !text.is_empty() && text.len() <= 9 && all_digits(text)
}

fn any_size_at(text: &[u8]) -> Option<i64>
    ensures { result ≡ spec.size_at text.now }
{
    if text == b"Infinity".as_slice() || text == b"Infinitypx".as_slice() {
        return Some(i64::MAX);
    }
    if text == b"-Infinity".as_slice() || text == b"-Infinitypx".as_slice() {
        return Some(i64::MIN);
    }
    let (decimal, behind) = decimal_at(text)?;
    if behind == b"".as_slice() || behind == b"px".as_slice() {
        Some(rounded(&decimal, ONE))
    } else {
        None
    }
}

/// The power that the whole text spells: nothing, or `e` or `E` with an exponent.
fn power_at(text: &[u8]) -> Option<Power>
    ensures { option_map power_of_ten result ≡ spec.power_at text.now }
{
    match text {
        [] => Some(ONE),
        [b'E' | b'e', exponent @ ..] => {
            let (negative, digits) = sign_at(exponent);
            let size = exponent_at(digits)?;
            if negative {
                Some(Power { up: 0, down: size })
            } else {
                Some(Power { up: size, down: 0 })
            }
        }
        _ => None,
    }
}

fn exponent_at(digits: &[u8]) -> Option<u16>
    ensures { result ≡ spec.exponent_at digits.now }
{
    if all_digits(digits) {
        few_digits(digits)
    } else {
        None
    }
}

/// The number of one to three digits.
fn few_digits(digits: &[u8]) -> Option<u16>
    ensures { result ≡ spec.few_digits digits.now }
{
    match digits {
        [a] => Some(digit(*a)),
        [a, b] => Some(digit(*a) * 10 + digit(*b)),
        [a, b, c] => Some(digit(*a) * 100 + digit(*b) * 10 + digit(*c)),
        _ => None,
    }
}

fn digit(c: u8) -> u16
    ensures value { result ≡ c - digit_zero }
    ensures small { result < 256 }
{
    u16::from(c.saturating_sub(b'0'))
}

/// The decimal times the power, rounded half up. What passes the ends of 64 bits gives the end.
fn rounded(decimal: &Decimal<'_>, power: Power) -> i64
    requires { IsTrue (list_all is_ascii_digit (digits_of (written decimal.now))) }
    ensures { result ≡ spec.number_of (written decimal.now) (power_of_ten power) }
{
    signed(decimal.negative, size_of(decimal, power))
}

fn signed(negative: bool, size: u64) -> i64
    ensures { result ≡ spec.saturated negative size }
{
    if size >= 1 << 63 {
        if negative { i64::MIN } else { i64::MAX }
    } else if negative {
        -(size as i64)
    } else {
        size as i64
    }
}

/// The size of the rounded number: the digits before the moved point, and one more where those behind it round away
/// from zero.
fn size_of(decimal: &Decimal<'_>, power: Power) -> u64
    ensures { result ≡ min (size_of (written decimal.now) (power_of_ten power)) (2 ^ 64 - 1) }
{
    let shifted = decimal.whole.len() + usize::from(power.up);
    let down = usize::from(power.down);
    if shifted < down {
        return 0;
    }
    rounded_at(decimal, shifted - down)
}

fn rounded_at(decimal: &Decimal<'_>, places: usize) -> u64
    ensures { result ≡ min (rounded_at decimal.now.negative (digits_of (written decimal.now)) places) (2 ^ 64 - 1) }
{
    let size = leading(decimal, places);
    if rounds_away(decimal, places) {
        size.saturating_add(1)
    } else {
        size
    }
}

/// Are the digits from this place on at least a half, or more than a half under a minus?
fn rounds_away(decimal: &Decimal<'_>, place: usize) -> bool
    ensures { result ≡ rounds_away decimal.now.negative (drop place (digits_of (written decimal.now))) }
{
    let first = digit_at(decimal, place);
    if decimal.negative && first == b'5' {
        has_more(decimal, place + 1)
    } else {
        first >= b'5'
    }
}

/// Is a digit from this place on above `0`?
fn has_more(decimal: &Decimal<'_>, place: usize) -> bool
    ensures { result ≡ list_any (nat_lt digit_zero) (drop place (digits_of (written decimal.now))) }
{
    let behind = place.saturating_sub(decimal.whole.len());
    is_above_zero(from(decimal.whole, place)) || is_above_zero(from(decimal.fraction, behind))
}

fn from(digits: &[u8], place: usize) -> &[u8]
    ensures { result.now ≡ drop place digits.now }
{
    if place < digits.len() {
        &digits[place..]
    } else {
        &[]
    }
}

fn is_above_zero(digits: &[u8]) -> bool
    ensures { result ≡ list_any (nat_lt digit_zero) digits.now }
{
    digits.iter().any(|c| b'0' < *c)
}

/// The number of the first `places` digits, with zeros behind the last one.
pub fn leading(decimal: &Decimal<'_>, places: usize) -> u64
    ensures { result ≡ min (leading (digits_of (written decimal.now)) places) (2 ^ 64 - 1) }
{
    let mut size: u64 = 0;
    for i in 0..places {
        let digit = digit(digit_at(decimal, i));
        size = size.saturating_mul(10).saturating_add(u64::from(digit));
    }
    size
}

/// The digit at this place, or `0` behind the last one.
fn digit_at(decimal: &Decimal<'_>, place: usize) -> u8
    ensures { result ≡ slice_index_or (digits_of (written decimal.now)) place digit_zero }
{
    let whole = decimal.whole;
    let fraction = decimal.fraction;
    if place < whole.len() {
        whole[place]
    } else if place - whole.len() < fraction.len() {
        fraction[place - whole.len()]
    } else {
        b'0'
    }
}
