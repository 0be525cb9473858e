//! Decimals in front of a text: an optional sign, digits, and an optional point with digits behind it.
//! Numbers, sizes and the arguments of colours are read by them.
ghost use Rattle.std.specs.Prelude.{◌≡◌, ◌++◌, IfSome, IsTrue};
ghost use Rattle.std.specs.List.{list_all};
ghost use Rattle.std.specs.Option.{option_map};
ghost use Rattle.std.specs.Char.{is_ascii_digit};
ghost use Rattle.fx_look.specs.Decimals.{is_minus, behind_sign, digits_at, fraction_at, decimal_at};
ghost use Rattle.fx_look.specs.Written.{parts_of, decimal_and_rest};

use fx_text::digit_count;

/// A decimal as it is written. Both lists are ASCII digits; the whole part has at least one.
#[derive(Clone, Copy)]
pub struct Decimal<'a> {
    pub negative: bool,
    pub whole: &'a [u8],
    pub fraction: &'a [u8],
}

/// A sign in front of the text: is it a minus, and what is behind it?
pub fn sign_at(text: &[u8]) -> (bool, &[u8])
    ensures negative { result.0 ≡ is_minus text.now }
    ensures behind { result.1.now ≡ behind_sign text.now }
{
    match text {
        [b'-', behind @ ..] => (true, behind),
        [b'+', behind @ ..] => (false, behind),
        _ => (false, text),
    }
}

/// The digits in front of the text, and what is behind them.
fn digits_at(text: &[u8]) -> Option<(&[u8], &[u8])>
    ensures { option_map parts_of result ≡ digits_at text.now }
{
    let count = digit_count(text);
    if count == 0 {
        return None;
    }
    Some(text.split_at(count))
}

/// A point and digits in front of the text, if it begins with a point, and what is behind them.
fn fraction_at(text: &[u8]) -> Option<(&[u8], &[u8])>
    ensures { option_map parts_of result ≡ fraction_at text.now }
{
    match text {
        [b'.', digits @ ..] => digits_at(digits),
        _ => Some((&[], text)),
    }
}

/// The decimal in front of the text, and what is behind it.
pub fn decimal_at(text: &[u8]) -> Option<(Decimal<'_>, &[u8])>
    ensures value { option_map decimal_and_rest result ≡ decimal_at text.now }
    ensures digits { IfSome result (λ p. IsTrue (list_all is_ascii_digit (p.0.whole.now ++ p.0.fraction.now))) }
{
    let (negative, digits) = sign_at(text);
    let (whole, behind) = digits_at(digits)?;
    let (fraction, rest) = fraction_at(behind)?;
    let decimal = Decimal {
        negative,
        whole,
        fraction,
    };
    Some((decimal, rest))
}
