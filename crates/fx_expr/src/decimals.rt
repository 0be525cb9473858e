//! Numbers: digits with an optional fraction, rounded half up.
ghost use Rattle.std.specs.Char.{is_ascii_digit};
ghost use Rattle.std.specs.Prelude.{◌≡◌, ◌-◌, ◌^◌, ◌+◌, min, pos, if◌then◌else◌, length, ◌<◌, ◌≤◌};
ghost use Rattle.std.specs.Str.{chars};
ghost use Rattle.fx_text.specs.Characters.{digit_zero};
ghost use Rattle.fx_text.specs.Digits.{number_behind};
ghost use Rattle.fx_base.specs.declared.values.Value.TheVariants as value;
ghost use Rattle.fx_text.specs.Fronts.{front, behind};
ghost use Rattle.fx_expr.specs.Decimal.{decimal, has_fraction, fraction_digits, fraction_rest, is_upper};
ghost use Rattle.fx_expr.specs.declared.tokens.Token.TheVariants.{Constant};

use crate::fronts::{digits, first};
use crate::tokens::Token;
use fx_base::Value;

/// The constant whose digits stand at the front of the text, and what is behind it.
pub fn number(text: &str) -> (Token, &str)
    ensures number { result.0 ≡ Constant (value.Int
        (decimal (front is_ascii_digit (chars text.now)) (fraction_digits (behind is_ascii_digit (chars text.now))))) }
    ensures rest { chars result.1.now ≡ fraction_rest (behind is_ascii_digit (chars text.now)) }
{
    let (whole, behind) = digits(text);
    let (up, rest) = fraction(behind);
    let number = rounded(number_of(whole.as_bytes()), up);
    (Token::Constant(Value::Int(number)), rest)
}

fn rounded(whole: u64, up: bool) -> i64
    ensures { result ≡ pos (min (whole + (if up then 1 else 0)) (2 ^ 63 - 1)) }
{
    let number = if up { whole.saturating_add(1) } else { whole };
    number.min(i64::MAX as u64) as i64
}

/// The number of these digits, at most the greatest of its type.
fn number_of(digits: &[u8]) -> u64
    ensures { result ≡ min (number_behind 0 digits.now) (2 ^ 64 - 1) }
{
    let mut number: u64 = 0;
    for byte in digits {
        number = number.saturating_mul(10).saturating_add(digit(*byte));
    }
    number
}

/// Whether the fraction that stands here rounds up, and what is behind it.
fn fraction(text: &str) -> (bool, &str)
    ensures up { result.0 ≡ is_upper (fraction_digits (chars text.now)) }
    ensures rest { chars result.1.now ≡ fraction_rest (chars text.now) }
{
    match first(text) {
        Some(('.', behind)) => {
            let (places, rest) = digits(behind);
            match places.as_bytes() {
                [place, ..] => (*place >= b'5', rest),
                [] => (false, text),
            }
        }
        _ => (false, text),
    }
}

/// Is it a digit?
pub fn is_digit(c: char) -> bool
    ensures { result ≡ is_ascii_digit c }
{
    c.is_ascii_digit()
}

fn digit(byte: u8) -> u64
    ensures { result ≡ byte - digit_zero }
{
    u64::from(byte.saturating_sub(48))
}
