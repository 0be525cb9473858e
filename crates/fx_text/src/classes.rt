//! Classes of single bytes, and the values of hexadecimal digits.
ghost use Rattle.std.specs.Prelude.{◌≡◌, ◌<◌, ◌+◌, ◌*◌, IfSome, false};
ghost use Rattle.std.specs.Fmt.{digit_glyph};
ghost use Rattle.std.specs.Option.{option_and_then, option_map};
ghost use Rattle.fx_text.specs.Classes.{is_white, is_quote, hex_value};

/// Is the byte a space, a tab, a line feed or a carriage return (XML 1.0, `S`)?
#[inline]
pub fn is_white(byte: u8) -> bool
    ensures { result ≡ is_white byte }
{
    matches!(byte, b' ' | b'\t' | b'\n' | b'\r')
}

/// Is the byte `"` or `'`?
#[inline]
pub fn is_quote(byte: u8) -> bool
    ensures { result ≡ is_quote byte }
{
    matches!(byte, b'"' | b'\'')
}

/// The value of a hexadecimal digit, in either case of letters.
#[inline]
pub fn hex_value(digit: u8) -> Option<u8>
    ensures value { result ≡ hex_value digit }
    ensures small { IfSome result (λ value. value < 16) }
{
    match digit {
        b'0'..=b'9' => Some(digit - b'0'),
        b'A'..=b'F' => Some(digit - b'A' + 10),
        b'a'..=b'f' => Some(digit - b'a' + 10),
        _ => None,
    }
}

/// The hexadecimal digit of a number, in lower case.
#[inline]
pub fn hex_digit(number: u8) -> u8
    requires { number < 16 }
    ensures { result ≡ digit_glyph false number }
{
    if number < 10 {
        b'0' + number
    } else {
        b'a' + (number - 10)
    }
}

/// The value of two hexadecimal digits, the higher one first.
#[inline]
pub fn hex_pair(high: u8, low: u8) -> Option<u8>
    ensures { result ≡ option_and_then (λ h. option_map (λ l. 16 * h + l) (hex_value low)) (hex_value high) }
{
    Some(16 * hex_value(high)? + hex_value(low)?)
}
