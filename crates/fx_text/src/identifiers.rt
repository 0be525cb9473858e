//! Identifiers, as the names of nodes, properties, owners and actions are, and those of style sheets.
ghost use Rattle.std.specs.Prelude.{◌≡◌, map};
ghost use Rattle.std.specs.List.{list_all, range_with_len};
ghost use Rattle.fx_text.specs.Classes.{is_identifier, is_letter, is_letter_or_digit};
ghost use Rattle.fx_text.specs.Identifiers.{behind_dash, is_later, is_style_identifier, is_style_word};

/// Whether a byte of each number may stand behind the first letter of an identifier.
static LATER: [bool; 256] = [
    false, false, false, false, false, false, false, false, false, false, false, false, false,
    false, false, false, false, false, false, false, false, false, false, false, false, false,
    false, false, false, false, false, false, false, false, false, false, false, false, false,
    false, false, false, false, false, false, true, false, false, true, true, true, true, true,
    true, true, true, true, true, false, false, false, false, false, false, false, true, true,
    true, true, true, true, true, true, true, true, true, true, true, true, true, true, true, true,
    true, true, true, true, true, true, true, true, false, false, false, false, true, false, true,
    true, true, true, true, true, true, true, true, true, true, true, true, true, true, true, true,
    true, true, true, true, true, true, true, true, true, false, false, false, false, false, false,
    false, false, false, false, false, false, false, false, false, false, false, false, false,
    false, false, false, false, false, false, false, false, false, false, false, false, false,
    false, false, false, false, false, false, false, false, false, false, false, false, false,
    false, false, false, false, false, false, false, false, false, false, false, false, false,
    false, false, false, false, false, false, false, false, false, false, false, false, false,
    false, false, false, false, false, false, false, false, false, false, false, false, false,
    false, false, false, false, false, false, false, false, false, false, false, false, false,
    false, false, false, false, false, false, false, false, false, false, false, false, false,
    false, false, false, false, false, false, false, false, false, false, false, false, false,
    false, false, false, false, false, false, false, false, false, false,
];

/// Is the text an ASCII letter or `_`, followed by letters, digits and `_` alone?
pub fn is_identifier(text: &str) -> bool
    ensures { result ≡ is_identifier text.now }
{
    spells_identifier(text.as_bytes())
}

fn spells_identifier(text: &[u8]) -> bool
    ensures { result ≡ is_identifier text.now }
{
    match text {
        [first, rest @ ..] => is_letter(*first) && all_letters_or_digits(rest),
        [] => false,
    }
}

fn all_letters_or_digits(text: &[u8]) -> bool
    ensures { result ≡ list_all is_letter_or_digit text.now }
{
    text.iter().all(|byte| is_letter_or_digit(*byte))
}

/// Is the byte an ASCII letter or `_`?
#[inline]
pub fn is_letter(byte: u8) -> bool
    ensures { result ≡ is_letter byte }
{
    matches!(byte, b'A'..=b'Z' | b'a'..=b'z' | b'_')
}

/// Is the byte an ASCII letter, a digit or `_`?
#[inline]
pub fn is_letter_or_digit(byte: u8) -> bool
    ensures { result ≡ is_letter_or_digit byte }
{
    is_letter(byte) || matches!(byte, b'0'..=b'9')
}

/// Is the text an identifier of style sheets: perhaps a `-`, an ASCII letter or `_`, and then letters, digits, `_` and
/// `-`?
pub fn is_style_identifier(text: &[u8]) -> bool
    ensures { result ≡ is_style_identifier text.now }
{
    is_style_word(behind_dash(text))
}

fn behind_dash(text: &[u8]) -> &[u8]
    ensures { result.now ≡ behind_dash text.now }
{
    match text {
        [b'-', rest @ ..] => rest,
        _ => text,
    }
}

fn is_style_word(text: &[u8]) -> bool
    ensures { result ≡ is_style_word text.now }
{
    match text {
        [first, rest @ ..] => is_letter(*first) && all_later(rest),
        [] => false,
    }
}

fn all_later(text: &[u8]) -> bool
    ensures { result ≡ list_all is_later text.now }
{
    text.iter().all(|byte| is_later(*byte))
}

/// Is the byte a letter, a digit, `_` or `-`?
fn is_later(byte: u8) -> bool
    ensures { result ≡ is_later byte }
{
    match later_table().get(usize::from(byte)) {
        Some(later) => *later,
        None => false,
    }
}

fn later_table() -> &'static [bool]
    ensures { result.now ≡ map is_later (range_with_len 0 256) }
{
    &LATER
}
