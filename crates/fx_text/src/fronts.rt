//! How far white and digits reach from the front of a text.
ghost use Rattle.std.specs.Prelude.{◌≡◌, ◌≤◌, length};
ghost use Rattle.std.specs.Char.{is_ascii_digit};
ghost use Rattle.std.specs.List.{list_all, prefix_len};
ghost use Rattle.fx_text.specs.Classes.{is_white};
ghost use Rattle.fx_text.specs.Fronts.{behind};

use crate::classes::is_white;

/// Is the text nothing but white?
pub fn all_white(text: &[u8]) -> bool
    ensures { result ≡ list_all is_white text.now }
{
    text.iter().all(|byte| is_white(*byte))
}

/// Is the text nothing but decimal digits?
pub fn all_digits(text: &[u8]) -> bool
    ensures { result ≡ list_all is_ascii_digit text.now }
{
    text.iter().all(|byte| byte.is_ascii_digit())
}

/// How many white bytes stand in front of the text?
pub fn white_count(text: &[u8]) -> usize
    ensures count { result ≡ prefix_len is_white text.now }
    ensures within { result ≤ length text.now }
{
    text.iter().take_while(|byte| is_white(**byte)).count()
}

/// What is behind the white in front of the text.
pub fn behind_white(text: &[u8]) -> &[u8]
    ensures { result.now ≡ behind is_white text.now }
{
    let (_, rest) = text.split_at(white_count(text));
    rest
}

/// How many decimal digits stand in front of the text?
pub fn digit_count(text: &[u8]) -> usize
    ensures count { result ≡ prefix_len is_ascii_digit text.now }
    ensures within { result ≤ length text.now }
{
    text.iter().take_while(|byte| byte.is_ascii_digit()).count()
}
