//! The identifiers of style sheets.
//! Selectors and declarations are made of them.
ghost use Rattle.std.specs.Prelude.{◌≡◌, ◌≤◌, IfOk, length, true};
ghost use Rattle.fx_css_parts.specs.Texts.{is_ident, ident_at};

use fx_base::{Text, TextError};
use fx_text::is_style_identifier;
use std::alloc::{AllocError, Global};
use std::str;

/// The greatest number of bytes of an identifier.
const IDENT_LIMIT: usize = 4096;

/// Is the text an identifier (JavaFX CSS Reference Guide, "ident")?
pub fn is_ident(text: &[u8]) -> bool
    ensures { result ≡ is_ident text.now }
{
    is_style_identifier(text) && text.len() <= IDENT_LIMIT
}

/// The text as a name, if it is an identifier.
#[inline(always)]
pub fn read_ident(alloc: Global, text: &[u8]) -> Result<Option<Text>, AllocError>
    ensures { IfOk result (λ o. o ≡ ident_at text.now) }
{
    if !is_ident(text) {
        return Ok(None);
    }
    Ok(Some(named(alloc, text)?))
}

/// The identifier as a name.
fn named(alloc: Global, text: &[u8]) -> Result<Text, AllocError>
    requires ident { is_ident text.now ≡ true }
    ensures { IfOk result (λ name. name ≡ text.now) }
{
    text_of(alloc, unsafe { str::from_utf8_unchecked(text) })
}

/// The text of a short name.
pub fn text_of(alloc: Global, name: &str) -> Result<Text, AllocError>
    requires { length name.now ≤ 4096 }
    ensures { IfOk result (λ text. text ≡ name.now) }
{
    match Text::from_str(alloc, name) {
        Ok(text) => Ok(text),
        Err(TextError::Memory) => Err(AllocError),
        Err(TextError::TooLong) => unreachable!(),
    }
}
