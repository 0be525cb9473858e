//! What stands in front of a text: the characters of a name, plain characters of a value, a quote, or a byte.
ghost use Rattle.std.specs.Prelude.{◌≡◌, ◌∷◌, ◌<◌, ◌≤◌, ℕ, List, length, IfSome, IfNone};
ghost use Rattle.std.specs.List.{prefix_len};
ghost use Rattle.fx_doc_grammar.specs.Characters.{class_of, starts_name};
ghost use Rattle.fx_doc_grammar.specs.Grammar.{quote_code};
ghost use Rattle.fx_doc_drafts.specs.Ahead.{is_named, is_plain, begins_name};

use fx_doc_grammar::{Class, Quote};

#[tactic(auto, unfolding(fx_doc_grammar::specs::Characters::class_of))]
fn is_named(byte: u8) -> bool
    ensures { result ≡ is_named byte }
{
    matches!(byte, b'a'..=b'z' | b'A'..=b'Z' | b'_' | b'0'..=b'9' | b':' | b'.' | b'-')
}

fn is_plain(byte: u8, quote: u8) -> bool
    ensures { result ≡ is_plain quote byte }
{
    byte >= 32 && byte < 127 && byte != quote && byte != b'&' && byte != b'<'
}

/// The characters in front that a name holds.
pub fn name_length(bytes: &[u8]) -> usize
    ensures count { result ≡ prefix_len is_named bytes.now }
    ensures within { result ≤ length bytes.now }
{
    bytes.iter().take_while(|byte| is_named(**byte)).count()
}

/// The plain characters in front of a value's end.
pub fn value_length(bytes: &[u8], quote: u8) -> usize
    ensures count { result ≡ prefix_len (is_plain quote) bytes.now }
    ensures within { result ≤ length bytes.now }
{
    bytes
        .iter()
        .take_while(|byte| is_plain(**byte, quote))
        .count()
}

fn is_letter(class: Class) -> bool
    ensures { result ≡ starts_name class }
{
    match class {
        Class::Letter => true,
        _ => false,
    }
}

/// May a name begin so?
pub fn begins_name(name: &str) -> bool
    ensures { result ≡ begins_name name.now }
{
    match name.as_bytes().first() {
        Some(byte) => is_letter(Class::of(char::from(*byte))),
        None => false,
    }
}

/// The text behind this byte, if it begins with it.
pub fn behind_byte(text: &str, byte: u8) -> Option<&str>
    requires { byte < 128 }
    ensures some { IfSome result (λ behind. text.now ≡ byte ∷ behind.now) }
    ensures none { IfNone result ((behind : List ℕ) → text.now ≡ byte ∷ behind → ⊥) }
{
    let first = *text.as_bytes().first()?;
    if first != byte {
        return None;
    }
    let (_, behind) = text.split_at_checked(1)?;
    Some(behind)
}

pub fn quote_byte(quote: Quote) -> u8
    ensures { result ≡ quote_code quote }
{
    match quote {
        Quote::Single => b'\'',
        Quote::Double => b'"',
    }
}

/// The quote that the text begins with, and the text behind it.
pub fn quote_ahead(text: &str) -> Option<(Quote, &str)>
    ensures some { IfSome result (λ x. text.now ≡ quote_code x.0 ∷ x.1.now) }
    ensures none { IfNone result ((quote : Quote) (behind : List ℕ) → text.now ≡ quote_code quote ∷ behind → ⊥) }
{
    if let Some(behind) = behind_byte(text, b'"') {
        return Some((Quote::Double, behind));
    }
    match behind_byte(text, b'\'') {
        Some(behind) => Some((Quote::Single, behind)),
        None => None,
    }
}
