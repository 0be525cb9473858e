//! What a word of a line looks like.
//! Words are told apart by their bytes, before they are kept as texts.
ghost use Rattle.std.specs.Prelude.{◌≡◌};
ghost use Rattle.fx_script_lines.specs.Taking as spec;

use fx_text::{all_digits, is_identifier, is_style_identifier};

/// What a word has to be.
#[derive(Clone, Copy)]
pub enum Shape {
    Any,
    Identifier,
    /// The name of a declaration: an identifier of style sheets.
    Ident,
    /// Digits, perhaps behind a `-`.
    Integer,
    /// Digits, or an edge in lower case.
    Place,
    /// Digits, or `indefinite`.
    Count,
    /// `invalid` or `change`.
    Notice,
    /// `int`, `bool` or `text`.
    Kind,
    /// `on` or `off`.
    Switch,
}

pub(crate) fn has_shape(shape: Shape, word: &str) -> bool
    ensures { result ≡ spec.has_shape shape word.now }
{
    let bytes = word.as_bytes();
    match shape {
        Shape::Any => true,
        Shape::Identifier => is_identifier(word),
        Shape::Ident => is_style_identifier(bytes),
        Shape::Integer => is_integer(bytes),
        Shape::Place => are_digits(bytes) || is_edge(bytes),
        Shape::Count => are_digits(bytes) || bytes == b"indefinite".as_slice(),
        Shape::Notice => bytes == b"invalid".as_slice() || bytes == b"change".as_slice(),
        Shape::Kind => is_kind(bytes),
        Shape::Switch => bytes == b"on".as_slice() || bytes == b"off".as_slice(),
    }
}

fn is_edge(word: &[u8]) -> bool
    ensures { result ≡ spec.is_edge word.now }
{
    word == b"top".as_slice()
        || word == b"right".as_slice()
        || word == b"bottom".as_slice()
        || word == b"left".as_slice()
        || word == b"center".as_slice()
}

fn is_kind(word: &[u8]) -> bool
    ensures { result ≡ spec.is_kind word.now }
{
    word == b"int".as_slice() || word == b"bool".as_slice() || word == b"text".as_slice()
}

fn is_integer(word: &[u8]) -> bool
    ensures { result ≡ spec.is_integer word.now }
{
    match word {
        [b'-', digits @ ..] => are_digits(digits),
        _ => are_digits(word),
    }
}

fn are_digits(word: &[u8]) -> bool
    ensures { result ≡ spec.are_digits word.now }
{
    !word.is_empty() && all_digits(word)
}
