//! A byte of a style sheet with its position, and what comments begin and end with.
//! Walks along a text give marks out; everything else here speaks of them in its contracts.
ghost use Rattle.std.specs.Prelude.{◌≡◌, ◌==◌, ◌&&◌};
ghost use Rattle.fx_text.specs.Characters.{asterisk, slash};
ghost use Rattle.fx_css_marks.specs.Bytes.{begins_with, begins_comment};

use fx_base::Position;

/// A byte with its position, and whether it stands outside quoted texts.
#[derive(Clone, Copy)]
pub struct Mark {
    pub byte: u8,
    pub position: Position,
    pub plain: bool,
}

/// Whether the text begins with the byte.
fn begins_with(byte: u8, text: &[u8]) -> bool
    ensures { result ≡ begins_with byte text.now }
{
    match text.split_first() {
        Some((first, _)) => *first == byte,
        None => false,
    }
}

/// Whether the byte, which the text is behind, begins a comment.
pub fn begins_comment(byte: u8, text: &[u8]) -> bool
    ensures { result ≡ begins_comment byte text.now }
{
    byte == b'/' && begins_with(b'*', text)
}

/// Whether the byte of a comment, which the text is behind, begins its end.
pub fn ends_comment(byte: u8, text: &[u8]) -> bool
    ensures { result ≡ ((byte == asterisk) && begins_with slash text.now) }
{
    byte == b'*' && begins_with(b'/', text)
}
