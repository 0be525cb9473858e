//! Bytes to text: UTF-8, without one byte order mark at its start.
//! What is not UTF-8 is refused before anything is read.
ghost use Rattle.std.specs.Prelude.{◌≡◌, ◌≤◌, length, IfOk, IfErr};
ghost use Rattle.std.specs.Str.{chars, IsUtf8, IsValidUpTo};
ghost use Rattle.fx_base.specs.Positions.{after_all, start};
ghost use Rattle.fx_doc_grammar.specs.Judgements.{unmarked, document_text};

use fx_base::Position;
use std::str;

/// The byte order mark.
const MARK: char = '\u{feff}';

fn without_mark(text: &str) -> &str
    ensures text { chars result.now ≡ unmarked (chars text.now) }
    ensures shorter { length result.now ≤ length text.now }
{
    let mut rest = text.chars();
    match rest.next() {
        None => text,
        Some(c) => { if c == MARK { rest.as_str() } else { text } }
    }
}

/// The text of these bytes, or how many of them are UTF-8.
pub fn text_in(bytes: &[u8]) -> Result<&str, usize>
    ensures text { IfOk result (λ t. chars t.now ≡ document_text bytes.now) }
    ensures utf8 { IfOk result (λ _. IsUtf8 bytes.now) }
    ensures shorter { IfOk result (λ t. length t.now ≤ length bytes.now) }
    ensures bad { IfErr result (λ n. (IsUtf8 bytes.now → ⊥) × IsValidUpTo bytes.now n) }
{
    match str::from_utf8(bytes) {
        Ok(text) => Ok(without_mark(text)),
        Err(error) => Err(error.valid_up_to()),
    }
}

/// The position behind the text of these bytes.
pub fn place_behind(bytes: &[u8]) -> Position
    requires text { IsUtf8 bytes.now }
    requires size { length bytes.now ≤ 4194304 }
    ensures { result ≡ after_all start (document_text bytes.now) }
{
    match text_in(bytes) {
        Ok(text) => position_behind(text),
        Err(_) => Position::START,
    }
}

/// The position behind the text.
pub fn position_behind(text: &str) -> Position
    requires { length text.now ≤ 4194304 }
    ensures { result ≡ after_all start (chars text.now) }
{
    let mut position = Position::START;
    for c in text.chars() {
        position = position.after(c);
    }
    position
}
