//! Where bare runs, comments and quoted texts end, in bytes from the first one on.
//! What a text says is put together from these parts; a text that is one bare run stands for itself.
ghost use Rattle.std.specs.Prelude.{◌≡◌, ◌≤◌, ℕ, List, length, drop, false, IsTrue};
ghost use Rattle.std.specs.List.{list_any, position_or_len};
ghost use Rattle.fx_base.specs.declared.positions.Position.{Position};
ghost use Rattle.memchr.specs.Find.{is_byte};
ghost use Rattle.fx_text.specs.Characters.{asterisk};
ghost use Rattle.fx_text.specs.Classes.{is_quote};
ghost use Rattle.fx_css_marks.specs.Bytes.{has_beginning};
ghost use Rattle.fx_css_marks.specs.declared.marks.Mark.{Mark};
ghost use Rattle.fx_css_marks.specs.Marks.{Marked, bytes, signs};
ghost use Rattle.fx_css_marks.specs.Lengths.{is_stop, quoted_length, comment_length, comment_rest, is_bare};

use crate::marks::{begins_comment, ends_comment};
use fx_text::is_quote;
use memchr::{memchr, memchr3};

/// The bytes before the first quote or `/`.
pub fn bare_length(text: &[u8]) -> usize
    ensures length { result ≡ position_or_len is_stop text.now }
    ensures within { result ≤ length text.now }
{
    match memchr3(b'"', b'\'', b'/', text) {
        Some(at) => at,
        None => text.len(),
    }
}

/// The bytes before the first of these.
pub fn length_before(byte: u8, text: &[u8]) -> usize
    ensures length { result ≡ position_or_len (is_byte byte) text.now }
    ensures within { result ≤ length text.now }
{
    match memchr(byte, text) {
        Some(at) => at,
        None => text.len(),
    }
}

/// The bytes of a quoted text behind its quote, its end included.
pub fn quoted_length(quote: u8, text: &[u8]) -> usize
    ensures length { result ≡ quoted_length quote text.now }
    ensures within { result ≤ length text.now }
{
    match memchr(quote, text) {
        Some(at) => at + 1,
        None => text.len(),
    }
}

/// The bytes of a comment behind its `/*`, its end included.
fn comment_length(text: &[u8]) -> usize
    ensures length { result ≡ comment_length text.now }
    ensures within { result ≤ length text.now }
{
    let mut rest = from_star(text);
    while let Some((first, behind)) = rest.split_first() {
        if ends_comment(*first, behind) {
            return text.len() - rest.len() + 2;
        }
        rest = from_star(behind);
    }
    text.len()
}

/// The text from its first `*` on.
fn from_star(text: &[u8]) -> &[u8]
    ensures from { result.now ≡ drop (position_or_len (is_byte asterisk) text.now) text.now }
    ensures within { length result.now ≤ length text.now }
{
    let (_, from) = text.split_at(length_before(b'*', text));
    from
}

/// The bytes of a comment behind its `/`, its end included.
pub fn comment_rest(text: &[u8]) -> usize
    ensures length { result ≡ comment_rest text.now }
    ensures within { result ≤ length text.now }
{
    match text.split_first() {
        Some((_, inside)) => comment_length(inside) + 1,
        None => 0,
    }
}

/// The text from its first quote or `/` on.
fn from_stop(text: &[u8]) -> &[u8]
    ensures from { result.now ≡ drop (position_or_len is_stop text.now) text.now }
    ensures within { length result.now ≤ length text.now }
{
    let (_, from) = text.split_at(bare_length(text));
    from
}

/// Whether the text stands for itself: nothing in it is quoted, and no comment begins.
pub fn is_bare(text: &[u8]) -> bool
    ensures bare { IsTrue result → (p : Position) (ms : List Mark) → Marked p text.now ms
        → (bytes ms ≡ text.now) × (signs ms ≡ text.now) }
    ensures only { list_any is_quote text.now ≡ false → has_beginning text.now ≡ false → IsTrue result }
{
    holds_nothing(text)
}

/// Whether no byte of the text is a quote, and no comment begins.
fn holds_nothing(text: &[u8]) -> bool
    ensures { result ≡ is_bare text.now }
{
    let mut rest = from_stop(text);
    while let Some((first, behind)) = rest.split_first() {
        if is_quote(*first) || begins_comment(*first, behind) {
            return false;
        }
        rest = from_stop(behind);
    }
    true
}
