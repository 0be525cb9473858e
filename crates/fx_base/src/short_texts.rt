//! Texts of at most 30 bytes that stand in the value itself, without memory of their own.
//! Below `Held`, which holds every text of a `Text`.
ghost use Rattle.std.specs.Prelude.{◌≡◌, ◌≤◌, ◌-◌, ◌↔◌, [], IfSome, IsAscii, IsSome, IsTrue, drop, length, replicate, slice_index, take};
ghost use Rattle.fx_base.specs.Words.{word_of};

use std::marker::Model;
use std::str;

/// The greatest number of bytes of a text that stands in place.
pub(crate) const ROOM: usize = 30;

/// A text of at most 30 bytes, with zeros behind it, so that two are one where all of both is. Contracts see its bytes.
#[derive(Drop)]
pub(crate) struct ShortText {
    len: u8,
    bytes: [u8; ROOM],
}

impl Model for ShortText {
    ghost use Rattle.std.specs.Prelude.{ℕ, List, ◌≡◌, ◌≤◌, ◌-◌, drop, replicate, take, IsUtf8};

    ghost Value = { List ℕ };

    ghost view = { λ text. take text.len text.bytes };

    ghost invariant = { λ text. (text.len ≤ 30) × ∥ IsUtf8 (take text.len text.bytes) ∥₁
        × (drop text.len text.bytes ≡ replicate (30 - text.len) 0) };
}

impl ShortText {
    /// The empty text.
    #[inline]
    pub(crate) fn new() -> ShortText
        ensures { result ≡ [] }
    {
        ShortText {
            len: 0,
            bytes: [0; ROOM],
        }
    }

    /// The text of these characters, which take at most 30 bytes.
    #[inline]
    pub(crate) fn from_str(text: &str) -> ShortText
        requires { length text.now ≤ 30 }
        ensures { result ≡ text.now }
    {
        ShortText {
            len: text.len() as u8,
            bytes: in_room(text.as_bytes()),
        }
    }

    /// The text of these bytes, of which there are at most 30, if they are ASCII.
    #[inline]
    pub(crate) fn from_ascii(text: &[u8]) -> Option<ShortText>
        requires { length text.now ≤ 30 }
        ensures found { IfSome result (λ found. found ≡ text.now) }
        ensures ascii { IsSome result ↔ IsAscii text.now }
    {
        let bytes = in_room(text);
        if !bytes.is_ascii() {
            return None;
        }
        Some(ShortText {
            len: text.len() as u8,
            bytes,
        })
    }

    /// Lends the text.
    #[inline]
    pub(crate) fn as_str(&self) -> &str
        ensures { result.now ≡ self.now }
    {
        unsafe { str::from_utf8_unchecked(&self.bytes[..usize::from(self.len)]) }
    }

    /// Is it this text? All the room of both is compared, which is of a length that is known.
    #[inline]
    pub(crate) fn equals(&self, other: &ShortText) -> bool
        ensures { IsTrue result ↔ (self.now ≡ other.now) }
    {
        if self.len != other.len {
            return false;
        }
        same_room(&self.bytes, &other.bytes)
    }

    /// A text of the same characters.
    #[inline]
    pub(crate) fn copy(&self) -> ShortText
        ensures { result ≡ self.now }
    {
        ShortText {
            len: self.len,
            bytes: self.bytes,
        }
    }
}

/// Are the two rooms the same? They are compared as four words, the last of which lies in part over the one before it.
#[inline]
fn same_room(bytes: &[u8; ROOM], others: &[u8; ROOM]) -> bool
    ensures { IsTrue result ↔ (bytes.now ≡ others.now) }
{
    if word(bytes, 0) != word(others, 0) {
        return false;
    }
    if word(bytes, 8) != word(others, 8) {
        return false;
    }
    if word(bytes, 16) != word(others, 16) {
        return false;
    }
    word(bytes, 22) == word(others, 22)
}

/// Eight bytes of a room as one number, which no other eight bytes give.
#[inline]
fn word(bytes: &[u8; ROOM], at: usize) -> u64
    requires { at ≤ 22 }
    ensures { result ≡ word_of 8 (slice_index bytes.now) at }
{
    u64::from_le_bytes([
        bytes[at],
        bytes[at + 1],
        bytes[at + 2],
        bytes[at + 3],
        bytes[at + 4],
        bytes[at + 5],
        bytes[at + 6],
        bytes[at + 7],
    ])
}

/// These bytes and zeros behind them, so that one test of the whole room, of a length that is known, tells whether they
/// are ASCII.
#[inline]
fn in_room(text: &[u8]) -> [u8; ROOM]
    requires { length text.now ≤ 30 }
    ensures text { take (length text.now) result ≡ text.now }
    ensures behind { drop (length text.now) result ≡ replicate (30 - length text.now) 0 }
    ensures ascii { IsAscii result ↔ IsAscii text.now }
{
    let mut bytes = [0; ROOM];
    bytes[..text.len()].copy_from_slice(text);
    bytes
}
