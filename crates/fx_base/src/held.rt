//! What holds the characters of a text: the value itself where they are few, and memory of its own where they are many.
//! Between `ShortText` and `Text`.
ghost use Rattle.std.specs.Prelude.{◌≡◌, ◌↔◌, [], IfOk, IfSome, IsAscii, IsSome, IsTrue, string_bytes};
ghost use Rattle.fx_base.specs.Held.{held_bytes};

use crate::short_texts::{ROOM, ShortText};
use std::alloc::{AllocError, Global};
use std::str;

/// A text of any length.
#[derive(Drop)]
pub(crate) enum Held {
    /// In place.
    Short(ShortText),
    /// In memory of its own.
    Long(String),
}

impl Held {
    /// The empty text.
    #[inline]
    pub(crate) fn new() -> Held
        ensures { held_bytes result ≡ [] }
    {
        Held::Short(ShortText::new())
    }

    /// The text of these characters. Only a text of more than 30 bytes takes memory.
    #[inline]
    pub(crate) fn from_str(alloc: Global, text: &str) -> Result<Held, AllocError>
        ensures { IfOk result (λ held. held_bytes held ≡ text.now) }
    {
        if text.len() <= ROOM {
            return Ok(Held::Short(ShortText::from_str(text)));
        }
        Ok(Held::Long(String::from_str(alloc, text)?))
    }

    /// The text of these bytes, if they are ASCII. Only a text of more than 30 bytes takes memory.
    #[inline]
    pub(crate) fn from_ascii(alloc: Global, bytes: &[u8]) -> Result<Option<Held>, AllocError>
        ensures found { IfOk result (λ found. IfSome found (λ held. held_bytes held ≡ bytes.now)) }
        ensures ascii { IfOk result (λ found. IsSome found ↔ IsAscii bytes.now) }
    {
        if bytes.len() <= ROOM {
            return match ShortText::from_ascii(bytes) {
                Some(text) => Ok(Some(Held::Short(text))),
                None => Ok(None),
            };
        }
        if !bytes.is_ascii() {
            return Ok(None);
        }
        let text = unsafe { str::from_utf8_unchecked(bytes) };
        Ok(Some(Held::Long(String::from_str(alloc, text)?)))
    }

    /// The text of the string, whose memory is kept where the text is long.
    pub(crate) fn from_string(text: String) -> Held
        ensures { held_bytes result ≡ string_bytes text }
    {
        if text.len() <= ROOM {
            return Held::Short(ShortText::from_str(text.as_str()));
        }
        Held::Long(text)
    }

    /// Lends the text.
    #[inline]
    pub(crate) fn as_str(&self) -> &str
        ensures { result.now ≡ held_bytes self.now }
    {
        match self {
            Held::Short(text) => text.as_str(),
            Held::Long(text) => text.as_str(),
        }
    }

    /// Is it this text?
    #[inline]
    pub(crate) fn equals(&self, other: &Held) -> bool
        ensures { IsTrue result ↔ (held_bytes self.now ≡ held_bytes other.now) }
    {
        match (self, other) {
            (Held::Short(text), Held::Short(other)) => text.equals(other),
            _ => self.as_str() == other.as_str(),
        }
    }

    /// A text of the same characters.
    #[inline]
    pub(crate) fn copy(&self, alloc: Global) -> Result<Held, AllocError>
        ensures { IfOk result (λ copy. held_bytes copy ≡ held_bytes self.now) }
    {
        match self {
            Held::Short(text) => Ok(Held::Short(text.copy())),
            Held::Long(text) => Held::from_str(alloc, text.as_str()),
        }
    }
}
