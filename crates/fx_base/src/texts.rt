//! Texts: of at most 4,096 characters, as names and text properties are, and of any length.
ghost use Rattle.std.specs.Prelude.{◌≡◌, ◌<◌, ◌≤◌, ◌↔◌, [], IfOk, IfSome, IsNone, IsSome, IsErrOf, IsTrue, IsAscii, length};
ghost use Rattle.std.specs.Str.{chars};
ghost use Rattle.std.specs.String.{string_bytes};

use crate::held::Held;
use crate::lists::Duplicate;
use std::alloc::{AllocError, Global};
use std::hash::{Hash, Hasher};
use std::marker::Model;
use thiserror::Error;

/// The greatest number of characters of a `Text`.
pub const TEXT_LIMIT: usize = 4096;

/// A text of at most 4,096 characters. Contracts see its bytes. One of at most 30 bytes stands in the value
/// itself.
#[derive(Drop)]
pub struct Text {
    held: Held,
}

impl Model for Text {
    ghost use Rattle.std.specs.Prelude.{ℕ, List, length, ◌≤◌};
    ghost use Rattle.std.specs.Str.{chars};
    ghost use Rattle.fx_base.specs.Held.{held_bytes};

    ghost Value = { List ℕ };

    ghost view = { λ t. held_bytes t.held };

    ghost invariant = { λ t. length (chars (held_bytes t.held)) ≤ 4096 };
}

/// Why a text can't be made.
#[derive(Debug, Drop, Error, PartialEq)]
pub enum TextError {
    /// It has more than 4,096 characters.
    #[error("a text has more than 4096 characters")]
    TooLong,
    #[error("out of memory")]
    Memory,
}

impl From<AllocError> for TextError {
    ghost use Rattle.std.specs.Prelude.{◌≡◌};
    ghost use Rattle.fx_base.specs.declared.texts.TextError.TheVariants.{Memory};

    ghost from_gives = { λ _ e. e ≡ Memory };

    fn from(_e: AllocError) -> TextError {
        TextError::Memory
    }
}

impl Text {
    /// The empty text.
    #[inline]
    pub fn new(alloc: Global) -> Text
        ensures { result ≡ [] }
    {
        Text { held: Held::new() }
    }

    /// The text of these characters, unless there are more than 4,096.
    pub fn from_str(alloc: Global, s: &str) -> Result<Text, TextError>
        ensures ok { IfOk result (λ t. t ≡ s.now) }
        ensures too_long { IsErrOf result TextError.TooLong ↔ (4096 < length (chars s.now)) }
    {
        if is_too_long(s) {
            return Err(TextError::TooLong);
        }
        let held = Held::from_str(alloc, s)?;
        Ok(Text { held })
    }

    /// The text of the string, unless it has more than 4,096 characters. The memory of a long one is kept.
    pub fn from_string(text: String) -> Option<Text>
        ensures found { IfSome result (λ t. t ≡ string_bytes text) }
        ensures none { IsNone result ↔ (4096 < length (chars (string_bytes text))) }
    {
        if is_too_long(text.as_str()) {
            return None;
        }
        Some(Text {
            held: Held::from_string(text),
        })
    }

    /// The text of these bytes, if they are ASCII and at most 4,096.
    pub fn from_ascii(alloc: Global, bytes: &[u8]) -> Result<Option<Text>, AllocError>
        ensures found { IfOk result (λ found. IfSome found (λ t. t ≡ bytes.now)) }
        ensures ascii { IfOk result (λ found. IsSome found ↔ (IsAscii bytes.now × (length bytes.now ≤ 4096))) }
    {
        if bytes.len() > TEXT_LIMIT {
            return Ok(None);
        }
        match Held::from_ascii(alloc, bytes)? {
            Some(held) => Ok(Some(Text { held })),
            None => Ok(None),
        }
    }

    /// Lends the text.
    #[inline]
    pub fn as_str(&self) -> &str
        ensures text { result.now ≡ self.now }
        ensures short { length (chars result.now) ≤ 4096 }
    {
        self.held.as_str()
    }

    /// Is it this text?
    #[inline]
    pub fn equals(&self, text: &str) -> bool
        ensures { IsTrue result ↔ (self.now ≡ text.now) }
    {
        self.as_str() == text
    }

    /// Is it this text? `==` answers the same.
    #[inline]
    pub(crate) fn is_text(&self, text: &Text) -> bool
        ensures { IsTrue result ↔ (self.now ≡ text.now) }
    {
        self.held.equals(&text.held)
    }

    /// A text of the same characters.
    #[inline]
    pub fn copy(&self, alloc: Global) -> Result<Text, AllocError>
        ensures { IfOk result (λ copy. copy ≡ self.now) }
    {
        let held = self.held.copy(alloc)?;
        Ok(Text { held })
    }
}

impl Duplicate for Text {
    fn duplicate(&self, alloc: Global) -> Result<Self, AllocError> {
        self.copy(alloc)
    }
}

impl PartialEq for Text {
    ghost use Rattle.std.specs.Prelude.{nat_eq};
    ghost use Rattle.std.specs.Cmp.Lexicographic.{pointwise, nat_list_eq_equiv};
    ghost use Rattle.std.specs.Cmp.{partial_equiv_from_equiv};

    ghost eq = { pointwise nat_eq };

    ghost laws = { partial_equiv_from_equiv nat_list_eq_equiv };

    #[inline]
    fn eq(&self, other: &Self) -> bool {
        self.is_text(other)
    }
}

impl Eq for Text {
    ghost use Rattle.std.specs.Cmp.Lexicographic.{nat_list_eq_equiv};

    ghost laws = { nat_list_eq_equiv };
}

impl Hash for Text {
    ghost use Rattle.std.specs.Hash as fed;
    ghost use Rattle.std.specs.Cmp.Rules.{hashing};
    ghost use Rattle.std.proofs.Common.{rules};

    ghost hash_input = { fed.str };

    ghost respects_eq = { Prim.search (hashing, rules) };

    fn hash<H: Hasher>(&self, state: &mut H) {
        self.as_str().hash(state);
    }
}

/// A text of at most 4,096 bytes has no more characters, so only the characters of longer ones are counted.
#[inline]
fn is_too_long(text: &str) -> bool
    ensures { IsTrue result ↔ (4096 < length (chars text.now)) }
{
    text.len() > TEXT_LIMIT && char_count(text) > TEXT_LIMIT
}

fn char_count(text: &str) -> usize
    ensures { result ≡ length (chars text.now) }
{
    text.chars().count()
}

/// A text of any length. Contracts see its bytes.
#[derive(Drop)]
pub struct Str {
    text: String,
}

impl Model for Str {
    ghost use Rattle.std.specs.Prelude.{ℕ, List};
    ghost use Rattle.std.specs.String.{string_bytes};

    ghost Value = { List ℕ };

    ghost view = { λ t. string_bytes t.text };
}

impl Str {
    /// The text in place of the string.
    pub fn from_string(text: String) -> Str
        ensures { result ≡ string_bytes text }
    {
        Str { text }
    }

    /// Lends the text.
    pub fn as_str(&self) -> &str
        ensures { result.now ≡ self.now }
    {
        self.text.as_str()
    }

    /// A text of the same characters.
    pub fn copy(&self, alloc: Global) -> Result<Str, AllocError>
        ensures { IfOk result (λ copy. copy ≡ self.now) }
    {
        let text = String::from_str(alloc, self.text.as_str())?;
        Ok(Str { text })
    }
}

impl Duplicate for Str {
    fn duplicate(&self, alloc: Global) -> Result<Self, AllocError> {
        self.copy(alloc)
    }
}
