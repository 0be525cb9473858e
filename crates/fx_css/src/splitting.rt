//! Parts of a sheet are split: their fronts, what is behind, and the numbers of their bytes.
//! Cutting says where.
ghost use Rattle.std.specs.Prelude.{◌≡◌, ◌≤◌, ◌∷◌, [], ◌==◌, length, take, drop, IfSome, IfNone};
ghost use Rattle.fx_css.specs.Numbered.{numbered, shown, bytes_of, is_sign, is_white};
ghost use Rattle.fx_css.specs.Pieces.{first_shown, number_at};

use crate::parts::{Numbered, Part};
use fx_text::is_white;

impl Numbered {
    /// Whether it means this byte.
    #[tactic(auto, unfolding(crate::specs::Numbered::is_sign))]
    pub fn is_sign(self, sign: u8) -> bool
        ensures { result ≡ is_sign sign self }
    {
        self.sign == sign
    }

    /// Whether it means white space.
    #[tactic(auto, unfolding(crate::specs::Numbered::is_white))]
    pub fn is_white(self) -> bool
        ensures { result ≡ is_white self }
    {
        is_white(self.sign)
    }
}

impl<'a> Part<'a> {
    /// A text from its front on.
    pub fn whole(bytes: &'a [u8], signs: &'a [u8]) -> Part<'a>
        requires { length bytes.now ≡ length signs.now }
        ensures { shown result ≡ numbered 0 bytes.now signs.now }
    {
        Part {
            bytes,
            signs,
            number: 0,
        }
    }

    pub fn len(self) -> usize
        ensures { result ≡ length (shown self.entry) }
    {
        self.bytes.len()
    }

    pub fn is_empty(self) -> bool
        ensures { result ≡ (length (shown self.entry) == 0) }
    {
        self.bytes.is_empty()
    }

    pub fn text(self) -> &'a [u8]
        ensures { result.now ≡ bytes_of (shown self.entry) }
    {
        self.bytes
    }

    /// The first bytes, up to an end.
    pub fn front(self, end: usize) -> Part<'a>
        requires { end ≤ length (shown self) }
        ensures { shown result ≡ take end (shown self.entry) }
    {
        Part {
            bytes: &self.bytes[..end],
            signs: &self.signs[..end],
            number: self.number,
        }
    }

    /// The bytes from a place on, none if it is behind them all.
    pub fn behind(self, at: usize) -> Part<'a>
        ensures { shown result ≡ drop at (shown self.entry) }
    {
        if at > self.bytes.len() {
            return Part {
                bytes: &[],
                signs: &[],
                number: 0,
            };
        }
        let (_, bytes) = self.bytes.split_at(at);
        let (_, signs) = self.signs.split_at(at);
        Part {
            bytes,
            signs,
            number: self.number + at,
        }
    }

    /// The first byte, and those behind it.
    pub fn split_first(self) -> Option<(Numbered, Part<'a>)>
        ensures some { IfSome result (λ x. shown self.entry ≡ x.0 ∷ shown x.1) }
        ensures none { IfNone result (shown self.entry ≡ []) }
    {
        let Some((byte, bytes)) = self.bytes.split_first() else {
            return None;
        };
        let Some((sign, signs)) = self.signs.split_first() else {
            return None;
        };
        let first = Numbered {
            byte: *byte,
            sign: *sign,
            number: self.number,
        };
        let rest = Part {
            bytes,
            signs,
            number: self.number + 1,
        };
        Some((first, rest))
    }

    /// The number of the first byte that isn't white.
    pub fn first_shown(self) -> Option<usize>
        ensures { result ≡ first_shown (shown self.entry) }
    {
        let mut rest = self;
        while let Some((first, behind)) = rest.split_first() {
            if !first.is_white() {
                return Some(first.number);
            }
            rest = behind;
        }
        None
    }

    /// The number of the byte at an index.
    pub fn number_at(self, index: Option<usize>) -> Option<usize>
        ensures { result ≡ number_at (shown self.entry) index }
    {
        let index = index?;
        if index >= self.bytes.len() {
            return None;
        }
        Some(self.number + index)
    }
}
