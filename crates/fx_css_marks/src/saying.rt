//! What a text says, put together by runs: bare runs as they are, a space for each comment, and quoted texts that mean
//! nothing. Rules and declarations are cut by the signs and read from the bytes.
ghost use Rattle.std.specs.Prelude.{◌≡◌, ◌≤◌, ◌++◌, ◌∷◌, ℕ, List, [], true, length, replicate, IfOk, OnOk};
ghost use Rattle.fx_base.specs.declared.positions.Position.{Position};
ghost use Rattle.fx_css_marks.specs.declared.marks.Mark.{Mark};
ghost use Rattle.fx_text.specs.Classes.{is_quote};
ghost use Rattle.fx_css_marks.specs.Marks.{Marked, bytes, signs};
ghost use Rattle.fx_css_marks.specs.Saying.{Took};

use crate::finding::{bare_length, comment_rest, quoted_length};
use crate::marks::begins_comment;
use fx_text::is_quote;
use std::alloc::{AllocError, Global};

/// What a text says, if it isn't the text itself: its bytes, where each comment is one space, and beside them what each
/// means to the cutting: itself, or nothing (255) where it is quoted.
#[derive(Drop)]
pub struct Said {
    pub bytes: Vec<u8>,
    pub signs: Vec<u8>,
}

impl Said {
    /// Nothing yet, with room for a text of that length.
    fn with_room(alloc: Global, length: usize) -> Result<Said, AllocError>
        ensures bytes { IfOk result (λ s. s.bytes.items ≡ []) }
        ensures signs { IfOk result (λ s. s.signs.items ≡ []) }
    {
        Ok(Said {
            bytes: Vec::with_capacity(alloc, length)?,
            signs: Vec::with_capacity(alloc, length)?,
        })
    }

    /// Says bytes that mean themselves.
    fn say(&mut self, text: &[u8]) -> Result<(), AllocError>
        ensures bytes { OnOk result (self.new.bytes.items ≡ self.old.bytes.items ++ text.now) }
        ensures signs { OnOk result (self.new.signs.items ≡ self.old.signs.items ++ text.now) }
    {
        self.bytes.extend_from_slice(text)?;
        self.signs.extend_from_slice(text)
    }

    /// Says bytes that mean nothing.
    fn quote(&mut self, text: &[u8]) -> Result<(), AllocError>
        ensures bytes { OnOk result (self.new.bytes.items ≡ self.old.bytes.items ++ text.now) }
        ensures signs { OnOk result (self.new.signs.items ≡ self.old.signs.items ++ replicate (length text.now) 255) }
    {
        self.bytes.extend_from_slice(text)?;
        put_nothing(&mut self.signs, text)
    }

    /// Takes the bare run in front: what is behind it.
    fn take_run<'a>(&mut self, text: &'a [u8]) -> Result<&'a [u8], AllocError>
        ensures took { IfOk result (λ left. Took self.old self.new text.now left.now) }
        ensures within { IfOk result (λ left. length left.now ≤ length text.now) }
    {
        let (run, left) = text.split_at(bare_length(text));
        self.say(run)?;
        Ok(left)
    }

    /// Takes what begins with this byte, which the text is behind: what is behind it.
    fn take_part<'a>(&mut self, first: u8, text: &'a [u8]) -> Result<&'a [u8], AllocError>
        ensures took { IfOk result (λ left. Took self.old self.new (first ∷ text.now) left.now) }
        ensures within { IfOk result (λ left. length left.now ≤ length text.now) }
    {
        if is_quote(first) {
            return self.take_quoted(first, text);
        }
        if begins_comment(first, text) {
            let (_, left) = text.split_at(comment_rest(text));
            self.say(b" ")?;
            return Ok(left);
        }
        self.say(&[first])?;
        Ok(text)
    }

    /// Takes the text that this quote begins, which the text is behind: what is behind it.
    fn take_quoted<'a>(&mut self, quote: u8, text: &'a [u8]) -> Result<&'a [u8], AllocError>
        requires { is_quote quote ≡ true }
        ensures took { IfOk result (λ left. Took self.old self.new (quote ∷ text.now) left.now) }
        ensures within { IfOk result (λ left. length left.now ≤ length text.now) }
    {
        let (quoted, left) = text.split_at(quoted_length(quote, text));
        self.quote(&[quote])?;
        self.quote(quoted)?;
        Ok(left)
    }
}

/// As many signs that mean nothing as the text has bytes.
fn put_nothing(signs: &mut Vec<u8>, text: &[u8]) -> Result<(), AllocError>
    ensures { OnOk result (signs.new.items ≡ signs.old.items ++ replicate (length text.now) 255) }
{
    signs.resize(signs.len() + text.len(), 255)
}

/// What a text says, and what that means to the cutting.
pub fn spoken(alloc: Global, text: &[u8]) -> Result<Said, AllocError>
    ensures said { IfOk result (λ s. (p : Position) (ms : List Mark) → Marked p text.now ms
        → (s.bytes.items ≡ bytes ms) × (s.signs.items ≡ signs ms)) }
    ensures same { IfOk result (λ s. length s.bytes.items ≡ length s.signs.items) }
{
    let mut said = Said::with_room(alloc, text.len())?;
    let mut rest = said.take_run(text)?;
    while let Some((first, behind)) = rest.split_first() {
        let left = said.take_part(*first, behind)?;
        rest = said.take_run(left)?;
    }
    Ok(said)
}
