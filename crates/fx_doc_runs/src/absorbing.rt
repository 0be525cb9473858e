//! Characters that only make a text longer, of a run, a name or a value: the reader takes them in place.
//! Most characters of a document are such; every other is left to the modes.
ghost use Rattle.std.specs.Prelude.{◌≡◌, ◌≢◌, ◌∷◌, ◌+◌, ◌<◌, ◌^◌, [], drop, true, false, IfSome, IfNone};
ghost use Rattle.std.specs.Char.{encode_utf8};
ghost use Rattle.fx_doc_grammar.specs.declared.Class.TheVariants.{Less, Ampersand};
ghost use Rattle.fx_doc_grammar.specs.Characters.{class_of};
ghost use Rattle.fx_doc_grammar.specs.Grammar.{value_byte};
ghost use Rattle.fx_doc_grammar.specs.Machine.{step};
ghost use Rattle.fx_doc_runs.specs.Views.{view, stack_view, open_name, Takes};
ghost use Rattle.fx_doc_runs.specs.Taking.{TakesName, TakesValue, TakesSign};
ghost use Rattle.fx_doc_runs.specs.Light.{TakesEnd, TakesTurn};

use crate::modes::{Held, Mode, Reader, Valued};
use fx_base::Position;
use fx_doc_drafts::{Halt, Word};
use fx_doc_grammar::{Class, Entity, Turn};

/// Appends a character of a name; false at any other.
fn absorb_name(name: &mut Word, c: char) -> Result<bool, Halt>
    ensures { TakesName c name.old name.new result }
{
    if !Class::of(c).is_named() {
        return Ok(false);
    }
    name.push(c)?;
    Ok(true)
}

/// Tab, CR and LF in a value become a space.
pub fn shown(c: char, class: Class) -> char
    ensures { encode_utf8 result ≡ value_byte class c }
{
    match class {
        Class::White => ' ',
        _ => c,
    }
}

impl Valued {
    /// Appends a character of the value; false at its quote, at `<` and at `&`.
    fn absorb(&mut self, c: char) -> Result<bool, Halt>
        ensures { TakesValue c (class_of c) self.old self.new result }
    {
        let class = Class::of(c);
        match class {
            Class::Less => Ok(false),
            Class::Ampersand => Ok(false),
            _ => self.absorb_plain(c, class),
        }
    }

    fn absorb_plain(&mut self, c: char, class: Class) -> Result<bool, Halt>
        requires less { class ≢ Less }
        requires ampersand { class ≢ Ampersand }
        ensures { TakesValue c class self.old self.new result }
    {
        if class.is_quote(self.quote) {
            return Ok(false);
        }
        self.value.push(shown(c, class))?;
        Ok(true)
    }
}

impl Held {
    /// Appends a character to the run of an open element; false at `<` and `&`, and outside the elements.
    fn absorb(&mut self, position: Position, c: char) -> Result<bool, Halt>
        ensures { TakesSign position c (class_of c) self.old self.new result }
    {
        if !self.is_within() {
            return Ok(false);
        }
        match Class::of(c) {
            Class::Less => Ok(false),
            Class::Ampersand => Ok(false),
            _ => {
                self.level.add_sign(position, c)?;
                Ok(true)
            }
        }
    }
}

impl Held {
    /// The byte at that index of the innermost open name.
    pub fn name_byte(&self, at: usize) -> Option<u8>
        ensures found { IfSome result (λ b. drop at (open_name (stack_view self.now.stack.items))
            ≡ b ∷ drop (at + 1) (open_name (stack_view self.now.stack.items))) }
        ensures none { IfNone result (drop at (open_name (stack_view self.now.stack.items)) ≡ []) }
        ensures small { IfSome result (λ _. at + 1 < 2 ^ 64) }
    {
        let open = self.stack.last()?;
        let name = open.head.name.as_str().as_bytes();
        if at < name.len() {
            Some(name[at])
        } else {
            None
        }
    }
}

/// Goes on with the name of an end tag; false at any other character.
fn absorb_end(held: &Held, at: &mut usize, c: char) -> bool
    ensures { TakesEnd c (open_name (stack_view held.now.stack.items)) at.old at.new result }
{
    let Some(byte) = held.name_byte(*at) else {
        return false;
    };
    if u32::from(byte) != u32::from(c) {
        return false;
    }
    *at += 1;
    true
}

/// Goes on with a reference; false at its end, and where none goes on so.
fn absorb_reference(entity: &mut Entity, c: char) -> bool
    ensures { TakesTurn c entity.old entity.new result }
{
    match entity.step(c) {
        Some(Turn::Further(next)) => {
            *entity = next;
            true
        }
        _ => false,
    }
}

impl Reader {
    /// Takes a character that only makes the text at hand longer; false where it does more.
    pub fn absorb(&mut self, position: Position, c: char) -> Result<bool, Halt>
        ensures { Takes (step position (view self.old) c) self.old self.new result }
    {
        match &mut self.mode {
            Mode::Inside => self.held.absorb(position, c),
            Mode::Naming(_, name) => absorb_name(name, c),
            Mode::Keyed(_, _, key) => absorb_name(key, c),
            Mode::Quoted(valued) => valued.absorb(c),
            Mode::Ending(at) => Ok(absorb_end(&self.held, at, c)),
            Mode::Referring(_, entity) => Ok(absorb_reference(entity, c)),
            Mode::ValueReferring(_, _, entity) => Ok(absorb_reference(entity, c)),
            _ => Ok(false),
        }
    }
}
