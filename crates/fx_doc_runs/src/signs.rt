//! What begins with a sign in the text of an element, taken whole: references, tags, and both ends of a comment.
//! Every fault is left to the reader's steps.
ghost use Rattle.std.specs.Prelude.{◌≡◌, ◌∷◌, ◌+◌, ◌<◌, ◌^◌, length, IfSome, IfOk, IfErr};
ghost use Rattle.fx_text.specs.Characters.{less_than_sign, slash};
ghost use Rattle.fx_doc_grammar.specs.declared.Entity.TheVariants.{Begun};
ghost use Rattle.fx_doc_drafts.specs.Ahead.{is_flat};
ghost use Rattle.fx_doc_runs.specs.Reached.{TookFlat};
ghost use Rattle.fx_doc_runs.specs.References.{Refers};
ghost use Rattle.fx_doc_runs.specs.Views.{view};
ghost use Rattle.fx_doc_runs.specs.declared.document.DocError.TheVariants as fault;
ghost use Rattle.fx_doc_runs.specs.declared.modes.Mode.TheVariants as kind;
ghost use Rattle.fx_base.specs.declared.positions.Position.{Position};

use crate::document::DocError;
use crate::keys::name_ahead;
use crate::modes::{Head, Mode, Reader};
use crate::runs::{gap_ahead, run_ahead};
use fx_base::{Position, Text};
use fx_doc_drafts::behind_byte;
use fx_doc_grammar::{Entity, Turn};
use std::alloc::Global;

/// The greatest number of characters of a text.
const TEXT_LIMIT: usize = 4096;

/// The greatest number of characters of a reference that is taken whole, behind its `&`.
pub const REFERENCE: usize = 12;

fn is_flat(byte: u8) -> bool
    ensures { result ≡ is_flat byte }
{
    byte < 128 && byte != b'\n'
}

/// The character for which a reference stands that has been read so far, and the text behind it, if at most so many
/// characters are left of it.
pub fn reference_ahead(entity: Entity, text: &str, most: usize) -> Option<(char, &str)>
    ensures { IfSome result (λ x. Refers entity text.now x.0 x.1.now) }
{
    if most == 0 {
        return None;
    }
    let byte = *text.as_bytes().first()?;
    if !is_flat(byte) {
        return None;
    }
    let rest = behind_byte(text, byte)?;
    match entity.step(char::from(byte)) {
        Some(Turn::Whole(found)) => Some((found, rest)),
        Some(Turn::Further(next)) => reference_ahead(next, rest, most - 1),
        None => None,
    }
}

/// The text behind these three bytes, if it begins with them.
fn behind_three(text: &str, first: u8, second: u8, third: u8) -> Option<&str>
    requires first { first < 128 }
    requires second { second < 128 }
    requires third { third < 128 }
    ensures { IfSome result (λ left. text.now ≡ first ∷ (second ∷ (third ∷ left.now))) }
{
    let rest = behind_byte(text, first)?;
    let rest = behind_byte(rest, second)?;
    behind_byte(rest, third)
}

impl Reader {
    /// Takes the tag, the reference or the beginning of a comment that stands ahead in a text.
    pub fn take_sign<'a>(
        &mut self,
        alloc: Global,
        position: Position,
        rest: &'a str,
    ) -> Result<&'a str, DocError>
        requires { self.old.mode ≡ kind.Inside }
        ensures took { IfOk result (λ left. TookFlat rest.now position (view self.old) left.now (view self.new)) }
        ensures memory { IfErr result (λ e. e ≡ fault.Memory) }
    {
        let Some(behind) = behind_byte(rest, b'<') else {
            return self.take_reference(position, rest);
        };
        if let Some(left) = behind_three(behind, b'!', b'-', b'-') {
            self.mode.turn(Mode::Commented);
            return Ok(left);
        }
        match behind_byte(behind, b'/') {
            Some(name) => self.take_end(alloc, rest, name),
            None => self.take_name(alloc, position, rest, behind),
        }
    }

    /// Takes the reference that stands ahead in the text of an element.
    fn take_reference<'a>(&mut self, position: Position, rest: &'a str) -> Result<&'a str, DocError>
        requires { self.old.mode ≡ kind.Inside }
        ensures took { IfOk result (λ left. TookFlat rest.now position (view self.old) left.now (view self.new)) }
        ensures memory { IfErr result (λ e. e ≡ fault.Memory) }
    {
        let Some(behind) = behind_byte(rest, b'&') else {
            return Ok(rest);
        };
        if !self.held.is_within() {
            return Ok(rest);
        }
        if self.held.level.run.count == TEXT_LIMIT {
            return Ok(rest);
        }
        let Some((found, left)) = reference_ahead(Entity::Begun, behind, REFERENCE) else {
            return Ok(rest);
        };
        match self.held.add_sign(position, found) {
            Ok(()) => Ok(left),
            Err(_) => Err(DocError::Memory),
        }
    }

    /// Takes the end tag of the innermost element, whose name stands behind `</`.
    fn take_end<'a>(
        &mut self,
        alloc: Global,
        rest: &'a str,
        behind: &'a str,
    ) -> Result<&'a str, DocError>
        requires inside { self.old.mode ≡ kind.Inside }
        requires begun { rest.now ≡ less_than_sign ∷ (slash ∷ behind.now) }
        ensures took { (p : Position) → IfOk result (λ left. TookFlat rest.now p (view self.old) left.now
            (view self.new)) }
        ensures memory { IfErr result (λ e. e ≡ fault.Memory) }
    {
        let Some((name, more)) = name_ahead(behind) else {
            return Ok(rest);
        };
        let Some(left) = behind_byte(more, b'>') else {
            return Ok(rest);
        };
        if !self.held.is_open_name(name) {
            return Ok(rest);
        }
        match self.held.close(alloc) {
            Ok(Some(mode)) => {
                self.mode.turn(mode);
                Ok(left)
            }
            _ => Err(DocError::Memory),
        }
    }

    /// Takes the name of an element that begins, and white behind it.
    fn take_name<'a>(
        &mut self,
        alloc: Global,
        position: Position,
        rest: &'a str,
        behind: &'a str,
    ) -> Result<&'a str, DocError>
        requires inside { self.old.mode ≡ kind.Inside }
        requires begun { rest.now ≡ less_than_sign ∷ behind.now }
        ensures took { IfOk result (λ left. TookFlat rest.now position (view self.old) left.now (view self.new)) }
        ensures memory { IfErr result (λ e. e ≡ fault.Memory) }
    {
        if !self.held.has_depth() {
            return Ok(rest);
        }
        if !self.held.may_begin() {
            return Ok(rest);
        }
        let Some((name, more)) = name_ahead(behind) else {
            return Ok(rest);
        };
        let (gap, left) = gap_ahead(more);
        if gap.is_empty() {
            return Ok(rest);
        }
        let Ok(name) = Text::from_str(alloc, name) else {
            return Err(DocError::Memory);
        };
        self.mode
            .turn(Mode::Spaced(Head::named(alloc, position, name)));
        Ok(left)
    }

    /// Takes the inside of a comment, up to a dash or the end of the line, and the end of the comment behind it.
    pub fn take_comment<'a>(&mut self, rest: &'a str) -> &'a str
        requires { self.old.mode ≡ kind.Commented }
        ensures { (p : Position) → TookFlat rest.now p (view self.old) result.now (view self.new) }
    {
        let (_, left) = run_ahead(rest, b'-', b'-', rest.len());
        match behind_three(left, b'-', b'-', b'>') {
            Some(behind) => {
                self.mode.turn(Mode::Inside);
                behind
            }
            None => left,
        }
    }
}
