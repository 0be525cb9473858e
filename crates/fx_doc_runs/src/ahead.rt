//! What stands ahead of the reader, taken whole: a text, a value, an attribute, a name, the end of a tag, or the inside
//! of a comment or of an instruction. Every other character, and every fault, is left to the reader's steps.
ghost use Rattle.std.specs.Prelude.{◌≡◌, ◌+◌, ◌<◌, ◌^◌, length, IfOk, IfErr};
ghost use Rattle.fx_doc_runs.specs.Reached.{Took, TookFlat};
ghost use Rattle.fx_doc_runs.specs.Views.{view};
ghost use Rattle.fx_doc_runs.specs.declared.document.DocError.TheVariants as fault;
ghost use Rattle.fx_doc_runs.specs.declared.modes.Mode.TheVariants as kind;
ghost use Rattle.fx_base.specs.declared.positions.Position.{Position};

use crate::document::DocError;
use crate::modes::{Mode, Reader};
use crate::rests::Rest;
use crate::runs::run_ahead;
use fx_doc_drafts::{behind_byte, quote_byte};
use std::alloc::Global;

impl Reader {
    /// Takes what stands ahead and isn't left to a step, and gives what is left behind it.
    pub fn take_ahead<'a>(&mut self, alloc: Global, at: Rest<'a>) -> Result<Rest<'a>, DocError>
        requires line { at.position.line + length at.text.now < 2 ^ 31 }
        requires column { at.position.column + length at.text.now < 2 ^ 31 }
        ensures took { IfOk result (λ left. Took at.entry.text.now at.entry.position (view self.old)
            left.text.now left.position (view self.new)) }
        ensures memory { IfErr result (λ e. e ≡ fault.Memory) }
    {
        match &self.mode {
            Mode::Inside => self.take_inside(alloc, at),
            Mode::Commented => Ok(at.along(self.take_comment(at.text))),
            Mode::Instructed(_, _) => Ok(at.along(self.take_instruction(at.text)?)),
            Mode::Quoted(_) => Ok(at.along(self.take_value(alloc, at.text)?)),
            Mode::Tight(_) => self.take_further(alloc, at),
            Mode::Spaced(_) => self.take_attribute(alloc, at.past_white()),
            _ => Ok(at),
        }
    }

    /// Takes the text of an element that stands ahead, or white outside the elements, and what begins behind it.
    fn take_inside<'a>(&mut self, alloc: Global, at: Rest<'a>) -> Result<Rest<'a>, DocError>
        requires inside { self.old.mode ≡ kind.Inside }
        requires line { at.position.line + length at.text.now < 2 ^ 31 }
        requires column { at.position.column + length at.text.now < 2 ^ 31 }
        ensures took { IfOk result (λ left. Took at.entry.text.now at.entry.position (view self.old)
            left.text.now left.position (view self.new)) }
        ensures memory { IfErr result (λ e. e ≡ fault.Memory) }
    {
        let Ok(at) = self.held.take_text(at) else {
            return Err(DocError::Memory);
        };
        let left = self.take_sign(alloc, at.position, at.text)?;
        Ok(at.along(left))
    }

    /// Takes the text of an instruction that stands ahead, up to the next `?` or the end of the line.
    fn take_instruction<'a>(&mut self, rest: &'a str) -> Result<&'a str, DocError>
        ensures took { (p : Position) → IfOk result (λ left. TookFlat rest.now p (view self.old) left.now
            (view self.new)) }
        ensures memory { IfErr result (λ e. e ≡ fault.Memory) }
    {
        let Mode::Instructed(_, text) = &mut self.mode else {
            return Ok(rest);
        };
        let (piece, left) = run_ahead(rest, b'?', b'?', rest.len());
        match text.push_str(piece) {
            Ok(()) => Ok(left),
            Err(_) => Err(DocError::Memory),
        }
    }

    /// Takes what a value goes on with, and its quote.
    fn take_value<'a>(&mut self, alloc: Global, rest: &'a str) -> Result<&'a str, DocError>
        ensures took { (p : Position) → IfOk result (λ left. TookFlat rest.now p (view self.old) left.now
            (view self.new)) }
        ensures memory { IfErr result (λ e. e ≡ fault.Memory) }
    {
        let Mode::Quoted(valued) = &mut self.mode else {
            return Ok(rest);
        };
        let Ok(left) = valued.take(rest) else {
            return Err(DocError::Memory);
        };
        let Some(behind) = behind_byte(left, quote_byte(valued.quote)) else {
            return Ok(left);
        };
        let valued = self.mode.take_valued();
        let Ok(head) = valued.into_head(alloc) else {
            return Err(DocError::Memory);
        };
        self.mode.turn(Mode::Tight(head));
        Ok(behind)
    }

    /// Takes white and the attribute behind it, or the end of the tag, that stand behind a value.
    fn take_further<'a>(&mut self, alloc: Global, at: Rest<'a>) -> Result<Rest<'a>, DocError>
        requires line { at.position.line + length at.text.now < 2 ^ 31 }
        requires column { at.position.column + length at.text.now < 2 ^ 31 }
        ensures took { IfOk result (λ left. Took at.entry.text.now at.entry.position (view self.old)
            left.text.now left.position (view self.new)) }
        ensures memory { IfErr result (λ e. e ≡ fault.Memory) }
    {
        let left = at.past_white();
        if left.text.len() == at.text.len() {
            return Ok(at.along(self.take_tag_end(alloc, at.text)?));
        }
        let Mode::Tight(head) = &mut self.mode else {
            return Ok(at);
        };
        if let Some(behind) = head.take(alloc, left.position, left.text)? {
            return Ok(left.along(behind));
        }
        let head = self.mode.take_tight();
        self.mode.turn(Mode::Spaced(head));
        Ok(left.along(self.take_key(alloc, left.position, left.text)?))
    }

    /// Takes the end of a tag that stands right behind a value.
    fn take_tag_end<'a>(&mut self, alloc: Global, rest: &'a str) -> Result<&'a str, DocError>
        ensures took { (p : Position) → IfOk result (λ left. TookFlat rest.now p (view self.old) left.now
            (view self.new)) }
        ensures memory { IfErr result (λ e. e ≡ fault.Memory) }
    {
        let Mode::Tight(_) = &self.mode else {
            return Ok(rest);
        };
        let Some(one) = behind_byte(rest, b'/') else {
            return self.take_tag_open(alloc, rest);
        };
        let Some(behind) = behind_byte(one, b'>') else {
            return Ok(rest);
        };
        let head = self.mode.take_tight();
        match self.held.add_leaf(alloc, head) {
            Ok(()) => Ok(behind),
            Err(_) => Err(DocError::Memory),
        }
    }

    /// Takes the `>` behind which the content of an element begins.
    fn take_tag_open<'a>(&mut self, alloc: Global, rest: &'a str) -> Result<&'a str, DocError>
        ensures took { (p : Position) → IfOk result (λ left. TookFlat rest.now p (view self.old) left.now
            (view self.new)) }
        ensures memory { IfErr result (λ e. e ≡ fault.Memory) }
    {
        let Mode::Tight(_) = &self.mode else {
            return Ok(rest);
        };
        let Some(behind) = behind_byte(rest, b'>') else {
            return Ok(rest);
        };
        let head = self.mode.take_tight();
        match self.held.open(alloc, head) {
            Ok(()) => Ok(behind),
            Err(_) => Err(DocError::Memory),
        }
    }

    /// Takes the attribute that stands ahead, or its name and its quote.
    fn take_attribute<'a>(&mut self, alloc: Global, at: Rest<'a>) -> Result<Rest<'a>, DocError>
        requires column { at.position.column + length at.text.now < 2 ^ 31 }
        ensures took { IfOk result (λ left. Took at.entry.text.now at.entry.position (view self.old)
            left.text.now left.position (view self.new)) }
        ensures memory { IfErr result (λ e. e ≡ fault.Memory) }
    {
        let Mode::Spaced(head) = &mut self.mode else {
            return Ok(at);
        };
        let Some(behind) = head.take(alloc, at.position, at.text)? else {
            return Ok(at.along(self.take_key(alloc, at.position, at.text)?));
        };
        let head = self.mode.take_spaced();
        self.mode.turn(Mode::Tight(head));
        Ok(at.along(behind))
    }
}
