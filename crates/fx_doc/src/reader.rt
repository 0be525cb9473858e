//! The reader over a whole text: a step for each character, the limit on depth, and the document at the end.
//! It is the machine of `fx_doc_grammar`, so it reads what the grammar there spells.
ghost use Rattle.std.specs.Prelude.{◌≡◌, ◌≤◌, ◌+◌, false, length, Option, Some, None, MatchOption, IfSome, IfNone, IfOk, IfErr, OnOk};
ghost use Rattle.std.specs.Str.{chars, IsUtf8};
ghost use Rattle.fx_doc_grammar.specs.Grammar.{Spells};
ghost use Rattle.fx_doc_grammar.specs.Verdicts.{Verdict, IsVerdict};
ghost use Rattle.fx_doc_grammar.specs.Beginnings.{IsWithinLimits};
ghost use Rattle.fx_doc_grammar.specs.Characters.{class_of};
ghost use Rattle.fx_doc_grammar.specs.Machine.{initial, step, move, sign_position, answer, is_deep};
ghost use Rattle.fx_base.specs.declared.positions.Position.{Position};
ghost use Rattle.fx_doc_grammar.specs.Judgements.{document_text, judgement};
ghost use Rattle.fx_doc.specs.Judgements.{Tells};
ghost use Rattle.fx_doc.specs.Reads.{IsNext, IsStep, IsRead, HasFault, IsGiven, IsRefused};
ghost use Rattle.fx_doc_runs.specs.Views as spec;

use crate::bytes::text_in;
use crate::instructions::{asked, end_asked, instructed, instructing, name_asked};
use crate::markup::{inside, opening, referring};
use crate::reading::read_text;
use crate::tags::{ended, key_spaced, keyed, naming, signed, slashed, spaced, tight};
use crate::values::{ending, quoted, value_referring};
use fx_base::{List, Position};
use fx_doc_drafts::Halt;
use fx_doc_runs::{
    Content, DocError, Document, Element, Held, Level, Mode, Reader, from_bang_dashed, from_banged,
    from_commented, from_dash_dashed, from_dashed, goes_lightly,
};
use std::alloc::Global;
use std::mem;

/// The greatest number of elements that may be open where one begins.
const DEPTH_LIMIT: usize = 128;

/// Reads this character, which stands at that position; false where no document goes on so.
fn step(alloc: Global, reader: &mut Reader, position: Position, c: char) -> Result<bool, Halt>
    ensures { spec.Steps (step position (spec.view reader.old) c) reader.new result }
{
    if reader.absorb(position, c)? {
        return Ok(true);
    }
    let mode = mem::replace(&mut reader.mode, Mode::Ended);
    match moved(alloc, &mut reader.held, mode, position, c)? {
        Some(mode) => {
            reader.mode = mode;
            Ok(true)
        }
        None => Ok(false),
    }
}

/// Where the sign begins whose last character stands at that position: a reference at its `&`.
fn sign_position(reader: &Reader, position: Position) -> Position
    ensures { result ≡ sign_position position (spec.view reader.now).mode }
{
    match &reader.mode {
        Mode::Referring(at, _) => *at,
        Mode::ValueReferring(_, at, _) => *at,
        _ => position,
    }
}

/// The position of the element that begins within 128 others.
fn deep_position(reader: &Reader) -> Option<Position>
    ensures { MatchOption result (is_deep (spec.view reader.now) ≡ false)
        (λ p. spec.IsDeepAt (spec.view reader.now) p) }
{
    match &reader.mode {
        Mode::Naming(at, _) => {
            if reader.held.stack.len() >= DEPTH_LIMIT {
                Some(*at)
            } else {
                None
            }
        }
        _ => None,
    }
}

/// One character further, within the limits on depth and length.
pub fn read_character(
    alloc: Global,
    reader: &mut Reader,
    position: Position,
    c: char,
) -> Result<(), DocError>
    ensures { IsNext (spec.view reader.old) position c reader.new result }
{
    let sign = sign_position(reader, position);
    match step(alloc, reader, position, c) {
        Ok(true) => within_depth(reader),
        Ok(false) => Err(DocError::Markup(position)),
        Err(Halt::Long) => Err(DocError::Long(sign)),
        Err(Halt::Memory) => Err(DocError::Memory),
    }
}

/// Refuses an element that begins too deep.
fn within_depth(reader: &Reader) -> Result<(), DocError>
    ensures { (p sign : Position) → IsStep (Some (spec.view reader.now)) p sign reader.now result }
{
    match deep_position(reader) {
        None => Ok(()),
        Some(deep) => Err(DocError::Depth(deep)),
    }
}

/// The document, if the text may end here.
pub fn into_document(reader: Reader) -> Option<Document>
    requires { spec.AnswersRoot (spec.view reader) }
    ensures { MatchOption result (answer (spec.view reader) ≡ None) (λ d. answer (spec.view reader)
        ≡ Some (spec.reading d)) }
{
    let Reader { held, mode } = reader;
    let Mode::Inside = mode else {
        return None;
    };
    document_in(held)
}

/// The document that is held, if the text may end here.
fn document_in(held: Held) -> Option<Document>
    requires { spec.AnswersRoot (spec.inside_view held) }
    ensures { MatchOption result (answer (spec.inside_view held) ≡ None) (λ d. answer (spec.inside_view held)
        ≡ Some (spec.reading d)) }
{
    if held.is_within() {
        return None;
    }
    let Held {
        imports,
        stack: _,
        level,
    } = held;
    let Level {
        mut content,
        run: _,
        first: _,
    } = level;
    let piece = content.pop()?;
    match child_in(piece) {
        Some(root) => Some(Document {
            imports: List::from_vec(imports),
            root,
        }),
        None => None,
    }
}

/// What mode a reader is in behind this character, which stands at that position; None where no document goes on so.
fn moved(
    alloc: Global,
    held: &mut Held,
    mode: Mode,
    position: Position,
    c: char,
) -> Result<Option<Mode>, Halt>
    ensures { spec.Moves (move position (spec.held_view held.old)
        (spec.mode_view (spec.stack_view held.old.stack.items) mode) c
        (class_of c)) held.new result }
{
    match mode {
        Mode::Inside => inside(held, position, c),
        Mode::Referring(at, entity) => referring(held, at, entity, c),
        Mode::Opening(at) => opening(alloc, held, at, c),
        Mode::Banged => goes_lightly(held, from_banged(c)),
        Mode::BangDashed => goes_lightly(held, from_bang_dashed(c)),
        Mode::Commented => goes_lightly(held, Some(from_commented(c))),
        Mode::Dashed => goes_lightly(held, Some(from_dashed(c))),
        Mode::DashDashed => goes_lightly(held, Some(from_dash_dashed(c))),
        Mode::Asked => asked(alloc, held, c),
        Mode::Instructing(name) => instructing(alloc, held, name, c),
        Mode::NameAsked(name) => name_asked(alloc, held, name, c),
        Mode::Instructed(name, text) => instructed(held, name, text, c),
        Mode::EndAsked(name, text) => end_asked(alloc, held, name, text, c),
        Mode::Naming(at, name) => naming(alloc, held, at, name, c),
        Mode::Spaced(head) => spaced(alloc, held, head, position, c),
        Mode::Tight(head) => tight(alloc, held, head, c),
        Mode::Keyed(head, at, key) => keyed(held, head, at, key, c),
        Mode::KeySpaced(head, at, key) => key_spaced(held, head, at, key, c),
        Mode::Signed(head, at, key) => signed(alloc, held, head, at, key, c),
        Mode::Quoted(valued) => quoted(alloc, held, valued, position, c),
        Mode::ValueReferring(valued, at, entity) => value_referring(held, valued, at, entity, c),
        Mode::Slashed(head) => slashed(alloc, held, head, c),
        Mode::Ending(at) => ending(alloc, held, at, c),
        Mode::Ended => ended(alloc, held, c),
    }
}

/// The element that a piece of content is, unless it is a run.
fn child_in(piece: Content) -> Option<Element>
    ensures child { IfSome result (λ e. spec.onto piece ≡ spec.onto_element e) }
    ensures run { IfNone result (spec.IsRun piece) }
{
    match piece {
        Content::Child(element) => Some(element),
        Content::Chars(_, _) => None,
    }
}

/// The document of these bytes of an FXML file (Introduction to FXML, over the grammar of `fx_doc_grammar`), or why
/// they are none:
/// not UTF-8, the end of the longest prefix that some document begins with, the `<` of an element within 128 others,
/// or the first character past 4,096 of a name, a value or a run.
pub fn read_document(alloc: Global, bytes: &[u8]) -> Result<Document, DocError>
    requires { length bytes.now ≤ 4194304 }
    ensures read { IfOk result (λ d. Spells (document_text bytes.now) (spec.reading d)) }
    ensures within { OnOk result (IsUtf8 bytes.now × IsWithinLimits (document_text bytes.now)) }
    ensures fault { IfErr result (HasFault bytes.now) }
    ensures exact { (v : Verdict) → IsUtf8 bytes.now → IsVerdict (document_text bytes.now) v → IsGiven v result }
    ensures refused { (IsUtf8 bytes.now → ⊥) → IsRefused result }

    // The same as one function of the bytes.
    ensures judged { Tells result (judgement bytes.now) }
{
    match text_in(bytes) {
        Ok(text) => read_text(alloc, text),
        Err(valid) => Err(DocError::NotUtf8(valid)),
    }
}
