//! Runs of characters that change nothing or only make a text longer: the reader takes them whole, where they stand.
//! Every other character, and every fault, is left to its steps.
ghost use Rattle.std.specs.Prelude.{◌≡◌, ◌≤◌, ◌<◌, ◌+◌, ◌^◌, length, true, None, IfOk, IfSome, OnOk};
ghost use Rattle.std.specs.List.{list_all, prefix_len};
ghost use Rattle.fx_text.specs.Classes.{is_white};
ghost use Rattle.fx_doc_drafts.specs.Ahead.{is_low, is_text, is_calm, is_gap, is_plain};
ghost use Rattle.fx_doc_runs.specs.Reached.{Took, TookValue, IsRun, run_first, run_level};
ghost use Rattle.fx_doc_runs.specs.Views.{level_view, inside_view};
ghost use Rattle.fx_doc_runs.specs.References.{IsReference};
ghost use Rattle.fx_base.specs.declared.positions.Position.{Position};

use crate::modes::{Held, Level, Valued};
use crate::rests::Rest;
use crate::signs::{REFERENCE, reference_ahead};
use fx_base::Position;
use fx_doc_drafts::{Halt, behind_byte, quote_byte, value_length};
use fx_doc_grammar::Entity;
use fx_text::is_white;
use std::alloc::AllocError;

/// The greatest number of characters of a text.
const TEXT_LIMIT: usize = 4096;

fn is_calm(byte: u8, first: u8, second: u8) -> bool
    ensures { result ≡ is_calm first second byte }
{
    byte < 128 && byte != b'\n' && byte != first && byte != second
}

fn calm_length(bytes: &[u8], first: u8, second: u8) -> usize
    ensures count { result ≡ prefix_len (is_calm first second) bytes.now }
    ensures within { result ≤ length bytes.now }
{
    bytes
        .iter()
        .take_while(|byte| is_calm(**byte, first, second))
        .count()
}

fn is_gap(byte: u8) -> bool
    ensures { result ≡ is_gap byte }
{
    byte == b' ' || byte == b'\t' || byte == b'\r'
}

fn gap_length(bytes: &[u8]) -> usize
    ensures count { result ≡ prefix_len is_gap bytes.now }
    ensures within { result ≤ length bytes.now }
{
    bytes.iter().take_while(|byte| is_gap(**byte)).count()
}

pub fn white_length(bytes: &[u8]) -> usize
    ensures count { result ≡ prefix_len is_white bytes.now }
    ensures within { result ≤ length bytes.now }
{
    bytes.iter().take_while(|byte| is_white(**byte)).count()
}

fn is_text(byte: u8) -> bool
    ensures { result ≡ is_text byte }
{
    byte < 128 && byte != b'<' && byte != b'&'
}

fn text_length(bytes: &[u8]) -> usize
    ensures count { result ≡ prefix_len is_text bytes.now }
    ensures within { result ≤ length bytes.now }
{
    bytes.iter().take_while(|byte| is_text(**byte)).count()
}

/// The characters of an element's text in front, at most so many, and the text behind them.
fn text_ahead(text: &str, most: usize) -> (&str, &str)
    ensures run { IsRun is_text text.now result.0.now result.1.now }
    ensures short { length result.0.now ≤ most }
{
    let count = text_length(text.as_bytes()).min(most);
    match text.split_at_checked(count) {
        Some(parts) => parts,
        None => ("", text),
    }
}

/// The plain characters in front of a value's end, at most so many, and the text behind them.
pub fn value_ahead(text: &str, quote: u8, most: usize) -> (&str, &str)
    ensures run { IsRun (is_plain quote) text.now result.0.now result.1.now }
    ensures short { length result.0.now ≤ most }
{
    let count = value_length(text.as_bytes(), quote).min(most);
    match text.split_at_checked(count) {
        Some(parts) => parts,
        None => ("", text),
    }
}

/// The characters of one line in front of either byte, at most so many, and the text behind them.
pub fn run_ahead(text: &str, first: u8, second: u8, most: usize) -> (&str, &str)
    ensures run { IsRun (is_calm first second) text.now result.0.now result.1.now }
    ensures short { length result.0.now ≤ most }
{
    let count = calm_length(text.as_bytes(), first, second).min(most);
    match text.split_at_checked(count) {
        Some(parts) => parts,
        None => ("", text),
    }
}

/// The white in front, up to the end of the line, and the text behind it.
pub fn gap_ahead(text: &str) -> (&str, &str)
    ensures { IsRun is_gap text.now result.0.now result.1.now }
{
    let count = gap_length(text.as_bytes());
    match text.split_at_checked(count) {
        Some(parts) => parts,
        None => ("", text),
    }
}

/// The position of the first character that isn't white, of a run that goes on with this piece.
fn first_in(first: Option<Position>, position: Position, piece: &str) -> Option<Position>
    requires low { list_all is_low piece.now ≡ true }
    requires line { position.line + length piece.now < 2 ^ 31 }
    requires column { position.column + length piece.now < 2 ^ 31 }
    ensures { result ≡ run_first position piece.now first }
{
    match first {
        Some(shown) => Some(shown),
        None => first_of(position, piece),
    }
}

/// The position of the first character of this piece that isn't white.
fn first_of(position: Position, piece: &str) -> Option<Position>
    requires low { list_all is_low piece.now ≡ true }
    requires line { position.line + length piece.now < 2 ^ 31 }
    requires column { position.column + length piece.now < 2 ^ 31 }
    ensures { result ≡ run_first position piece.now None }
{
    let count = white_length(piece.as_bytes());
    if count == piece.len() {
        return None;
    }
    Some(position.after_bytes(&piece.as_bytes()[..count]))
}

impl Level {
    /// Appends a piece that has room, and stands at that position.
    fn add_run(&mut self, position: Position, piece: &str) -> Result<(), AllocError>
        requires low { list_all is_low piece.now ≡ true }
        requires room { self.old.run.count + length piece.now ≤ 4096 }
        requires line { position.line + length piece.now < 2 ^ 31 }
        requires column { position.column + length piece.now < 2 ^ 31 }
        ensures { OnOk result (level_view self.new ≡ run_level position piece.now (level_view self.old)) }
    {
        self.run.push_ascii(piece)?;
        self.first = first_in(self.first, position, piece);
        Ok(())
    }
}

impl Held {
    /// Takes the characters in front that an element's text goes on with, or outside the elements white, and gives what
    /// is left behind them.
    pub fn take_text<'a>(&mut self, at: Rest<'a>) -> Result<Rest<'a>, AllocError>
        requires line { at.position.line + length at.text.now < 2 ^ 31 }
        requires column { at.position.column + length at.text.now < 2 ^ 31 }
        ensures { IfOk result (λ left. Took at.entry.text.now at.entry.position (inside_view self.old)
            left.text.now left.position (inside_view self.new)) }
    {
        if !self.is_within() {
            return Ok(at.past_white());
        }
        let (piece, left) = text_ahead(at.text, TEXT_LIMIT - self.level.run.count);
        self.level.add_run(at.position, piece)?;
        Ok(at.over(piece, left))
    }
}

impl Valued {
    /// Takes the plain characters and the references in front that the value goes on with, and gives the text behind
    /// them.
    pub fn take<'a>(&mut self, rest: &'a str) -> Result<&'a str, Halt>
        ensures { IfOk result (λ left. TookValue rest.now self.old left.now self.new) }
    {
        let mut left = self.take_plain(rest)?;
        while let Some((found, behind)) = self.reference(left) {
            self.value.push(found)?;
            left = self.take_plain(behind)?;
        }
        Ok(left)
    }

    /// Takes the plain characters in front that the value goes on with, and gives the text behind them.
    fn take_plain<'a>(&mut self, rest: &'a str) -> Result<&'a str, AllocError>
        ensures took { IfOk result (λ left. TookValue rest.now self.old left.now self.new) }
        ensures shorter { IfOk result (λ left. length left.now ≤ length rest.now) }
    {
        let quote = quote_byte(self.quote);
        let (piece, left) = value_ahead(rest, quote, TEXT_LIMIT - self.value.count);
        self.value.push_ascii(piece)?;
        Ok(left)
    }

    /// The character of the reference in front, if the value has room for it, and the text behind it.
    fn reference<'a>(&self, rest: &'a str) -> Option<(char, &'a str)>
        ensures some { IfSome result (λ x. IsReference rest.now x.0 x.1.now) }
        ensures room { IfSome result (λ _. self.now.value.count < 4096) }
    {
        if self.value.count == TEXT_LIMIT {
            return None;
        }
        let behind = behind_byte(rest, b'&')?;
        reference_ahead(Entity::Begun, behind, REFERENCE)
    }
}
