//! The words of a line, taken from the left.
//! Between a line's text and the forms of lines.
ghost use Rattle.std.specs.Prelude.{◌≡◌, codes, length, nat_le};
ghost use Rattle.std.specs.Option.{option_map};
ghost use Rattle.std.specs.Str.{bytes_eq, chars};
ghost use Rattle.fx_text.specs.Classes.{is_space};
ghost use Rattle.fx_text.specs.Fronts.{behind};
ghost use Rattle.fx_script_lines.specs.Taking as spec;
ghost use Rattle.fx_script_lines.specs.Taking.{Gives, Takes};

use crate::shapes::{Shape, has_shape};
use crate::stops::Stop;
use fx_base::{List, Str, Text, TextError};
use fx_text::is_identifier;
use std::alloc::Global;

/// What is left of a line behind a word and one space.
#[derive(Clone, Copy)]
pub struct Words<'a> {
    pub left: &'a str,
}

impl<'a> Words<'a> {
    /// A word of this shape.
    #[tactic(auto, unfolding(crate::specs::Taking::word))]
    pub(crate) fn word(&mut self, alloc: Global, shape: Shape) -> Result<Text, Stop>
        ensures { Takes result (spec.word shape self.old.left.now) self.new.left.now }
    {
        let word = self.next();
        if word.is_empty() || !has_shape(shape, word) {
            return Err(Stop::Form);
        }
        kept(alloc, word)
    }

    /// A path of identifiers.
    #[tactic(auto, unfolding(crate::specs::Taking::path))]
    pub fn path(&mut self, alloc: Global) -> Result<List<Text>, Stop>
        ensures { Takes result (spec.path self.old.left.now) self.new.left.now }
    {
        let word = self.next();
        if word.is_empty() || !is_short(word) {
            return Err(Stop::Form);
        }
        names(alloc, word)
    }

    /// Nothing but spaces may be left.
    pub(crate) fn end(&self) -> Result<(), Stop>
        ensures { Gives result (spec.ended tt self.now.left.now) }
    {
        if self.is_over() {
            Ok(())
        } else {
            Err(Stop::Form)
        }
    }

    /// The first word, which is empty where none is left.
    #[tactic(auto, unfolding(crate::specs::Taking::word_in, crate::specs::Taking::behind_word))]
    pub fn next(&mut self) -> &'a str
        ensures word { result.now ≡ spec.word_in self.old.left.now }
        ensures left { self.new.left.now ≡ spec.behind_word self.old.left.now }
    {
        let (word, left) = first_word(behind_spaces(self.left));
        self.left = left;
        word
    }

    /// All that is left.
    #[tactic(auto, unfolding(crate::specs::Taking::rest))]
    pub(crate) fn rest(&mut self, alloc: Global) -> Result<Str, Stop>
        ensures { Takes result (spec.rest self.old.left.now) self.new.left.now }
    {
        match String::from_str(alloc, self.left) {
            Ok(rest) => {
                self.left = "";
                Ok(Str::from_string(rest))
            }
            Err(_) => Err(Stop::Memory),
        }
    }

    /// Is nothing left but spaces?
    pub fn is_over(&self) -> bool
        ensures { result ≡ spec.is_over self.now.left.now }
    {
        self.left.as_bytes().iter().all(|c| *c == b' ')
    }

    /// An identifier, if there is a word.
    #[tactic(auto, unfolding(crate::specs::Taking::label))]
    pub(crate) fn label(&mut self, alloc: Global) -> Result<Option<Text>, Stop>
        ensures { Takes result (spec.label self.old.left.now) self.new.left.now }
    {
        if self.is_over() {
            return Ok(None);
        }
        let label = self.word(alloc, Shape::Identifier)?;
        Ok(Some(label))
    }

    /// Does `reverse` stand here? Nothing else may.
    #[tactic(auto, unfolding(crate::specs::Taking::reverse))]
    pub(crate) fn reverse(&mut self) -> Result<bool, Stop>
        ensures { Takes result (spec.reverse self.old.left.now) self.new.left.now }
    {
        if self.is_over() {
            return Ok(false);
        }
        if is_reverse(self.next()) {
            Ok(true)
        } else {
            Err(Stop::Form)
        }
    }
}

fn is_reverse(word: &str) -> bool
    ensures { result ≡ bytes_eq word.now (codes "reverse") }
{
    word.as_bytes() == b"reverse".as_slice()
}

fn is_short(word: &str) -> bool
    ensures { result ≡ nat_le (length (chars word.now)) 4096 }
{
    if word.len() <= 4096 {
        return true;
    }
    char_count(word) <= 4096
}

fn char_count(text: &str) -> usize
    ensures { result ≡ length (chars text.now) }
{
    text.chars().count()
}

/// The identifiers between the dots of a word.
fn names(alloc: Global, word: &str) -> Result<List<Text>, Stop>
    ensures { Gives result (spec.names word.now) }
{
    let mut names = Vec::new(alloc);
    let mut rest = word;
    while let Some((name, others)) = cut_at_dot(rest) {
        let name = match read_name(alloc, name) {
            Ok(name) => name,
            Err(stop) => return Err(stop),
        };
        names.push(name)?;
        rest = others;
    }
    let last = match read_name(alloc, rest) {
        Ok(name) => name,
        Err(stop) => return Err(stop),
    };
    names.push(last)?;
    Ok(List::from_vec(names))
}

fn read_name(alloc: Global, name: &str) -> Result<Text, Stop>
    ensures { Gives result (spec.name_of name.now) }
{
    if !is_identifier(name) {
        return Err(Stop::Form);
    }
    kept(alloc, name)
}

/// What is in front of the first dot, and what is behind it.
fn cut_at_dot(text: &str) -> Option<(&str, &str)>
    ensures { spec.CutsAtDot text.now (option_map (λ parts. (parts.0.now, parts.1.now)) result) }
{
    text.split_once('.')
}

/// The word as a text, unless it has more than 4,096 characters.
fn kept(alloc: Global, word: &str) -> Result<Text, Stop>
    ensures { Gives result (spec.kept word.now) }
{
    match Text::from_str(alloc, word) {
        Ok(text) => Ok(text),
        Err(TextError::TooLong) => Err(Stop::Form),
        Err(TextError::Memory) => Err(Stop::Memory),
    }
}

/// What is in front of the first space, and what is behind it.
fn first_word(text: &str) -> (&str, &str)
    ensures word { result.0.now ≡ spec.before_space text.now }
    ensures left { result.1.now ≡ spec.after_space text.now }
{
    match text.split_once(' ') {
        Some((word, left)) => (word, left),
        None => (text, ""),
    }
}

/// The text without the spaces in front of it.
pub fn behind_spaces(text: &str) -> &str
    ensures { result.now ≡ behind is_space text.now }
{
    let mut rest = text;
    while let Some(others) = rest.strip_prefix(' ') {
        rest = others;
    }
    rest
}
