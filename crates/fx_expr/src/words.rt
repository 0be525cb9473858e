//! Paths of names, and the words for what is true and false.
ghost use Rattle.std.specs.Prelude.{◌≡◌, ◌<◌, ◌≤◌, IfSome, IfNone, length, drop, true, false};
ghost use Rattle.std.specs.List.{list_any};
ghost use Rattle.std.specs.Str.{chars};
ghost use Rattle.fx_text.specs.Classes.{is_letter};
ghost use Rattle.fx_expr.specs.Spelling.{has_name, is_true_word, is_false_word, is_truth_word, word_token};
ghost use Rattle.fx_expr.specs.Scanning.{name_at, names_at, with_names, path_at, words_at};
ghost use Rattle.fx_expr.specs.Reading.{Gives};

use crate::fronts::{character_count, first, letters};
use crate::stops::Stop;
use crate::tokens::Token;
use fx_base::{List, Text, TextError, Value};
use std::alloc::{AllocError, Global};

/// The token of the path at the front of the text, and what is behind it.
pub fn word<'a>(alloc: Global, text: &'a str) -> Result<(Token, &'a str), Stop>
    ensures { Gives (λ p. (p.0, chars p.1.now)) result (words_at (chars text.now)) }
{
    let (names, rest) = path(alloc, text)?;
    let token = token_of(names)?;
    Ok((token, rest))
}

fn token_of(names: Vec<Text>) -> Result<Token, Stop>
    ensures { Gives (λ token. token) result (word_token names.items) }
{
    match names.as_slice() {
        [] => Err(Stop::Refused),
        [name] => {
            if is_true(name) {
                return Ok(Token::Constant(Value::Bool(true)));
            }
            if is_false(name) {
                return Ok(Token::Constant(Value::Bool(false)));
            }
            Ok(Token::Path(List::from_vec(names)))
        }
        [_, _, ..] => {
            if any_truth(names.as_slice()) {
                return Err(Stop::Refused);
            }
            Ok(Token::Path(List::from_vec(names)))
        }
    }
}

fn any_truth(names: &[Text]) -> bool
    ensures { result ≡ list_any is_truth_word names.now }
{
    names.iter().any(|name| is_true(name) || is_false(name))
}

fn is_true(name: &Text) -> bool
    ensures { result ≡ is_true_word name.now }
{
    name.as_str() == "true"
}

fn is_false(name: &Text) -> bool
    ensures { result ≡ is_false_word name.now }
{
    name.as_str() == "false"
}

fn path<'a>(alloc: Global, text: &'a str) -> Result<(Vec<Text>, &'a str), Stop>
    ensures { Gives (λ p. (p.0.items, chars p.1.now)) result (path_at (chars text.now)) }
{
    let (first, rest) = name(alloc, text)?;
    let mut names = Vec::new(alloc);
    names.push(first)?;
    more_names(alloc, names, rest)
}

fn more_names<'a>(
    alloc: Global,
    first: Vec<Text>,
    text: &'a str,
) -> Result<(Vec<Text>, &'a str), Stop>
    ensures { Gives (λ p. (p.0.items, chars p.1.now)) result
        (with_names first.items (names_at (length (chars text.now)) (chars text.now))) }
{
    let mut names = first;
    let mut rest = text;
    for _ in 0..character_count(text) {
        match past_point(rest) {
            None => return Ok((names, rest)),
            Some(behind) => {
                let (next, after) = name(alloc, behind)?;
                names.push(next)?;
                rest = after;
            }
        }
    }
    Ok((names, rest))
}

/// What is behind the point, if a point stands here and a name behind it.
fn past_point(text: &str) -> Option<&str>
    ensures some { IfSome result (λ behind. (has_name (chars text.now) ≡ true)
        × (chars behind.now ≡ drop 1 (chars text.now))) }
    ensures none { IfNone result (has_name (chars text.now) ≡ false) }
{
    let Some(('.', behind)) = first(text) else {
        return None;
    };
    match first(behind) {
        Some((c, _)) if is_letter(c) => Some(behind),
        _ => None,
    }
}

fn name<'a>(alloc: Global, text: &'a str) -> Result<(Text, &'a str), Stop>
    ensures { Gives (λ p. (p.0, chars p.1.now)) result (name_at (chars text.now)) }
{
    let (letters, rest) = letters(text);
    match Text::from_str(alloc, letters) {
        Ok(name) => Ok((name, rest)),
        Err(TextError::TooLong) => Err(Stop::Refused),
        Err(TextError::Memory) => Err(Stop::Memory),
    }
}

/// Does a name begin with it?
pub fn is_letter(c: char) -> bool
    ensures { result ≡ is_letter c }
{
    matches!(c, 'A'..='Z' | 'a'..='z' | '_')
}
