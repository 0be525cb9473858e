//! The tokens of a text.
ghost use Rattle.std.specs.Prelude.{◌≡◌, ◌<◌, ◌≤◌, ◌++◌, ◌∷◌, length, option_and_then};
ghost use Rattle.std.specs.Option.{option_map};
ghost use Rattle.std.specs.Str.{chars};
ghost use Rattle.std.specs.String.{string_bytes};
ghost use Rattle.fx_text.specs.Classes.{is_quote};
ghost use Rattle.fx_expr.specs.Scanning as spec;
ghost use Rattle.fx_expr.specs.Reading.{Gives};

use crate::decimals::{is_digit, number};
use crate::fronts::{character_count, first, past_white};
use crate::signs::sign;
use crate::stops::Stop;
use crate::tokens::Token;
use crate::words::{is_letter, word};
use fx_base::{Text, Value};
use std::alloc::Global;

/// Room for the tokens of most expressions.
const ROOM: usize = 8;

/// The tokens that the text is written in.
pub fn scan(alloc: Global, text: &str) -> Result<Vec<Token>, Stop>
    ensures { Gives (λ tokens. tokens.items) result
        (spec.tokens_of (length (chars text.now)) (spec.after_white (chars text.now))) }
{
    let mut tokens = Vec::with_capacity(alloc, ROOM)?;
    let mut rest = past_white(text);
    for _ in 0..character_count(text) {
        match first(rest) {
            None => return Ok(tokens),
            Some((c, behind)) => {
                let (next, after) = token(alloc, rest, c, behind)?;
                tokens.push(next)?;
                rest = past_white(after);
            }
        }
    }
    match first(rest) {
        None => Ok(tokens),
        Some(_) => Err(Stop::Refused),
    }
}

/// The token at the front of the text, which begins with this character, and what is behind it.
fn token<'a>(
    alloc: Global,
    text: &'a str,
    first: char,
    behind: &'a str,
) -> Result<(Token, &'a str), Stop>
    requires { chars text.now ≡ first ∷ chars behind.now }
    ensures { Gives (λ p. (p.0, chars p.1.now)) result (spec.token_at (chars text.now)) }
{
    if is_digit(first) {
        return Ok(number(text));
    }
    if is_quote(first) {
        return quoted_token(alloc, first, behind);
    }
    if is_letter(first) {
        return word(alloc, text);
    }
    sign(first, behind).ok_or(Stop::Refused)
}

fn is_quote(c: char) -> bool
    ensures { result ≡ is_quote c }
{
    matches!(c, '"' | '\'')
}

fn quoted_token<'a>(alloc: Global, quote: char, text: &'a str) -> Result<(Token, &'a str), Stop>
    ensures { Gives (λ p. (p.0, chars p.1.now)) result
        (option_and_then spec.text_token (spec.quoted_at (length (chars text.now)) quote (chars text.now))) }
{
    let (content, rest) = quoted(alloc, quote, text)?;
    match Text::from_string(content) {
        Some(text) => Ok((Token::Constant(Value::Text(text)), rest)),
        None => Err(Stop::Refused),
    }
}

/// The text that is written up to the quote, and what is behind it.
fn quoted<'a>(alloc: Global, quote: char, text: &'a str) -> Result<(String, &'a str), Stop>
    ensures { Gives (λ p. (string_bytes p.0, chars p.1.now)) result
        (spec.quoted_at (length (chars text.now)) quote (chars text.now)) }
{
    let mut content = String::new(alloc);
    let mut rest = text;
    for _ in 0..character_count(text) {
        match character(quote, rest) {
            Some((c, behind)) => {
                content.push(c)?;
                rest = behind;
            }
            None => return end(quote, content, rest),
        }
    }
    end(quote, content, rest)
}

/// The next character of a quoted text, and what is behind it.
fn character(quote: char, text: &str) -> Option<(char, &str)>
    ensures { option_map (λ p. (p.0, chars p.1.now)) result ≡ spec.character_at quote (chars text.now) }
{
    let (c, behind) = first(text)?;
    if c == quote {
        return None;
    }
    if c == '\\' {
        return first(behind);
    }
    Some((c, behind))
}

fn end<'a>(quote: char, content: String, text: &'a str) -> Result<(String, &'a str), Stop>
    ensures { Gives (λ p. (string_bytes p.0, chars p.1.now)) result
        (spec.with_front (string_bytes content) (spec.end_at quote (chars text.now))) }
{
    match first(text) {
        Some((c, rest)) => {
            if c == quote {
                return Ok((content, rest));
            }
            Err(Stop::Refused)
        }
        None => Err(Stop::Refused),
    }
}
