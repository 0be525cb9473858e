//! The words of a command: names, values and expressions.
use anyhow::bail;
use fx_base::{Name, Text, Value};
use std::alloc::Global;
use std::str::Split;

/// The next word, which must be there.
pub fn next<'a>(words: &mut Split<'a, char>) -> anyhow::Result<&'a str> {
    match words.next() {
        Some(word) => Ok(word),
        None => bail!("a word is wanting"),
    }
}

/// The name that is the next word.
pub fn next_name(words: &mut Split<'_, char>) -> anyhow::Result<Name> {
    name(next(words)?)
}

/// The number that is the next word.
pub fn next_number(words: &mut Split<'_, char>) -> anyhow::Result<u32> {
    Ok(next(words)?.parse::<u32>()?)
}

/// The value that is the next word.
pub fn next_value(alloc: Global, words: &mut Split<'_, char>) -> anyhow::Result<Value> {
    value(alloc, next(words)?)
}

pub fn name(word: &str) -> anyhow::Result<Name> {
    Ok(Name(word.parse::<u32>()?))
}

/// A number as `i5`, a truth as `b0` or `b1`, a text as `tabc`.
fn value(alloc: Global, word: &str) -> anyhow::Result<Value> {
    if let Some(digits) = word.strip_prefix('i') {
        return Ok(Value::Int(digits.parse::<i64>()?));
    }
    if let Some(text) = word.strip_prefix('t') {
        return Ok(Value::Text(Text::from_str(alloc, text)?));
    }
    Ok(Value::Bool(word == "b1"))
}
