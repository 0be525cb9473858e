//! The words of a call: numbers and values.
use anyhow::bail;
use fx_base::{Color, Text, Value};
use std::alloc::{AllocError, Global};
use std::str::Split;

/// The next word, which must be there.
pub fn next<'a>(words: &mut Split<'a, char>) -> anyhow::Result<&'a str> {
    match words.next() {
        Some(word) => Ok(word),
        None => bail!("a word is wanting"),
    }
}

pub fn number(words: &mut Split<'_, char>) -> anyhow::Result<u32> {
    Ok(next(words)?.parse::<u32>()?)
}

/// A number as `i5`, a truth as `b0` or `b1`, a text as `tabc`, a colour as `c` and a number of its four bytes.
pub fn value(alloc: Global, word: &str) -> anyhow::Result<Value> {
    if let Some(digits) = word.strip_prefix('i') {
        return Ok(Value::Int(digits.parse::<i64>()?));
    }
    if let Some(text) = word.strip_prefix('t') {
        return Ok(Value::Text(Text::from_str(alloc, text)?));
    }
    if let Some(digits) = word.strip_prefix('c') {
        return Ok(Value::Color(color(digits.parse::<u32>()?)));
    }
    Ok(Value::Bool(word == "b1"))
}

/// The colour of these bytes: red, green, blue and opacity.
pub fn color(bytes: u32) -> Color {
    let [r, g, b, a] = bytes.to_be_bytes();
    Color { r, g, b, a }
}

pub fn of_value(alloc: Global, value: &Value) -> Result<String, AllocError> {
    match value {
        Value::Int(number) => format!(in alloc; "i{number}"),
        Value::Bool(truth) => format!(in alloc; "b{}", i64::from(*truth)),
        Value::Text(text) => format!(in alloc; "t{}", text.as_str()),
        Value::Color(Color { r, g, b, a }) => {
            format!(in alloc; "c{}", u32::from_be_bytes([*r, *g, *b, *a]))
        }
        Value::Choice(_, _) | Value::Sides(_) => format!(in alloc; "?"),
    }
}
