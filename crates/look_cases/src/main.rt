//! Reads written values and looks up rows of the tables, one to a line of its input, and prints what is found. Its
//! input and output are a test of every reader and table: the output is that of an independent implementation.
//!
//! A line is a reader or a table and then a text or a key. In it `\n`, `\r`, `\t`, `\b` and `\s` are a line feed, a
//! carriage return, a tab, a backslash, and a space.
#![tactic(auto)]

mod escapes;
mod rows;
mod values;

use escapes::text_of;
use std::alloc::Global;

fn main(rt: HostRuntime) -> anyhow::Result<()> {
    play(&rt)
}

fn play<R: Input + Print + AllocGlobal>(rt: &R) -> anyhow::Result<()> {
    let alloc = rt.alloc();
    for line in rt.lines(alloc) {
        let line = line?;
        let text = answer(alloc, line.as_str())?;
        rt.println(text.as_str())?;
    }
    Ok(())
}

fn answer(alloc: Global, line: &str) -> anyhow::Result<String> {
    let (word, rest) = line.split_once(' ').unwrap_or((line, ""));
    let rest = text_of(alloc, rest)?;
    match values::read(alloc, word, rest.as_str())? {
        Some(answer) => Ok(answer),
        None => rows::find(alloc, word, rest.as_str()),
    }
}
