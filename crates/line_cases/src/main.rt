//! Reads words of a command line, lines of a script, numbers of demos, texts in columns and totals under caps, one to
//! a line of its input, and prints what is asked for. Its input and output are a test of what reads, wraps or shares
//! each.
//!
//! A line is a word, a `|`, and what it is about. `wrap` and `share` have a number in front, with a `|` behind it, and
//! the texts of `wrap`, `cells` and `glyph` have the escapes of escapes.rt.
#![tactic(auto)]

mod demos;
mod escapes;
mod runs;
mod shares;
mod texts;

use anyhow::bail;
use escapes::text_of;
use fx_script_lines::read_instruction;
use std::alloc::Global;

fn main(rt: HostRuntime) -> anyhow::Result<()> {
    let alloc = rt.alloc();
    for line in rt.lines(alloc) {
        let line = line?;
        let text = answer(alloc, line.as_str())?;
        println!(rt; "{text}")?;
    }
    Ok(())
}

fn answer(alloc: Global, line: &str) -> anyhow::Result<String> {
    match line.split_once('|') {
        Some(("words", words)) => runs::answer(alloc, words),
        Some(("line", text)) => form(alloc, text),
        Some(("demo", number)) => demos::answer(alloc, number),
        Some(("share", numbers)) => shares::answer(alloc, numbers),
        Some((word, text)) => texts::answer(alloc, word, text_of(alloc, text)?.as_str()),
        None => bail!("a word is wanting"),
    }
}

/// Whether the line of a script has one of the forms.
fn form(alloc: Global, text: &str) -> anyhow::Result<String> {
    let word = match read_instruction(alloc, text)? {
        Some(_) => "form",
        None => "no form",
    };
    Ok(String::from_str(alloc, word)?)
}
