//! What the bytes of a text say outside comments and quotes, and where.
use anyhow::bail;
use fx_base::{Place, Position};
use fx_css_marks::{is_bare, places, position, spoken};
use std::alloc::Global;
use std::fmt::Write;

/// What the text says, its signs, with `_` for what means nothing, and whether it says itself.
pub fn write_said(alloc: Global, text: &[u8], out: &mut String) -> anyhow::Result<()> {
    let said = spoken(alloc, text)?;
    write_bytes(said.bytes.as_slice(), out)?;
    write_signs(alloc, said.signs.as_slice(), out)?;
    tell_bare(text, out)
}

fn write_bytes(bytes: &[u8], out: &mut String) -> anyhow::Result<()> {
    match str::from_utf8(bytes) {
        Ok(text) => out.push_str(text)?,
        Err(_) => bail!("not UTF-8"),
    }
    Ok(out.push_str("|")?)
}

fn write_signs(alloc: Global, signs: &[u8], out: &mut String) -> anyhow::Result<()> {
    let mut bytes = Vec::new(alloc);
    for sign in signs {
        bytes.push(if *sign == 255 { b'_' } else { *sign })?;
    }
    write_bytes(bytes.as_slice(), out)
}

/// Whether the text says itself.
pub fn tell_bare(text: &[u8], out: &mut String) -> anyhow::Result<()> {
    Ok(out.push_str(if is_bare(text) { "bare" } else { "not bare" })?)
}

/// The places of the marks with the numbers in front of the text, as `line:column`, each also asked for alone.
pub fn write_places(alloc: Global, text: &str, out: &mut String) -> anyhow::Result<()> {
    let Some((words, text)) = text.split_once('|') else {
        bail!("the numbers are wanting");
    };
    let mut numbers = Vec::new(alloc);
    read_numbers(words, &mut numbers)?;
    write_all(alloc, text.as_bytes(), numbers.as_slice(), out)
}

fn read_numbers(words: &str, numbers: &mut Vec<usize>) -> anyhow::Result<()> {
    for word in words.split(' ') {
        numbers.push(word.parse::<usize>()?)?;
    }
    Ok(())
}

fn write_all(
    alloc: Global,
    text: &[u8],
    numbers: &[usize],
    out: &mut String,
) -> anyhow::Result<()> {
    if text.len() > 4194304 {
        bail!("the text is too long");
    }
    let found = places(alloc, text, 7, numbers)?;
    for (number, at) in numbers.iter().zip(found.as_slice()) {
        write_place(at, position(text, *number), out)?;
    }
    Ok(())
}

fn write_place(at: &Place, alone: Position, out: &mut String) -> anyhow::Result<()> {
    let Position { line, column } = at.position;
    if alone.line == line && alone.column == column && at.file == 7 {
        write!(out, "{line}:{column} ")?;
    } else {
        out.push_str("? ")?;
    }
    Ok(())
}
