//! The lines of a text in columns, as the first byte and the end of each, the cells that it takes, and the glyph of a
//! character, as the octal digits of its five rows.
use anyhow::bail;
use fx_cells::{cells, glyph, lines};
use std::alloc::{AllocError, Global};

pub fn answer(alloc: Global, word: &str, text: &str) -> anyhow::Result<String> {
    match word {
        "wrap" => wrapped(alloc, text),
        "cells" => Ok(format!(in alloc; "{}", cells(text))?),
        "glyph" => glyph_told(alloc, text),
        _ => bail!("no such word"),
    }
}

/// The lines of the text behind the number of its columns.
fn wrapped(alloc: Global, text: &str) -> anyhow::Result<String> {
    let Some((columns, text)) = text.split_once('|') else {
        bail!("the columns are wanting");
    };
    let columns = columns.parse::<u64>()?;
    if columns < 1 {
        bail!("no columns");
    }
    let ranges = lines(alloc, text, columns)?;
    Ok(ranges_told(alloc, ranges.as_slice())?)
}

fn ranges_told(alloc: Global, ranges: &[(usize, usize)]) -> Result<String, AllocError> {
    let mut told = String::new(alloc);
    for (start, end) in ranges {
        if !told.is_empty() {
            told.push(' ')?;
        }
        write!(told, "{start}-{end}")?;
    }
    Ok(told)
}

fn glyph_told(alloc: Global, text: &str) -> anyhow::Result<String> {
    match text.chars().next() {
        Some(c) => Ok(format!(in alloc; "{:05o}", glyph(c))?),
        None => bail!("no character"),
    }
}
