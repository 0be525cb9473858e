//! Selectors and declarations.
use crate::sheets::{write_declaration, write_selectors};
use fx_css_parts::{read_declaration, read_selectors};
use std::alloc::Global;
use std::fmt::Write;

/// Whether the text spells selectors, and the first part past a limit.
pub fn tell_selectors(alloc: Global, text: &[u8], out: &mut String) -> anyhow::Result<()> {
    match read_selectors(alloc, text)? {
        Some(read) => tell_good(read.past, out),
        None => tell_bad(out),
    }
}

/// Whether the text spells a declaration, and the first layer past the limit.
pub fn tell_declaration(alloc: Global, text: &[u8], out: &mut String) -> anyhow::Result<()> {
    match read_declaration(alloc, text)? {
        Some(read) => tell_good(read.past, out),
        None => tell_bad(out),
    }
}

fn tell_good(past: Option<usize>, out: &mut String) -> anyhow::Result<()> {
    match past {
        Some(place) => write!(out, "good, but for {place}")?,
        None => out.push_str("good")?,
    }
    Ok(())
}

fn tell_bad(out: &mut String) -> anyhow::Result<()> {
    Ok(out.push_str("bad")?)
}

/// The selectors of the text as they are written.
pub fn write_selectors_of(alloc: Global, text: &[u8], out: &mut String) -> anyhow::Result<()> {
    match read_selectors(alloc, text)? {
        Some(read) => write_selectors(read.selectors.as_slice(), out),
        None => tell_bad(out),
    }
}

/// The declaration of the text as it is written.
pub fn write_declaration_of(alloc: Global, text: &[u8], out: &mut String) -> anyhow::Result<()> {
    match read_declaration(alloc, text)? {
        Some(read) => write_declaration(&read.declaration, out),
        None => tell_bad(out),
    }
}
