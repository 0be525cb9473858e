//! Texts that are written in one line.
use anyhow::bail;
use std::alloc::Global;

/// The text with what its escapes stand for.
pub fn text_of(alloc: Global, line: &str) -> anyhow::Result<String> {
    let mut parts = line.split('\\');
    let mut text = String::new(alloc);
    if let Some(first) = parts.next() {
        text.push_str(first)?;
    }
    for part in parts {
        push_escaped(&mut text, part)?;
    }
    Ok(text)
}

/// What stands behind a `\`, up to the next.
fn push_escaped(text: &mut String, part: &str) -> anyhow::Result<()> {
    for (name, meant) in [
        ("n", "\n"),
        ("r", "\r"),
        ("t", "\t"),
        ("b", "\\"),
        ("s", " "),
    ] {
        if let Some(rest) = part.strip_prefix(name) {
            text.push_str(meant)?;
            text.push_str(rest)?;
            return Ok(());
        }
    }
    bail!("no such escape")
}
