//! Texts that are written in one line: `\n` and `\t` are a line feed and a tab, and `\x` with two digits is any byte.
use anyhow::bail;
use fx_text::hex_pair;
use std::alloc::Global;

pub fn text_of(alloc: Global, line: &str) -> anyhow::Result<String> {
    let mut bytes = Vec::new(alloc);
    let mut parts = line.split('\\');
    if let Some(first) = parts.next() {
        bytes.extend_from_slice(first.as_bytes())?;
    }
    for part in parts {
        push_escaped(&mut bytes, part.as_bytes())?;
    }
    match String::from_utf8(bytes) {
        Ok(text) => Ok(text),
        Err(_) => bail!("not UTF-8"),
    }
}

/// What stands behind a `\`, up to the next.
fn push_escaped(bytes: &mut Vec<u8>, part: &[u8]) -> anyhow::Result<()> {
    match part {
        [b'n', rest @ ..] => push(bytes, b'\n', rest),
        [b't', rest @ ..] => push(bytes, b'\t', rest),
        [b'x', high, low, rest @ ..] => push(bytes, byte_of(*high, *low)?, rest),
        _ => bail!("no such escape"),
    }
}

fn push(bytes: &mut Vec<u8>, byte: u8, rest: &[u8]) -> anyhow::Result<()> {
    bytes.push(byte)?;
    bytes.extend_from_slice(rest)?;
    Ok(())
}

fn byte_of(high: u8, low: u8) -> anyhow::Result<u8> {
    match hex_pair(high, low) {
        Some(byte) => Ok(byte),
        None => bail!("no digits"),
    }
}
