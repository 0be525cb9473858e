//! Texts that are written in one line: `\n`, `\r`, `\t` and `\b` are a line feed, a carriage return, a tab and a
//! backslash, and `\x` with two digits is any byte.
ghost use Rattle.std.specs.Prelude.{◌<◌, IfOk};

use anyhow::bail;
use std::alloc::Global;
use std::fmt::Write;

pub fn bytes_of(alloc: Global, line: &str) -> anyhow::Result<Vec<u8>> {
    let mut bytes = Vec::new(alloc);
    read_bytes(line, &mut bytes)?;
    Ok(bytes)
}

fn read_bytes(line: &str, bytes: &mut Vec<u8>) -> anyhow::Result<()> {
    let mut parts = line.split('\\');
    if let Some(first) = parts.next() {
        bytes.extend_from_slice(first.as_bytes())?;
    }
    for part in parts {
        push_escaped(bytes, part.as_bytes())?;
    }
    Ok(())
}

/// What stands behind a `\`, up to the next.
fn push_escaped(bytes: &mut Vec<u8>, part: &[u8]) -> anyhow::Result<()> {
    match part {
        [b'n', rest @ ..] => push(bytes, b'\n', rest),
        [b'r', rest @ ..] => push(bytes, b'\r', rest),
        [b't', rest @ ..] => push(bytes, b'\t', rest),
        [b'b', rest @ ..] => push(bytes, b'\\', rest),
        [b'x', high, low, rest @ ..] => push(bytes, digit(*high)? * 16 + digit(*low)?, rest),
        _ => bail!("no such escape"),
    }
}

fn push(bytes: &mut Vec<u8>, byte: u8, rest: &[u8]) -> anyhow::Result<()> {
    bytes.push(byte)?;
    bytes.extend_from_slice(rest)?;
    Ok(())
}

fn digit(letter: u8) -> anyhow::Result<u8>
    ensures { IfOk result (λ digit. digit < 16) }
{
    match letter {
        b'0'..=b'9' => Ok(letter - b'0'),
        b'a'..=b'f' => Ok(letter - b'a' + 10),
        _ => bail!("no digit"),
    }
}

/// Writes the bytes in one line: what is not a printed sign of ASCII is escaped.
pub fn write_escaped(out: &mut String, bytes: &[u8]) -> anyhow::Result<()> {
    for byte in bytes {
        write_byte(out, *byte)?;
    }
    Ok(())
}

fn write_byte(out: &mut String, byte: u8) -> anyhow::Result<()> {
    match byte {
        b'\n' => out.push_str("\\n")?,
        b'\r' => out.push_str("\\r")?,
        b'\t' => out.push_str("\\t")?,
        b'\\' => out.push_str("\\b")?,
        b' '..=b'~' => out.push(char::from(byte))?,
        other => write!(out, "\\x{other:02x}")?,
    }
    Ok(())
}
