//! What the readers of written values make of a text.
use anyhow::bail;
use fx_base::{Color, Family, Kind, Sides, Value};
use fx_look::{blend, read_color, read_number, read_sides, read_size, read_value};
use std::alloc::{AllocError, Global};

/// What the reader of this name makes of the text, if there is such a reader.
pub fn read(alloc: Global, reader: &str, text: &str) -> anyhow::Result<Option<String>> {
    let answer = match reader {
        "number" => number(alloc, read_number(text))?,
        "size" => number(alloc, read_size(text))?,
        "color" => color(alloc, read_color(text))?,
        "sides" => sides(alloc, read_sides(text))?,
        "value" => value(alloc, text)?,
        "blend" => pixel(alloc, text)?,
        _ => return Ok(None),
    };
    Ok(Some(answer))
}

/// What is printed where nothing is found.
pub fn nothing(alloc: Global) -> Result<String, AllocError> {
    String::from_str(alloc, "none")
}

fn number(alloc: Global, number: Option<i64>) -> Result<String, AllocError> {
    match number {
        Some(number) => format!(in alloc; "{number}"),
        None => nothing(alloc),
    }
}

fn color(alloc: Global, color: Option<Color>) -> Result<String, AllocError> {
    match color {
        Some(Color { r, g, b, a }) => format!(in alloc; "#{r:02x}{g:02x}{b:02x}{a:02x}"),
        None => nothing(alloc),
    }
}

fn sides(alloc: Global, sides: Option<Sides>) -> Result<String, AllocError> {
    match sides {
        Some(sides) => {
            let Sides {
                top,
                right,
                bottom,
                left,
            } = sides;
            format!(in alloc; "{top} {right} {bottom} {left}")
        }
        None => nothing(alloc),
    }
}

/// The value of a kind, as it is printed behind an equals sign.
fn value(alloc: Global, text: &str) -> anyhow::Result<String> {
    let (kind, text) = text.split_once(' ').unwrap_or((text, ""));
    match read_value(alloc, kind_of(kind)?, text)? {
        Some(value) => {
            let value = printed(alloc, &value)?;
            Ok(format!(in alloc; "={value}")?)
        }
        None => Ok(nothing(alloc)?),
    }
}

fn kind_of(word: &str) -> anyhow::Result<Kind> {
    let kinds = [
        ("int", Kind::Int),
        ("bool", Kind::Bool),
        ("text", Kind::Text),
        ("color", Kind::Color),
        ("sides", Kind::Sides),
        ("Pos", Kind::Choice(Family::Pos)),
        ("Priority", Kind::Choice(Family::Priority)),
        ("HPos", Kind::Choice(Family::HPos)),
        ("VPos", Kind::Choice(Family::VPos)),
    ];
    match kinds.iter().find(|row| row.0 == word) {
        Some(row) => Ok(row.1),
        None => bail!("no such kind"),
    }
}

/// A value as it is printed.
pub fn printed(alloc: Global, value: &Value) -> anyhow::Result<String> {
    let mut bytes = Vec::new(alloc);
    value.print(alloc, &mut bytes)?;
    Ok(String::from_utf8(bytes)?)
}

/// The pixel that a colour makes of the one under it.
fn pixel(alloc: Global, text: &str) -> anyhow::Result<String> {
    let Some((over, under)) = text.split_once(' ') else {
        bail!("a colour stands over a pixel");
    };
    let [r, g, b, a] = u32::from_str_radix(over, 16)?.to_be_bytes();
    let pixel = blend(Color { r, g, b, a }, u32::from_str_radix(under, 16)?);
    Ok(format!(in alloc; "{pixel:08x}")?)
}
