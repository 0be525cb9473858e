//! The calls, one function each.
use crate::words::{next, number, of_value, value};
use anyhow::bail;
use fx_anim::{AnimError, Timelines};
use fx_base::Name;
use std::alloc::Global;
use std::str::Split;

/// Carries out the call of a line.
pub fn carry_out(alloc: Global, lines: &mut Timelines, line: &str) -> anyhow::Result<String> {
    let mut words = line.split(' ');
    match next(&mut words)? {
        "timelines" => {
            *lines = Timelines::new(alloc);
            Ok(format!(in alloc; "ok")?)
        }
        "add" => add(alloc, lines, &mut words),
        "key" => key(alloc, lines, &mut words),
        "play" => play(alloc, lines, &mut words),
        "stop" => stop(alloc, lines, &mut words),
        "tick" => tick(alloc, lines, &mut words),
        _ => bail!("no such call"),
    }
}

fn add(
    alloc: Global,
    lines: &mut Timelines,
    words: &mut Split<'_, char>,
) -> anyhow::Result<String> {
    let count = match next(words)? {
        "indefinite" => None,
        digits => Some(digits.parse::<u32>()?),
    };
    let reverse = words.next().is_some();
    match lines.add(alloc, count, reverse) {
        Ok(id) => Ok(format!(in alloc; "timeline {id}")?),
        Err(error) => of_error(alloc, &error),
    }
}

fn key(
    alloc: Global,
    lines: &mut Timelines,
    words: &mut Split<'_, char>,
) -> anyhow::Result<String> {
    let id = number(words)?;
    let at = i64::from(number(words)?);
    let name = Name(number(words)?);
    let value = value(alloc, next(words)?)?;
    if id as usize >= lines.len() || at > 3_600_000 {
        bail!("no such timeline, or no such time");
    }
    match lines.key(alloc, id, at, name, value) {
        Ok(()) => Ok(format!(in alloc; "ok")?),
        Err(error) => of_error(alloc, &error),
    }
}

fn play(
    alloc: Global,
    lines: &mut Timelines,
    words: &mut Split<'_, char>,
) -> anyhow::Result<String> {
    let id = number(words)?;
    if id as usize >= lines.len() {
        bail!("no such timeline");
    }
    match lines.play(id) {
        Ok(()) => Ok(format!(in alloc; "ok")?),
        Err(error) => of_error(alloc, &error),
    }
}

fn stop(
    alloc: Global,
    lines: &mut Timelines,
    words: &mut Split<'_, char>,
) -> anyhow::Result<String> {
    let id = number(words)?;
    if id as usize >= lines.len() {
        bail!("no such timeline");
    }
    lines.stop(id);
    Ok(format!(in alloc; "ok")?)
}

/// What the properties become, each with its number.
fn tick(
    alloc: Global,
    lines: &mut Timelines,
    words: &mut Split<'_, char>,
) -> anyhow::Result<String> {
    let ms = i64::from(number(words)?);
    if !(1..=3_600_000).contains(&ms) {
        bail!("no such time");
    }
    let sets = lines.tick(alloc, ms)?;
    let mut text = String::from_str(alloc, "sets")?;
    for (name, value) in sets.as_slice() {
        let value = of_value(alloc, value)?;
        let word = format!(in alloc; " {}={value}", name.0)?;
        text.push_str(word.as_str())?;
    }
    Ok(text)
}

fn of_error(alloc: Global, error: &AnimError) -> anyhow::Result<String> {
    let text = match error {
        AnimError::Full => "full",
        AnimError::Playing => "playing",
        AnimError::Empty => "empty",
        AnimError::Memory => bail!("out of memory"),
    };
    Ok(String::from_str(alloc, text)?)
}
