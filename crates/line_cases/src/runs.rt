//! What the words of a command line ask for, in a line.
use fx_base::{List, Str};
use fx_words::{Frames, Size, Source, accept};
use std::alloc::{AllocError, Global};

pub fn answer(alloc: Global, line: &str) -> anyhow::Result<String> {
    let words = words_in(alloc, line)?;
    match accept(alloc, words.as_slice())? {
        Some(run) => {
            let mut out = String::new(alloc);
            put_source(&mut out, &run.source)?;
            put_size(&mut out, run.size)?;
            write!(out, " {} {}", form(run.frames), run.summary)?;
            Ok(out)
        }
        None => Ok(String::from_str(alloc, "usage")?),
    }
}

fn words_in(alloc: Global, line: &str) -> Result<Vec<String>, AllocError> {
    let mut words = Vec::new(alloc);
    if line.is_empty() {
        return Ok(words);
    }
    for word in line.split(' ') {
        words.push(String::from_str(alloc, word)?)?;
    }
    Ok(words)
}

fn put_source(out: &mut String, source: &Source) -> Result<(), AllocError> {
    match source {
        Source::Demo(number) => write!(out, "demo {number}"),
        Source::Files(scene, script, sheets) => put_files(out, scene, script, sheets),
    }
}

fn put_files(
    out: &mut String,
    scene: &Str,
    script: &Str,
    sheets: &List<Str>,
) -> Result<(), AllocError> {
    write!(out, "{} {}", scene.as_str(), script.as_str())?;
    for sheet in sheets.as_slice() {
        write!(out, " {}", sheet.as_str())?;
    }
    Ok(())
}

fn put_size(out: &mut String, size: Option<Size>) -> Result<(), AllocError> {
    match size {
        Some(Size { width, height }) => write!(out, " {width}x{height}"),
        None => Ok(()),
    }
}

fn form(frames: Frames) -> &'static str {
    match frames {
        Frames::Text => "Text",
        Frames::Ppm => "Ppm",
        Frames::Nothing => "Nothing",
        Frames::Delta => "Delta",
    }
}
