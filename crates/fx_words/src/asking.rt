//! The run that the arguments of a command line ask for.
//! Behind the reading of the words, in front of the files.
ghost use Rattle.std.specs.Prelude.{◌≡◌, ◌∷◌, [], drop, IfSome, IfNone};
ghost use Rattle.fx_words.specs.Asking as spec;
ghost use Rattle.fx_words.specs.Held.{arguments_in};

use crate::arguments::Arguments;
use crate::runs::{Frames, Run, Size, Source};
use crate::values::number_up_to;
use fx_base::{List, Str};

pub(crate) fn run_of(arguments: Arguments) -> Option<Run>
    ensures { result ≡ spec.run_of (arguments_in arguments) }
{
    let Arguments {
        positionals,
        sizes,
        frames,
        summaries,
    } = arguments;
    let source = source_of(positionals);
    let size = size_asked(sizes.as_slice());
    let frames = frames_asked(frames.as_slice());
    run_from(source, size, frames, summary_asked(summaries))
}

fn run_from(
    source: Option<Source>,
    size: Option<Option<Size>>,
    frames: Option<Frames>,
    summary: Option<bool>,
) -> Option<Run>
    ensures { result ≡ spec.run_from source size frames summary }
{
    Some(Run {
        source: source?,
        size: size?,
        frames: frames?,
        summary: summary?,
    })
}

/// The scene, the script and the sheets, or the demo.
fn source_of(positionals: Vec<Str>) -> Option<Source>
    ensures { result ≡ spec.source_of positionals.items }
{
    let (scene, words) = split_first(positionals)?;
    if is_demo(scene.as_str().as_bytes()) {
        return demo_of(scene.as_str().as_bytes(), words.as_slice());
    }
    let (script, sheets) = split_first(words)?;
    Some(Source::Files(scene, script, List::from_vec(sheets)))
}

fn is_demo(scene: &[u8]) -> bool
    ensures { result ≡ spec.is_demo scene.now }
{
    scene.starts_with(b"demo:")
}

fn demo_of(scene: &[u8], words: &[Str]) -> Option<Source>
    ensures { result ≡ spec.demo_of scene.now words.now }
{
    if !words.is_empty() {
        return None;
    }
    let number = number_up_to(3600, scene.get(5..).unwrap_or(&[]))?;
    Some(Source::Demo(number))
}

/// The first word and the others.
fn split_first(mut words: Vec<Str>) -> Option<(Str, Vec<Str>)>
    ensures some { IfSome result (λ parts. words.items ≡ parts.0 ∷ parts.1.items) }
    ensures none { IfNone result (words.items ≡ []) }
{
    if words.is_empty() {
        return None;
    }
    let first = words.remove(0);
    Some((first, words))
}

fn size_asked(sizes: &[Option<Size>]) -> Option<Option<Size>>
    ensures { result ≡ spec.size_asked sizes.now }
{
    match sizes {
        [] => Some(None),
        [Some(size)] => Some(Some(*size)),
        _ => None,
    }
}

fn frames_asked(frames: &[Option<Frames>]) -> Option<Frames>
    ensures { result ≡ spec.frames_asked frames.now }
{
    match frames {
        [] => Some(Frames::Text),
        [form] => *form,
        _ => None,
    }
}

fn summary_asked(summaries: usize) -> Option<bool>
    ensures { result ≡ spec.summary_asked summaries }
{
    match summaries {
        0 => Some(false),
        1 => Some(true),
        _ => None,
    }
}
