//! Draws the pictures of small trees, each after the one before it on one canvas, and prints of each the damage and a
//! checksum of all pixels. Its input and output are a test of shapes, damage and canvas: the output was computed by
//! another program.
//!
//! A line `window W H` begins with a new window; a line for each node follows (reading.rt has its form), in pre-order,
//! and a line `frame` ends a picture.
#![tactic(auto)]

mod frames;
mod reading;

ghost use Rattle.std.specs.Prelude.{◌≡◌};

use anyhow::bail;
use frames::Frames;
use fx_base::{Ledgers, Work};
use reading::{read_entry, read_size};
use std::alloc::Global;
use std::marker::Brand;
use std::mem::forget;
use std::sync::ledger::Blank;

fn main(rt: HostRuntime) -> anyhow::Result<()> {
    play::<Brand, HostRuntime>(
        &rt,
        Blank::new(1),
        Blank::new(1),
        Blank::new(1),
        Blank::new(1),
    )
}

fn play<L: Ledgers, R: Input + Print + AllocGlobal>(
    rt: &R,
    evaluated: Blank,
    styled: Blank,
    laid: Blank,
    painted: Blank,
) -> anyhow::Result<()>
    requires evaluated { (evaluated.name ≡ L.evaluated_name) × (evaluated.parts ≡ 1) }
    requires styled { (styled.name ≡ L.styled_name) × (styled.parts ≡ 1) }
    requires laid { (laid.name ≡ L.laid_name) × (laid.parts ≡ 1) }
    requires painted { (painted.name ≡ L.painted_name) × (painted.parts ≡ 1) }
{
    let mut work: Work<L> = Work::new(evaluated, styled, laid, painted);
    let mut frames = Frames::new(rt.alloc(), 1, 1)?;
    let played = play_lines(rt, &mut frames, &mut work);
    // The process ends right after this, so nothing of the window is freed.
    forget(frames);
    played
}

fn play_lines<L: Ledgers, R: Input + Print + AllocGlobal>(
    rt: &R,
    frames: &mut Frames,
    work: &mut Work<L>,
) -> anyhow::Result<()> {
    for line in rt.lines(rt.alloc()) {
        let line = line?;
        play_line(rt, frames, line.as_str(), work)?;
    }
    Ok(())
}

fn play_line<L: Ledgers, R: Print + AllocGlobal>(
    rt: &R,
    frames: &mut Frames,
    line: &str,
    work: &mut Work<L>,
) -> anyhow::Result<()> {
    let alloc = rt.alloc();
    let (word, rest) = line.split_once(' ').unwrap_or((line, ""));
    match word {
        "window" => begin(alloc, frames, rest),
        "node" => frames.add(read_entry(alloc, rest)?),
        "frame" => {
            let text = frames.show(alloc, work)?;
            rt.println(text.as_str())?;
            Ok(())
        }
        _ => bail!("no such line"),
    }
}

/// A new window of this size.
fn begin(alloc: Global, frames: &mut Frames, size: &str) -> anyhow::Result<()> {
    let (width, height) = read_size(size)?;
    *frames = Frames::new(alloc, width, height)?;
    Ok(())
}
