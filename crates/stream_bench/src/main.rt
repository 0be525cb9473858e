//! Sends frames of one changed entry each through a view, or shows them in a viewer, and prints how many bytes that
//! gave and a checksum of them. A script counts its instructions; no other crate stands on this one.
#![tactic(auto)]

mod frames;

use anyhow::bail;
use frames::{Told, send_frames, show_frames};
use std::env;

fn main(rt: HostRuntime) -> anyhow::Result<()> {
    let mut words = env::args(&rt)?;
    let _program = words.next();
    let (Some(what), Some(side), Some(frames)) = (words.next(), words.next(), words.next()) else {
        bail!("usage: stream_bench view|show|plain|all SIDE FRAMES");
    };
    let side = side.as_str().parse::<u32>()?;
    let frames = frames.as_str().parse::<u32>()?;
    if side < 10 || side > 2048 {
        bail!("a side has 10 to 2048 pixels");
    }
    let alloc = rt.alloc();
    for name in ["view", "show", "plain"] {
        if what.as_str() == name || what.as_str() == "all" {
            let told = match name {
                "view" => send_frames(alloc, side, frames)?,
                "show" => show_frames(alloc, side, frames, true)?,
                _ => show_frames(alloc, side, frames, false)?,
            };
            let Told { bytes, sum } = told;
            println!(rt; "{name}: {bytes} bytes, checksum {sum}")?;
        }
    }
    Ok(())
}
