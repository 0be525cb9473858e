//! Makes the files of the demo of so many labels, so many times, and prints how many bytes they have. A script counts
//! its instructions; no other crate stands on this one.
#![tactic(auto)]

ghost use Rattle.std.specs.Prelude.{◌≤◌};

use anyhow::bail;
use fx_gen::make;
use std::alloc::{AllocError, Global};
use std::env;

fn main(rt: HostRuntime) -> anyhow::Result<()> {
    let mut words = env::args(&rt)?;
    let _program = words.next();
    let (Some(labels), Some(times)) = (words.next(), words.next()) else {
        bail!("usage: gen_bench LABELS TIMES");
    };
    let labels = labels.as_str().parse::<u32>()?;
    if labels < 1 || labels > 3600 {
        bail!("a demo has 1 to 3600 labels");
    }
    let mut bytes = 0;
    for _ in 0..times.as_str().parse::<u32>()? {
        bytes = length(rt.alloc(), labels)?;
    }
    println!(rt; "{bytes} bytes")?;
    Ok(())
}

/// How many bytes the files of the demo of so many labels have together.
fn length(alloc: Global, labels: u32) -> Result<usize, AllocError>
    requires some { 1 ≤ labels }
    requires most { labels ≤ 3600 }
{
    let (scene, sheet, script) = make(alloc, labels)?;
    Ok(
        scene
            .len()
            .wrapping_add(sheet.len())
            .wrapping_add(script.len()),
    )
}
