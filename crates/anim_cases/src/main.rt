//! Carries out calls on timelines, a line each, and prints what each answered. Its input and output are a test of the
//! timelines: the output was computed by another program.
#![tactic(auto)]

mod calls;
mod words;

use calls::carry_out;
use fx_anim::Timelines;

fn main(rt: HostRuntime) -> anyhow::Result<()> {
    let alloc = rt.alloc();
    let mut lines = Timelines::new(alloc);
    for line in rt.lines(alloc) {
        let line = line?;
        let answer = carry_out(alloc, &mut lines, line.as_str())?;
        rt.println(answer.as_str())?;
    }
    Ok(())
}
