//! Shows streams that are given line by line, each up to its first bad line, and prints what a viewer shows and the
//! number of that line. Its input and output are a test of the viewer: the output was computed by another program.
#![tactic(auto)]

mod shows;

use shows::Show;

fn main(rt: HostRuntime) -> anyhow::Result<()> {
    let alloc = rt.alloc();
    let mut show = Show::new(alloc);
    for line in rt.lines(alloc) {
        let line = line?;
        let text = show.carry_out(alloc, line.as_str())?;
        rt.print(text.as_str())?;
    }
    Ok(())
}
