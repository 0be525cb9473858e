//! Lays out stored trees of nodes, each again and again with nodes that changed, and prints the size of the root, how
//! many calls of panes that took, and all rectangles. Its input and output are a test of the layout of whole scenes:
//! the output was computed by another program.
//!
//! A line is an update: `new` where nothing is kept yet or else `again`, the window or `-`, the places that are
//! measured anew, and behind bars the nodes, as in `new 10x4 0,1|HBox 0.1 - s1|Region 1.2 0 b4`. reading.rt has what is
//! said of a node.
#![tactic(auto)]

mod answers;
mod reading;
mod updates;

ghost use Rattle.std.specs.Prelude.{◌≡◌};

use answers::answer;
use fx_base::{Ledgers, Work};
use fx_layout::Layouts;
use std::marker::Brand;
use std::mem::forget;
use std::sync::ledger::Blank;
use updates::read_update;

fn main(rt: HostRuntime) -> anyhow::Result<()> {
    play::<Brand, HostRuntime>(
        &rt,
        Blank::new(1),
        Blank::new(1),
        Blank::new(1),
        Blank::new(1),
    )
}

fn play<L: Ledgers, R: Input + Print + AllocGlobal>(
    rt: &R,
    evaluated: Blank,
    styled: Blank,
    laid: Blank,
    painted: Blank,
) -> anyhow::Result<()>
    requires evaluated { (evaluated.name ≡ L.evaluated_name) × (evaluated.parts ≡ 1) }
    requires styled { (styled.name ≡ L.styled_name) × (styled.parts ≡ 1) }
    requires laid { (laid.name ≡ L.laid_name) × (laid.parts ≡ 1) }
    requires painted { (painted.name ≡ L.painted_name) × (painted.parts ≡ 1) }
{
    let mut work: Work<L> = Work::new(evaluated, styled, laid, painted);
    let mut layouts = Layouts::new(rt.alloc());
    let played = play_lines(rt, &mut layouts, &mut work);
    // The process ends right after this, so nothing that is kept is freed.
    forget(layouts);
    played
}

fn play_lines<L: Ledgers, R: Input + Print + AllocGlobal>(
    rt: &R,
    layouts: &mut Layouts,
    work: &mut Work<L>,
) -> anyhow::Result<()> {
    for line in rt.lines(rt.alloc()) {
        let line = line?;
        play_line(rt, layouts, line.as_str(), work)?;
    }
    Ok(())
}

fn play_line<L: Ledgers, R: Print + AllocGlobal>(
    rt: &R,
    layouts: &mut Layouts,
    line: &str,
    work: &mut Work<L>,
) -> anyhow::Result<()> {
    let update = read_update(rt.alloc(), line)?;
    let text = answer(rt.alloc(), &update, layouts, work)?;
    rt.println(text.as_str())?;
    Ok(())
}
