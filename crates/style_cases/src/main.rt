//! Styles stored trees of nodes under stored sheets, and prints the looks after each update. Its input and output are a
//! test of looks: the output was computed by another program.
//!
//! A line begins with a word. `case` forgets all, `sheets` all sheets, and `nodes` all nodes. `sheet agent` lists the
//! sheet of the user agent, `sheet scene TEXT` one of the scene, `sheet parent 2 TEXT` one of a node of this depth, and
//! `style TEXT` an inline style. `node` lists a node (reading.rt), and `update` styles the nodes of these places.
//! `matches SELECTORS` says which nodes each selector matches, and `rules` which rules match each node (matching.rt).
#![tactic(auto)]

mod looks;
mod matching;
mod reading;
mod scenes;

ghost use Rattle.std.specs.Prelude.{◌≡◌};

use fx_base::{Ledgers, Work};
use scenes::Scenery;
use std::marker::Brand;
use std::mem::forget;
use std::sync::ledger::Blank;

fn main(rt: HostRuntime) -> anyhow::Result<()> {
    play::<Brand, HostRuntime>(
        &rt,
        Blank::new(1),
        Blank::new(1),
        Blank::new(1),
        Blank::new(1),
    )
}

fn play<L: Ledgers, R: Input + Print + AllocGlobal>(
    rt: &R,
    evaluated: Blank,
    styled: Blank,
    laid: Blank,
    painted: Blank,
) -> anyhow::Result<()>
    requires evaluated { (evaluated.name ≡ L.evaluated_name) × (evaluated.parts ≡ 1) }
    requires styled { (styled.name ≡ L.styled_name) × (styled.parts ≡ 1) }
    requires laid { (laid.name ≡ L.laid_name) × (laid.parts ≡ 1) }
    requires painted { (painted.name ≡ L.painted_name) × (painted.parts ≡ 1) }
{
    let mut work: Work<L> = Work::new(evaluated, styled, laid, painted);
    let mut scenery = Scenery::new(rt.alloc());
    let played = play_lines(rt, &mut scenery, &mut work);
    // The process ends right after this, so nothing of the scene is freed.
    forget(scenery);
    played
}

fn play_lines<L: Ledgers, R: Input + Print + AllocGlobal>(
    rt: &R,
    scenery: &mut Scenery,
    work: &mut Work<L>,
) -> anyhow::Result<()> {
    for line in rt.lines(rt.alloc()) {
        let line = line?;
        play_line(rt, scenery, line.as_str(), work)?;
    }
    Ok(())
}

fn play_line<L: Ledgers, R: Print + AllocGlobal>(
    rt: &R,
    scenery: &mut Scenery,
    line: &str,
    work: &mut Work<L>,
) -> anyhow::Result<()> {
    let mut answer = String::new(rt.alloc());
    scenery.carry_out(rt.alloc(), line, &mut answer, work)?;
    rt.print(answer.as_str())?;
    Ok(())
}
