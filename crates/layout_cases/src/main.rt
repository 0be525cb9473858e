//! Measures panes and places their children, a line each, and prints the sizes and the rectangles. Its input and output
//! are a test of all panes: the output was computed by another program.
//!
//! A line is the class of a pane, its width and its height, and then its facts; behind semicolons stand its tracks, its
//! children and its text, as in `HBox 10 1 s1;child g2;child b3 g1`. A fact is a letter and a number; reading.rt has
//! the letters.
#![tactic(auto)]

mod answers;
mod reading;

ghost use Rattle.std.specs.Prelude.{◌≡◌};

use answers::answer;
use fx_base::{Ledgers, Work};
use reading::read_case;
use std::marker::Brand;
use std::sync::ledger::Blank;

fn main(rt: HostRuntime) -> anyhow::Result<()> {
    play::<Brand, HostRuntime>(
        &rt,
        Blank::new(1),
        Blank::new(1),
        Blank::new(1),
        Blank::new(1),
    )
}

fn play<L: Ledgers, R: Input + Print + AllocGlobal>(
    rt: &R,
    evaluated: Blank,
    styled: Blank,
    laid: Blank,
    painted: Blank,
) -> anyhow::Result<()>
    requires evaluated { (evaluated.name ≡ L.evaluated_name) × (evaluated.parts ≡ 1) }
    requires styled { (styled.name ≡ L.styled_name) × (styled.parts ≡ 1) }
    requires laid { (laid.name ≡ L.laid_name) × (laid.parts ≡ 1) }
    requires painted { (painted.name ≡ L.painted_name) × (painted.parts ≡ 1) }
{
    let alloc = rt.alloc();
    let mut work: Work<L> = Work::new(evaluated, styled, laid, painted);
    for line in rt.lines(alloc) {
        let line = line?;
        let case = read_case(alloc, line.as_str())?;
        let text = answer(alloc, &case, &mut work)?;
        rt.println(text.as_str())?;
    }
    Ok(())
}
