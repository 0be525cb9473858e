//! Carries out commands on a store of properties, a line each, and prints what each answered, what it told, and a flag
//! for each property that says whether it is unread. Its input and output are a test of the store.
#![tactic(auto)]

mod answers;
mod commands;
mod words;

ghost use Rattle.std.specs.Prelude.{◌≡◌};

use answers::flags_of;
use commands::{Run, carry_out};
use fx_base::{Ledgers, Work};
use std::marker::Brand;
use std::mem::forget;
use std::sync::ledger::Blank;

fn main(rt: HostRuntime) -> anyhow::Result<()> {
    play::<Brand, HostRuntime>(
        &rt,
        Blank::new(1),
        Blank::new(1),
        Blank::new(1),
        Blank::new(1),
    )
}

fn play<L: Ledgers, R: Input + Print + AllocGlobal>(
    rt: &R,
    evaluated: Blank,
    styled: Blank,
    laid: Blank,
    painted: Blank,
) -> anyhow::Result<()>
    requires evaluated { (evaluated.name ≡ L.evaluated_name) × (evaluated.parts ≡ 1) }
    requires styled { (styled.name ≡ L.styled_name) × (styled.parts ≡ 1) }
    requires laid { (laid.name ≡ L.laid_name) × (laid.parts ≡ 1) }
    requires painted { (painted.name ≡ L.painted_name) × (painted.parts ≡ 1) }
{
    let mut work: Work<L> = Work::new(evaluated, styled, laid, painted);
    let mut run = Run::new(rt.alloc());
    let played = play_lines(rt, &mut run, &mut work);
    // The process ends right after this, so nothing of the store is freed.
    forget(run);
    played
}

fn play_lines<L: Ledgers, R: Input + Print + AllocGlobal>(
    rt: &R,
    run: &mut Run,
    work: &mut Work<L>,
) -> anyhow::Result<()> {
    for line in rt.lines(rt.alloc()) {
        let line = line?;
        play_line(rt, run, line.as_str(), work)?;
    }
    Ok(())
}

fn play_line<L: Ledgers, R: Print + AllocGlobal>(
    rt: &R,
    run: &mut Run,
    line: &str,
    work: &mut Work<L>,
) -> anyhow::Result<()> {
    let answer = carry_out(rt.alloc(), run, line, work)?;
    let flags = flags_of(rt.alloc(), run)?;
    println!(rt; "{answer} unread {flags}")?;
    Ok(())
}
