//! Styles the nodes of a scene, each by ten rules, so many times, or updates their looks where nothing is to be styled
//! anew, or only searches the rules, or styles labels by one rule and a width that changes, and prints a checksum. A
//! script counts its instructions; no other crate stands on this one.
#![tactic(auto)]

ghost use Rattle.std.specs.Prelude.{◌≡◌};

mod nodes;
mod rounds;
mod sheets;

use anyhow::bail;
use fx_base::{Ledgers, Work};
use rounds::{Rounds, Task, play};
use sheets::sheets;
use std::env;
use std::marker::Brand;
use std::mem::forget;
use std::sync::ledger::Blank;

fn main(rt: HostRuntime) -> anyhow::Result<()> {
    let words = env::args(&rt)?.collect::<Vec<String>>(rt.alloc())?;
    start::<Brand, HostRuntime>(
        &rt,
        words.as_slice(),
        Blank::new(1),
        Blank::new(1),
        Blank::new(1),
        Blank::new(1),
    )
}

/// What the words of the command line ask for.
fn rounds_of(words: &[String]) -> anyhow::Result<Rounds> {
    let [_, task, nodes, count, ..] = words else {
        bail!("usage: style_bench search|style|mixed|keep|labels NODES ROUNDS");
    };
    Ok(Rounds {
        task: task_of(task.as_str()),
        nodes: nodes.as_str().parse::<u32>()?,
        count: count.as_str().parse::<u64>()?,
    })
}

fn task_of(word: &str) -> Task {
    match word {
        "search" => Task::Search,
        "style" => Task::Style,
        "mixed" => Task::Mixed,
        "labels" => Task::Labels,
        _ => Task::Keep,
    }
}

fn start<L: Ledgers, R: Print + AllocGlobal>(
    rt: &R,
    words: &[String],
    evaluated: Blank,
    styled: Blank,
    laid: Blank,
    painted: Blank,
) -> anyhow::Result<()>
    requires evaluated { (evaluated.name ≡ L.evaluated_name) × (evaluated.parts ≡ 1) }
    requires styled { (styled.name ≡ L.styled_name) × (styled.parts ≡ 1) }
    requires laid { (laid.name ≡ L.laid_name) × (laid.parts ≡ 1) }
    requires painted { (painted.name ≡ L.painted_name) × (painted.parts ≡ 1) }
{
    let mut work: Work<L> = Work::new(evaluated, styled, laid, painted);
    tell(rt, words, &mut work)
}

/// Does what the words of the command line ask for, and prints the checksum.
fn tell<L: Ledgers, R: Print + AllocGlobal>(
    rt: &R,
    words: &[String],
    work: &mut Work<L>,
) -> anyhow::Result<()> {
    let rounds = rounds_of(words)?;
    let sheets = sheets(rt.alloc())?;
    let played = play(rt.alloc(), sheets.as_slice(), rounds, work);
    // The process ends right after this, so nothing of the sheet is freed.
    forget(sheets);
    let sum = played?;
    println!(rt; "{sum}")?;
    Ok(())
}
