//! Repaints a window of 1,000 by 1,000 pixels, or works out the damage of a picture whose nodes changed, so many
//! times, and prints a checksum. A script counts its instructions; no other crate stands on this one.
#![tactic(auto)]

mod changes;
mod pictures;

ghost use Rattle.std.specs.Prelude.{◌≡◌};

use anyhow::bail;
use changes::{damaged, edited};
use fx_base::{Ledgers, Rect, Work};
use fx_canvas::Canvas;
use fx_picture::Picture;
use pictures::{Change, Letters, filled, lettered, nothing};
use std::alloc::Global;
use std::env;
use std::marker::Brand;
use std::sync::ledger::Blank;

/// What is painted, or the damage.
#[derive(Clone, Copy)]
enum Task {
    White,
    Fill,
    Blend,
    Lettered(Letters),
    Damage(Change),
    Edits(Change),
}

/// The words for what is painted, or for which the damage is found.
const TASKS: &str =
    "white|fill|blend|letters|small-letters|tiny-letters|damage|edits|falling|falling-edits";

/// How many columns and rows the window has.
const SIDE: u32 = 1000;

/// How many nodes show, where no word says so.
const COUNT: u32 = 4000;

/// Letters of which each bit is four pixels wide, two, and one.
const LARGE: Letters = Letters {
    scale: 4,
    lines: 42,
    texts: 1,
};

const SMALL: Letters = Letters {
    scale: 2,
    lines: 84,
    texts: 2,
};

const TINY: Letters = Letters {
    scale: 1,
    lines: 168,
    texts: 4,
};

fn main(rt: HostRuntime) -> anyhow::Result<()> {
    let mut words = env::args(&rt)?;
    let _program = words.next();
    let (Some(task), Some(rounds)) = (words.next(), words.next()) else {
        bail!("usage: canvas_bench {} ROUNDS [COUNT]", TASKS);
    };
    let rounds = rounds.as_str().parse::<u32>()?;
    let count = match words.next() {
        Some(word) => word.as_str().parse::<u32>()?,
        None => COUNT,
    };
    let sum = start::<Brand>(
        rt.alloc(),
        task_of(task.as_str(), count),
        rounds,
        Blank::new(1),
        Blank::new(1),
        Blank::new(1),
        Blank::new(1),
    )?;
    println!(rt; "{sum}")?;
    Ok(())
}

fn task_of(word: &str, count: u32) -> Task {
    match word {
        "damage" => Task::Damage(one_of(count)),
        "edits" => Task::Edits(one_of(count)),
        "falling" => Task::Damage(all_falling(count)),
        "falling-edits" => Task::Edits(all_falling(count)),
        "fill" => Task::Fill,
        "blend" => Task::Blend,
        "letters" => Task::Lettered(LARGE),
        "small-letters" => Task::Lettered(SMALL),
        "tiny-letters" => Task::Lettered(TINY),
        _ => Task::White,
    }
}

fn one_of(count: u32) -> Change {
    Change {
        count,
        falling: false,
    }
}

fn all_falling(count: u32) -> Change {
    Change {
        count,
        falling: true,
    }
}

fn start<L: Ledgers>(
    alloc: Global,
    task: Task,
    rounds: u32,
    evaluated: Blank,
    styled: Blank,
    laid: Blank,
    painted: Blank,
) -> anyhow::Result<u32>
    requires evaluated { (evaluated.name ≡ L.evaluated_name) × (evaluated.parts ≡ 1) }
    requires styled { (styled.name ≡ L.styled_name) × (styled.parts ≡ 1) }
    requires laid { (laid.name ≡ L.laid_name) × (laid.parts ≡ 1) }
    requires painted { (painted.name ≡ L.painted_name) × (painted.parts ≡ 1) }
{
    let mut work: Work<L> = Work::new(evaluated, styled, laid, painted);
    match task {
        Task::Damage(change) => damaged(alloc, change, rounds),
        Task::Edits(change) => edited(alloc, change, rounds),
        Task::Fill => painted_often(alloc, &filled(alloc, 255)?, rounds, &mut work),
        Task::Blend => painted_often(alloc, &filled(alloc, 128)?, rounds, &mut work),
        Task::Lettered(letters) => painted_often(
            alloc,
            &lettered(alloc, letters)?,
            rounds,
            &mut work,
        ),
        Task::White => painted_often(alloc, &nothing(alloc), rounds, &mut work),
    }
}

fn painted_often<L: Ledgers>(
    alloc: Global,
    picture: &Picture,
    rounds: u32,
    work: &mut Work<L>,
) -> anyhow::Result<u32> {
    let mut canvas = Canvas::new(alloc, SIDE, SIDE)?;
    let all = [Rect {
        x: 0,
        y: 0,
        w: i64::from(SIDE),
        h: i64::from(SIDE),
    }];
    for _ in 0..rounds {
        if !canvas.has_all(&all) {
            bail!("outside the window");
        }
        canvas.repaint(picture, &all, work);
    }
    Ok(checksum(&canvas))
}

fn checksum(canvas: &Canvas) -> u32 {
    let mut sum = 0u32;
    for y in 0..canvas.height() {
        for pixel in canvas.row(y) {
            sum = sum.wrapping_mul(31).wrapping_add(*pixel);
        }
    }
    sum
}
