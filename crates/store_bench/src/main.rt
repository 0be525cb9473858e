//! Sets the first property of a chain of diamonds, with one change listener at its end and many on another property,
//! and others that are joined with it, makes owners that listen and are released, and forgets the properties of nodes,
//! so many times each; it prints how many notices came, or the first refusal. A script counts its instructions; no
//! other crate stands on this one.
#![tactic(auto)]

ghost use Rattle.std.specs.Prelude.{◌≡◌};
ghost use Rattle.fx_store_model.specs.Step.{IsFit};

use anyhow::bail;
use fx_base::{Kind, Ledgers, List, Name, Value, Work};
use fx_expr::read_expr;
use fx_graph_model::Formula;
use fx_listen::ListenKind;
use fx_store::Store;
use fx_store_model::Change;
use std::alloc::Global;
use std::env;
use std::marker::Brand;
use std::mem::forget;
use std::sync::ledger::Blank;

/// How much is built, and how often each thing is done.
#[derive(Clone, Copy)]
struct Task {
    /// So many diamonds stand behind the first property.
    diamonds: u32,
    /// The first property is set to another value.
    sets: u64,
    /// An owner is made, listens and is released.
    owners: u64,
    /// A change listener is added to a property that stays as it is.
    listeners: u32,
    /// A further property is joined with the first one.
    pairs: u32,
    /// A node has twenty properties of its own.
    nodes: u32,
    /// Of the nodes so many lose their properties, in one change.
    dropped: u32,
}

/// How many properties a node has.
const PROPERTIES: u32 = 20;

fn main(rt: HostRuntime) -> anyhow::Result<()> {
    let words = env::args(&rt)?.collect::<Vec<String>>(rt.alloc())?;
    start::<Brand, HostRuntime>(
        &rt,
        words.as_slice(),
        Blank::new(1),
        Blank::new(1),
        Blank::new(1),
        Blank::new(1),
    )
}

/// What the words of the command line ask for.
fn task_of(words: &[String]) -> anyhow::Result<Task> {
    let [
        _,
        diamonds,
        sets,
        owners,
        listeners,
        pairs,
        nodes,
        dropped,
        ..
    ] = words
    else {
        bail!("usage: store_bench DIAMONDS SETS OWNERS LISTENERS PAIRS NODES DROPPED");
    };
    Ok(Task {
        diamonds: count(diamonds)?,
        sets: times(sets)?,
        owners: times(owners)?,
        listeners: count(listeners)?,
        pairs: count(pairs)?,
        nodes: count(nodes)?,
        dropped: count(dropped)?,
    })
}

fn count(word: &String) -> anyhow::Result<u32> {
    Ok(word.as_str().parse::<u32>()?)
}

fn times(word: &String) -> anyhow::Result<u64> {
    Ok(word.as_str().parse::<u64>()?)
}

fn start<L: Ledgers, R: Print + AllocGlobal>(
    rt: &R,
    words: &[String],
    evaluated: Blank,
    styled: Blank,
    laid: Blank,
    painted: Blank,
) -> anyhow::Result<()>
    requires evaluated { (evaluated.name ≡ L.evaluated_name) × (evaluated.parts ≡ 1) }
    requires styled { (styled.name ≡ L.styled_name) × (styled.parts ≡ 1) }
    requires laid { (laid.name ≡ L.laid_name) × (laid.parts ≡ 1) }
    requires painted { (painted.name ≡ L.painted_name) × (painted.parts ≡ 1) }
{
    let mut work: Work<L> = Work::new(evaluated, styled, laid, painted);
    let mut store = Store::new(rt.alloc());
    let done = tell(rt, words, &mut store, &mut work);
    // The process ends right after this, so nothing of the store is freed.
    forget(store);
    done
}

/// Does what the words of the command line ask for, and prints how many notices came.
fn tell<L: Ledgers, R: Print + AllocGlobal>(
    rt: &R,
    words: &[String],
    store: &mut Store,
    work: &mut Work<L>,
) -> anyhow::Result<()> {
    let task = task_of(words)?;
    let notices = carry_out(rt.alloc(), store, task, work)?;
    println!(rt; "{notices}")?;
    Ok(())
}

fn carry_out<L: Ledgers>(
    alloc: Global,
    store: &mut Store,
    task: Task,
    work: &mut Work<L>,
) -> anyhow::Result<usize> {
    let last = build(alloc, store, task.diamonds, work)?;
    let listen = Change::Listen(last, ListenKind::Change, None, 0);
    told(alloc, store, listen, work)?;
    listen_often(alloc, store, task.listeners, work)?;
    pair_often(alloc, store, task.pairs, work)?;
    let notices = set_often(alloc, store, task.sets, work)?;
    own_often(alloc, store, last, task.owners, work)?;
    let names = names_of_dropped(alloc, store, task.nodes, task.dropped)?;
    told(alloc, store, Change::Forget(List::from_vec(names)), work)?;
    Ok(notices)
}

/// Makes the change, and answers how many notices came to change listeners.
fn told<L: Ledgers>(
    alloc: Global,
    store: &mut Store,
    change: Change,
    work: &mut Work<L>,
) -> anyhow::Result<usize>
    requires { IsFit change store.old }
{
    let notices = store.apply(alloc, change, work)?;
    Ok(notices.changed.as_slice().len())
}

/// A further property, of which the value is zero.
fn declared(alloc: Global, store: &mut Store) -> anyhow::Result<Name> {
    Ok(store.declare(alloc, Kind::Int, false, Value::Int(0))?)
}

/// One number, and so many diamonds of three behind one another. Answers the last name.
fn build<L: Ledgers>(
    alloc: Global,
    store: &mut Store,
    diamonds: u32,
    work: &mut Work<L>,
) -> anyhow::Result<Name> {
    let mut last = declared(alloc, store)?;
    for _ in 0..diamonds {
        let left = bound(alloc, store, "a + 1", &[last], work)?;
        let right = bound(alloc, store, "a * 0", &[last], work)?;
        last = bound(alloc, store, "a + b", &[left, right], work)?;
    }
    Ok(last)
}

/// A further property that is bound so.
fn bound<L: Ledgers>(
    alloc: Global,
    store: &mut Store,
    text: &str,
    operands: &[Name],
    work: &mut Work<L>,
) -> anyhow::Result<Name> {
    let name = declared(alloc, store)?;
    let parsed = read_expr(alloc, text)?;
    let operands = Vec::from_slice(alloc, operands)?;
    if operands.len() != parsed.paths.as_slice().len() {
        bail!("each path has one operand");
    }
    let formula = Formula::new(alloc, parsed.expr)?;
    let change = Change::Bind(name, formula, List::from_vec(operands));
    told(alloc, store, change, work)?;
    Ok(name)
}

/// So many change listeners on a property of their own.
fn listen_often<L: Ledgers>(
    alloc: Global,
    store: &mut Store,
    listeners: u32,
    work: &mut Work<L>,
) -> anyhow::Result<()> {
    let name = declared(alloc, store)?;
    for tag in 0..listeners {
        let listen = Change::Listen(name, ListenKind::Change, None, tag);
        told(alloc, store, listen, work)?;
    }
    Ok(())
}

/// So many properties that are joined with the first one.
fn pair_often<L: Ledgers>(
    alloc: Global,
    store: &mut Store,
    pairs: u32,
    work: &mut Work<L>,
) -> anyhow::Result<()> {
    for _ in 0..pairs {
        let name = declared(alloc, store)?;
        told(alloc, store, Change::Pair(name, Name(0)), work)?;
    }
    Ok(())
}

/// Declares the properties of so many nodes, and answers those of the first ones, which are to be dropped.
fn names_of_dropped(
    alloc: Global,
    store: &mut Store,
    nodes: u32,
    dropped: u32,
) -> anyhow::Result<Vec<Name>> {
    let mut names = Vec::new(alloc);
    for node in 0..nodes {
        for _ in 0..PROPERTIES {
            let name = declared(alloc, store)?;
            if node < dropped {
                names.push(name)?;
            }
        }
    }
    Ok(names)
}

fn set_often<L: Ledgers>(
    alloc: Global,
    store: &mut Store,
    rounds: u64,
    work: &mut Work<L>,
) -> anyhow::Result<usize> {
    let mut notices = 0usize;
    for round in 0..rounds {
        let value = Value::Int((round % 1000) as i64 + 1);
        let more = told(alloc, store, Change::Set(Name(0), value), work)?;
        notices = notices.wrapping_add(more);
    }
    Ok(notices)
}

fn own_often<L: Ledgers>(
    alloc: Global,
    store: &mut Store,
    name: Name,
    rounds: u64,
    work: &mut Work<L>,
) -> anyhow::Result<()> {
    for _ in 0..rounds {
        let owner = store.make_owner(alloc)?;
        let listen = Change::Listen(name, ListenKind::Invalid, Some(owner), 0);
        told(alloc, store, listen, work)?;
        store.release_owner(owner);
    }
    Ok(())
}
