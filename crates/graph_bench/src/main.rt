//! Builds properties that are bound in a chain or to one name, or stand apart, and changes, reads and binds them, so
//! many times each; it prints a checksum, or the first refusal of what is built. A script counts its instructions; no
//! other crate stands on this one.
#![tactic(auto)]

ghost use Rattle.std.specs.Prelude.{◌≡◌};

use anyhow::bail;
use fx_base::{Kind, Ledgers, Name, Value, Work};
use fx_expr::read_expr;
use fx_graph::Graph;
use fx_graph_model::Formula;
use std::alloc::Global;
use std::env;
use std::marker::Brand;
use std::sync::ledger::Blank;

/// What the names but the first are bound to.
#[derive(Clone, Copy)]
enum Shape {
    /// Each to the one before it.
    Chain,
    /// All to the first.
    Star,
    /// None of them to any.
    Apart,
}

/// How often each thing is done.
#[derive(Clone, Copy)]
struct Rounds {
    /// The first name is set, and the last one read.
    sets: u64,
    /// The last name is read, which isn't unread.
    reads: u64,
    /// The first name is bound to the last one, which is refused unless the names stand apart.
    binds: u64,
}

fn main(rt: HostRuntime) -> anyhow::Result<()> {
    let mut words = env::args(&rt)?;
    let _program = words.next();
    let (Some(shape), Some(names), Some(sets), Some(reads), Some(binds)) = (
        words.next(),
        words.next(),
        words.next(),
        words.next(),
        words.next(),
    ) else {
        bail!("usage: graph_bench chain|star|apart NAMES SETS READS BINDS");
    };
    let shape = shape_of(shape.as_str());
    let names = names.as_str().parse::<u32>()?;
    let rounds = Rounds {
        sets: sets.as_str().parse::<u64>()?,
        reads: reads.as_str().parse::<u64>()?,
        binds: binds.as_str().parse::<u64>()?,
    };
    let sum = start::<Brand>(
        rt.alloc(),
        shape,
        names,
        rounds,
        Blank::new(1),
        Blank::new(1),
        Blank::new(1),
        Blank::new(1),
    )?;
    println!(rt; "{sum}")?;
    Ok(())
}

fn shape_of(word: &str) -> Shape {
    match word {
        "chain" => Shape::Chain,
        "star" => Shape::Star,
        _ => Shape::Apart,
    }
}

fn start<L: Ledgers>(
    alloc: Global,
    shape: Shape,
    names: u32,
    rounds: Rounds,
    evaluated: Blank,
    styled: Blank,
    laid: Blank,
    painted: Blank,
) -> anyhow::Result<i64>
    requires evaluated { (evaluated.name ≡ L.evaluated_name) × (evaluated.parts ≡ 1) }
    requires styled { (styled.name ≡ L.styled_name) × (styled.parts ≡ 1) }
    requires laid { (laid.name ≡ L.laid_name) × (laid.parts ≡ 1) }
    requires painted { (painted.name ≡ L.painted_name) × (painted.parts ≡ 1) }
{
    let mut work: Work<L> = Work::new(evaluated, styled, laid, painted);
    let mut graph = Graph::new(alloc);
    let last = build(alloc, &mut graph, shape, names)?;
    graph.read(alloc, last, &mut work)?;
    let set = set_and_read(alloc, &mut graph, last, rounds.sets, &mut work)?;
    let read = read_often(alloc, &mut graph, last, rounds.reads, &mut work)?;
    bind_often(alloc, &mut graph, last, rounds.binds)?;
    Ok(set.wrapping_add(read))
}

/// One number, and so many behind it that are bound as their shape has it. Answers the last name.
fn build(alloc: Global, graph: &mut Graph, shape: Shape, names: u32) -> anyhow::Result<Name> {
    let first = graph.declare(alloc, Kind::Int, false, Value::Int(0))?;
    let mut last = first;
    for _ in 0..names {
        let name = graph.declare(alloc, Kind::Int, false, Value::Int(0))?;
        let taken = match shape {
            Shape::Chain => bind(alloc, graph, name, last)?,
            Shape::Star => bind(alloc, graph, name, first)?,
            Shape::Apart => true,
        };
        if !taken {
            bail!("a binding was refused");
        }
        last = name;
    }
    Ok(last)
}

/// Binds the name to the operand and one, and answers whether that was allowed.
fn bind(alloc: Global, graph: &mut Graph, name: Name, operand: Name) -> anyhow::Result<bool> {
    let next = read_expr(alloc, "a + 1")?;
    let operands = Vec::from_slice(alloc, &[operand])?;
    if operands.len() != next.paths.as_slice().len() {
        bail!("the expression reads one name");
    }
    let formula = Formula::new(alloc, next.expr)?;
    Ok(graph.bind(alloc, name, formula, operands).is_ok())
}

fn set_and_read<L: Ledgers>(
    alloc: Global,
    graph: &mut Graph,
    last: Name,
    rounds: u64,
    work: &mut Work<L>,
) -> anyhow::Result<i64> {
    let mut sum = 0i64;
    for round in 0..rounds {
        graph.set_group(alloc, &[(Name(0), Value::Int((round % 1000) as i64 + 1))])?;
        sum = sum.wrapping_add(number(&graph.read(alloc, last, work)?));
    }
    Ok(sum)
}

fn read_often<L: Ledgers>(
    alloc: Global,
    graph: &mut Graph,
    last: Name,
    rounds: u64,
    work: &mut Work<L>,
) -> anyhow::Result<i64> {
    let mut sum = 0i64;
    for _ in 0..rounds {
        sum = sum.wrapping_add(number(&graph.read(alloc, last, work)?));
    }
    Ok(sum)
}

fn number(value: &Value) -> i64 {
    match value {
        Value::Int(number) => *number,
        _ => 0,
    }
}

fn bind_often(alloc: Global, graph: &mut Graph, last: Name, rounds: u64) -> anyhow::Result<()> {
    for _ in 0..rounds {
        bind(alloc, graph, Name(0), last)?;
    }
    Ok(())
}
