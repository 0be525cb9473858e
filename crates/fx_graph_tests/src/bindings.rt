//! Bindings as they are read and refused. What is done with a graph stands in functions that are lent it.
ghost use Rattle.std.specs.Prelude.{◌≡◌, ◌≤◌, ◌+◌, OnOk, length};

use fx_base::{Kind, Ledgers, Name, Value, Work};
use fx_expr::read_expr;
use fx_graph::*;
use fx_graph_model::{Formula, GraphError};
use std::alloc::Global;
use std::marker::Brand;
use std::sync::ledger::Blank;

/// Declares numbers of these values, under names that rise.
fn declare_all(alloc: Global, graph: &mut Graph, values: &[i64]) -> bool {
    for value in values {
        if graph
            .declare(alloc, Kind::Int, false, Value::Int(*value))
            .is_err()
        {
            return false;
        }
    }
    true
}

/// Binds the property to what the text says, over these names in the order of its paths.
fn bound(
    alloc: Global,
    graph: &mut Graph,
    name: Name,
    text: &str,
    operands: &[Name],
) -> Result<(), GraphError> {
    let Ok(parsed) = read_expr(alloc, text) else {
        return Err(GraphError::Unknown(name));
    };
    if operands.len() != parsed.paths.as_slice().len() {
        return Err(GraphError::Unknown(name));
    }
    let operands = Vec::from_slice(alloc, operands)?;
    let formula = Formula::new(alloc, parsed.expr)?;
    graph.bind(alloc, name, formula, operands)
}

/// Reads the property twice. At most each name is evaluated once, and none again.
fn read_twice<L: Ledgers>(
    alloc: Global,
    graph: &mut Graph,
    name: Name,
    work: &mut Work<L>,
) -> Result<Value, GraphError>
    ensures { OnOk result (work.new.evaluated ≤ work.old.evaluated + length graph.old.entries) }
{
    graph.read(alloc, name, work)?;
    graph.read(alloc, name, work)
}

fn reads<L: Ledgers>(alloc: Global, graph: &mut Graph, expected: i64, work: &mut Work<L>) -> bool {
    match read_twice(alloc, graph, Name(3), work) {
        Ok(value) => value == Value::Int(expected),
        Err(_) => false,
    }
}

/// Sets the first number, so that these names become unread.
fn sets(alloc: Global, graph: &mut Graph, value: i64, newly: &[Name]) -> bool {
    graph
        .set_group(alloc, &[(Name(0), Value::Int(value))])
        .is_ok()
        && graph.newly() == newly
}

/// Four numbers, of which the last is the sum of two that read the first.
fn bind_sums(alloc: Global, graph: &mut Graph) -> bool {
    declare_all(alloc, graph, &[1, 0, 0, 0])
        && bound(alloc, graph, Name(1), "s + 1", &[Name(0)]).is_ok()
        && bound(alloc, graph, Name(2), "s * 2", &[Name(0)]).is_ok()
        && bound(alloc, graph, Name(3), "a + b", &[Name(1), Name(2)]).is_ok()
}

fn reads_what_is_set<L: Ledgers>(alloc: Global, graph: &mut Graph, work: &mut Work<L>) -> bool {
    let all = [Name(0), Name(1), Name(2), Name(3)];
    reads(alloc, graph, 4, work)
        && sets(alloc, graph, 2, &all)
        && reads(alloc, graph, 7, work)
        && sets(alloc, graph, 4, &all)
        && sets(alloc, graph, 5, &[])
        && reads(alloc, graph, 16, work)
}

fn follow<L: Ledgers>(
    alloc: Global,
    graph: &mut Graph,
    evaluated: Blank,
    styled: Blank,
    laid: Blank,
    painted: Blank,
) -> bool
    requires evaluated { (evaluated.name ≡ L.evaluated_name) × (evaluated.parts ≡ 1) }
    requires styled { (styled.name ≡ L.styled_name) × (styled.parts ≡ 1) }
    requires laid { (laid.name ≡ L.laid_name) × (laid.parts ≡ 1) }
    requires painted { (painted.name ≡ L.painted_name) × (painted.parts ≡ 1) }
{
    let mut work: Work<L> = Work::new(evaluated, styled, laid, painted);
    bind_sums(alloc, graph) && reads_what_is_set(alloc, graph, &mut work)
}

#[test]
fn follows_what_it_reads(rt: HostRuntime) {
    let mut graph = Graph::new(rt.alloc());
    assert!(rt;
        follow::<Brand>(
            rt.alloc(),
            &mut graph,
            Blank::new(1),
            Blank::new(1),
            Blank::new(1),
            Blank::new(1),
        )
    );
}

/// Two numbers, of which the first reads the second: no circle is bound, and no truth to a number.
fn refuses(alloc: Global, graph: &mut Graph) -> bool {
    declare_all(alloc, graph, &[1, 2])
        && bound(alloc, graph, Name(0), "b", &[Name(1)]).is_ok()
        && bound(alloc, graph, Name(1), "a + 1", &[Name(0)]) == Err(GraphError::Cycle(Name(0)))
        && bound(alloc, graph, Name(1), "1 < 2", &[]) == Err(GraphError::WrongKind(Name(1)))
        && graph.newly() == [Name(0)].as_slice()
}

#[test]
fn refuses_bindings(rt: HostRuntime) {
    let mut graph = Graph::new(rt.alloc());
    assert!(rt; refuses(rt.alloc(), &mut graph));
}
