//! The end of a binding, and names that are given back.
ghost use Rattle.std.specs.Prelude.{◌≡◌};

use fx_base::{Kind, Ledgers, Name, Value, Work};
use fx_expr::Expr;
use fx_graph::*;
use fx_graph_model::{Formula, GraphError, Origin};
use std::alloc::Global;
use std::marker::Brand;
use std::sync::ledger::Blank;

fn declared(alloc: Global, graph: &mut Graph, value: i64) -> Result<Name, GraphError> {
    graph.declare(alloc, Kind::Int, false, Value::Int(value))
}

/// Binds the one name to the other.
fn bind_to(alloc: Global, graph: &mut Graph, name: Name, other: Name) -> Result<(), GraphError> {
    let operands = Vec::from_slice(alloc, &[other])?;
    let formula = Formula::new(alloc, Expr::Operand(0))?;
    graph.bind(alloc, name, formula, operands)
}

/// Binds the second to the first, ends that, and asks the same of the first, which isn't bound.
fn unbinds<L: Ledgers>(alloc: Global, graph: &mut Graph, work: &mut Work<L>) -> bool {
    let Ok(source) = declared(alloc, graph, 7) else {
        return false;
    };
    let Ok(target) = declared(alloc, graph, 1) else {
        return false;
    };
    bind_to(alloc, graph, target, source).is_ok()
        && graph.unbind(alloc, target, work).is_ok()
        && graph.unbind(alloc, source, work).is_ok()
        && graph.origin(source) == Some(Origin::Initial)
        && keeps(alloc, graph, source, target, work)
}

/// The second has its value still where the first changes.
fn keeps<L: Ledgers>(
    alloc: Global,
    graph: &mut Graph,
    source: Name,
    target: Name,
    work: &mut Work<L>,
) -> bool {
    if graph.set_group(alloc, &[(source, Value::Int(8))]).is_err()
        || graph.is_bound(target)
        || graph.is_unread(target)
        || graph.origin(target) != Some(Origin::Code)
    {
        return false;
    }
    match graph.read(alloc, target, work) {
        Ok(value) => value == Value::Int(7),
        Err(_) => false,
    }
}

fn unbind_both<L: Ledgers>(
    alloc: Global,
    graph: &mut Graph,
    evaluated: Blank,
    styled: Blank,
    laid: Blank,
    painted: Blank,
) -> bool
    requires evaluated { (evaluated.name ≡ L.evaluated_name) × (evaluated.parts ≡ 1) }
    requires styled { (styled.name ≡ L.styled_name) × (styled.parts ≡ 1) }
    requires laid { (laid.name ≡ L.laid_name) × (laid.parts ≡ 1) }
    requires painted { (painted.name ≡ L.painted_name) × (painted.parts ≡ 1) }
{
    let mut work: Work<L> = Work::new(evaluated, styled, laid, painted);
    unbinds(alloc, graph, &mut work)
}

#[test]
fn unbind_keeps_the_value(rt: HostRuntime) {
    let mut graph = Graph::new(rt.alloc());
    assert!(rt;
        unbind_both::<Brand>(
            rt.alloc(),
            &mut graph,
            Blank::new(1),
            Blank::new(1),
            Blank::new(1),
            Blank::new(1),
        )
    );
}

fn forgets(alloc: Global, graph: &mut Graph) -> bool {
    let Ok(source) = declared(alloc, graph, 7) else {
        return false;
    };
    let Ok(target) = declared(alloc, graph, 1) else {
        return false;
    };
    bind_to(alloc, graph, target, source).is_ok()
        && graph.forget(&[source]) == Err(GraphError::InUse(target))
        && graph.forget(&[source, target]) == Ok(())
        && graph.forget(&[target]) == Err(GraphError::Unknown(target))
}

#[test]
fn forgets_what_none_reads(rt: HostRuntime) {
    let mut graph = Graph::new(rt.alloc());
    assert!(rt; forgets(rt.alloc(), &mut graph));
}
