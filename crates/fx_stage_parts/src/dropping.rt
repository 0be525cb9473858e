//! The properties of nodes that end, and the end of the nodes.
ghost use Rattle.std.specs.Prelude.{◌≡◌, ◌≤◌, ◌<◌, ◌++◌, None, OnOk, map};
ghost use Rattle.std.specs.List.{range_with_len};
ghost use Rattle.fx_base.specs.Names.{name_of};
ghost use Rattle.fx_stage_parts.specs.Dropping.{are_gone, dropped_if};
ghost use Rattle.fx_tree.specs.Refusals.{drop_refusal};

use fx_base::{Name, NodeKey};
use fx_stage_graph::Graph;
use fx_store::Store;
use std::alloc::AllocError;

/// Puts so many numbers from this one on behind the others.
pub fn push_range(names: &mut Vec<Name>, first: u32, count: u32) -> Result<(), AllocError>
    requires low { first ≤ 4000000 }
    requires few { count < 100 }
    ensures { OnOk result (names.new.items ≡ names.old.items ++ map name_of (range_with_len first count)) }
{
    for place in 0..count {
        names.push(Name(first + place))?;
    }
    Ok(())
}

/// Whether properties are forgotten, of which this is the first: it is unknown, or there is none and forgetting ended
/// well.
pub fn are_gone(store: &Store, first: Option<Name>, done: bool) -> bool
    ensures { result ≡ are_gone first done store.now.entries }
{
    match first {
        None => done,
        Some(name) => store.kind(name).is_none(),
    }
}

/// Ends the nodes, if it is so.
pub fn drop_if(graph: &mut Graph, so: bool, key: NodeKey, keys: &[NodeKey])
    requires allowed { drop_refusal graph.old.tree key ≡ None }
    ensures { graph.new ≡ dropped_if so key keys.now graph.old }
{
    if !so {
        return;
    }
    match graph.drop_nodes(key, keys) {
        Ok(()) => {}
        Err(_) => unreachable!(),
    }
}
