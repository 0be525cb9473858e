//! The nodes that stand in the scene, and the properties that a frame reads of them.
ghost use Rattle.std.specs.Prelude.{◌≡◌, ◌≤◌, ◌++◌, ◌&&◌, [], IfOk, IsTrue, OnOk, Some, length, not, take, true};
ghost use Rattle.fx_base.specs.Names.{numbers};
ghost use Rattle.fx_graph_model.specs.Unread.{marked};
ghost use Rattle.fx_base.specs.declared.keys.NodeKey.{NodeKey as Key};
ghost use Rattle.fx_stage_types.specs.Tables.{data_of};
ghost use Rattle.fx_stage_types.specs.declared.node_data.NodeData.{NodeData as Data};
ghost use Rattle.fx_tree.specs.Scene.{IsSound, is_once, subtree};
ghost use Rattle.fx_stage_facts.specs.Attached as spec;
ghost use Rattle.fx_stage_facts.specs.Unread.{unread_in, unread_of};

use crate::places::Places;
use fx_base::{Name, NodeKey};
use fx_kinds::{Property, properties};
use fx_stage_graph::Graph;
use fx_stage_types::NodeData;
use fx_store::Store;
use fx_tree::Tree;
use std::alloc::{AllocError, Global};

/// A node and all below it, in pre-order, each of them once.
fn nodes_below(alloc: Global, tree: &Tree, top: NodeKey) -> Result<Vec<NodeKey>, AllocError>
    requires { IsSound tree.now }
    ensures keys { IfOk result (λ keys. keys.items ≡ subtree tree.now.nodes top) }
    ensures once { IfOk result (λ keys. is_once keys.items ≡ true) }
{
    match tree.subtree(alloc, top) {
        Ok(keys) => Ok(keys),
        Err(_) => Err(AllocError),
    }
}

/// The nodes that stand in the scene, in pre-order, each of them once.
pub(crate) fn attached(alloc: Global, tree: &Tree) -> Result<Vec<NodeKey>, AllocError>
    ensures keys { IfOk result (λ keys. keys.items ≡ spec.keys_in tree.now) }
    ensures once { IfOk result (λ keys. is_once keys.items ≡ true) }
{
    match tree.root() {
        None => Ok(Vec::new(alloc)),
        Some(root) => nodes_below(alloc, tree, root),
    }
}

/// Puts the property of this row behind the others, if it is unread and not one that is only published.
fn push_left(
    names: &mut Vec<Name>,
    store: &Store,
    name: Name,
    row: &Property,
) -> Result<(), AllocError>
    ensures { OnOk result (numbers names.new.items ≡ numbers names.old.items
        ++ spec.one_if (marked store.now.unread name.0 && not row.now.read_only) name.0) }
{
    if !store.is_unread(name) {
        return Ok(());
    }
    if row.read_only {
        return Ok(());
    }
    names.push(name)?;
    Ok(())
}

/// Puts those properties of a node that a frame reads, and that are unread, behind the names.
fn push_unread(names: &mut Vec<Name>, store: &Store, node: &NodeData) -> Result<(), AllocError>
    requires { node.now.first ≤ 4000000 }
    ensures { OnOk result (numbers names.new.items
        ≡ numbers names.old.items ++ unread_in store.now.unread (Some node.now)) }
{
    let first = node.first;
    for (place, row) in properties(node.class).iter().enumerate() {
        let name = Name(first + place as u32);
        push_left(names, store, name, row)?;
    }
    Ok(())
}

/// Is nothing of the node unread that a frame reads? That isn't told of a class without sizes.
#[inline]
pub(crate) fn is_read(store: &Store, places: &Places, node: &NodeData) -> bool
    requires class { places.now ≡ node.now.class }
    requires low { node.now.first ≤ 4000000 }
    ensures { IsTrue result → unread_in store.now.unread (Some node.now) ≡ [] }
{
    let Some(around) = places.around() else {
        return false;
    };
    if store.is_any_unread(Name(node.first), around.front) {
        return false;
    }
    let behind = node.first + around.front as u32 + 2;
    !store.is_any_unread(Name(behind), around.behind)
}

/// Puts those properties of a node that a frame reads, and that are unread, behind the names. Of most nodes there is
/// none.
fn push_if_any(
    names: &mut Vec<Name>,
    store: &Store,
    places: &Places,
    node: &NodeData,
) -> Result<(), AllocError>
    requires class { places.now ≡ node.now.class }
    requires low { node.now.first ≤ 4000000 }
    ensures { OnOk result (numbers names.new.items
        ≡ numbers names.old.items ++ unread_in store.now.unread (Some node.now)) }
{
    if is_read(store, places, node) {
        return Ok(());
    }
    push_unread(names, store, node)
}

/// The same of the node of a key, if there is one.
fn push_unread_at(
    alloc: Global,
    names: &mut Vec<Name>,
    graph: &Graph,
    store: &Store,
    places: &mut Places,
    key: NodeKey,
) -> Result<(), AllocError>
    requires low { (node : Data) → data_of graph.now.table key ≡ Some node → node.first ≤ 4000000 }
    ensures { OnOk result (numbers names.new.items
        ≡ numbers names.old.items ++ unread_in store.now.unread (data_of graph.now.table key)) }
{
    match graph.node(key) {
        None => Ok(()),
        Some(node) => {
            places.turn_to(alloc, node.class)?;
            push_if_any(names, store, places, node)
        }
    }
}

/// Those properties of these nodes that a frame reads, and that are unread, where none of a node before this place is.
pub(crate) fn unread_names(
    alloc: Global,
    graph: &Graph,
    store: &Store,
    places: &mut Places,
    keys: &[NodeKey],
    from: usize,
) -> Result<Vec<Name>, AllocError>
    requires low { (key : Key) (node : Data) → data_of graph.now.table key ≡ Some node → node.first ≤ 4000000 }
    requires within { from ≤ length keys.now }
    requires read { unread_of store.now.unread graph.now.table (take from keys.now) ≡ [] }
    ensures { IfOk result (λ names. numbers names.items ≡ unread_of store.now.unread graph.now.table keys.now) }
{
    let mut names = Vec::new(alloc);
    for place in from..keys.len() {
        push_unread_at(alloc, &mut names, graph, store, places, keys[place])?;
    }
    Ok(names)
}
