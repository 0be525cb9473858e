//! The tree of nodes, kept from one update to the next while it stays the same.
ghost use Rattle.std.specs.Prelude.{◌≡◌, [], true, IfOk, length, unwrap_or};
ghost use Rattle.fx_layout_sweeps.specs.Nodes.{children_lists, keys, parents};

use fx_base::NodeKey;
use fx_kinds::BoxFacts;
use fx_layout_sweeps::{Places, children_lists};
use std::alloc::{AllocError, Global};
use std::marker::Model;

/// The parent of each node, and the places of its children.
#[derive(Drop)]
pub(crate) struct Tree {
    parents: Vec<Option<usize>>,
    children: Vec<Places>,
}

impl Model for Tree {
    ghost use Rattle.std.specs.Prelude.{◌≡◌};
    ghost use Rattle.fx_layout_sweeps.specs.Nodes.{Parents, children_lists};

    ghost Value = { Parents };

    ghost view = { λ t. t.parents.items };

    ghost invariant = { λ t. t.children.items ≡ children_lists t.parents.items };
}

impl Tree {
    /// No nodes.
    pub(crate) fn new(alloc: Global) -> Tree
        ensures { result ≡ [] }
    {
        Tree {
            parents: Vec::new(alloc),
            children: Vec::new(alloc),
        }
    }

    fn of(alloc: Global, nodes: &[BoxFacts]) -> Result<Tree, AllocError>
        ensures { IfOk result (λ tree. tree ≡ parents nodes.now) }
    {
        Ok(Tree {
            parents: parents_of(alloc, nodes)?,
            children: children_lists(alloc, nodes)?,
        })
    }

    /// The places of the children of each node.
    pub(crate) fn children(&self) -> &[Places]
        ensures { result.now ≡ children_lists self.now }
    {
        self.children.as_slice()
    }

    /// Are this the tree and these the keys of the nodes?
    pub(crate) fn is_over(&self, kept: &[NodeKey], nodes: &[BoxFacts]) -> bool
        ensures tree { result ≡ true → self.now ≡ parents nodes.now }
        ensures keys { result ≡ true → kept.now ≡ keys nodes.now }
    {
        self.parents.len() == nodes.len()
            && kept.len() == nodes.len()
            && are_heads(self.parents.as_slice(), kept, nodes)
    }

    /// Is this the tree of these nodes?
    fn is_of(&self, nodes: &[BoxFacts]) -> bool
        ensures { result ≡ true → self.now ≡ parents nodes.now }
    {
        self.parents.len() == nodes.len() && are_parents(self.parents.as_slice(), nodes)
    }
}

fn parents_of(alloc: Global, nodes: &[BoxFacts]) -> Result<Vec<Option<usize>>, AllocError>
    ensures { IfOk result (λ made. made.items ≡ parents nodes.now) }
{
    let mut parents = Vec::with_capacity(alloc, nodes.len())?;
    for node in nodes {
        parents.push(node.parent)?;
    }
    Ok(parents)
}

/// Are these the parents and the keys of the nodes?
fn are_heads(ups: &[Option<usize>], kept: &[NodeKey], nodes: &[BoxFacts]) -> bool
    requires ups { length ups.now ≡ length nodes.now }
    requires kept { length kept.now ≡ length nodes.now }
    ensures parents { result ≡ true → ups.now ≡ parents nodes.now }
    ensures keys { result ≡ true → kept.now ≡ keys nodes.now }
{
    for place in 0..nodes.len() {
        let node = &nodes[place];
        if kept[place] != node.key || ups[place] != node.parent {
            return false;
        }
    }
    true
}

/// Are these the parents of the first nodes?
fn are_parents(ups: &[Option<usize>], nodes: &[BoxFacts]) -> bool
    requires { length ups.now ≡ length nodes.now }
    ensures { result ≡ true → ups.now ≡ parents nodes.now }
{
    for place in 0..nodes.len() {
        if ups[place] != nodes[place].parent {
            return false;
        }
    }
    true
}

/// The tree of these nodes, if it is another than the one that is kept.
pub(crate) fn fresh_tree(
    alloc: Global,
    kept: &Tree,
    nodes: &[BoxFacts],
) -> Result<Option<Tree>, AllocError>
    ensures { IfOk result (λ tree. unwrap_or tree kept.now ≡ parents nodes.now) }
{
    if kept.is_of(nodes) {
        return Ok(None);
    }
    Ok(Some(Tree::of(alloc, nodes)?))
}

/// The fresh tree, or else the kept one.
pub(crate) fn tree_in<'a>(fresh: &'a Option<Tree>, kept: &'a Tree) -> &'a Tree
    ensures { result.now ≡ unwrap_or fresh.now kept.now }
{
    match fresh {
        Some(tree) => tree,
        None => kept,
    }
}
