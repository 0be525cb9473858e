//! The children of each node, by their places in the list of nodes.
ghost use Rattle.std.specs.Prelude.{ℕ, ◌≡◌, ◌<◌, ◌++◌, ◌∷◌, [], OnOk, IfOk, length, replicate, slice_set};
ghost use Rattle.fx_layout_sweeps.specs.Nodes.{children_lists, hung_at, parents, places_at};

use fx_kinds::BoxFacts;
use std::alloc::{AllocError, Global};
use std::marker::Model;

/// The places of a node's children, in order.
#[derive(Drop)]
pub struct Places {
    items: Vec<usize>,
}

impl Model for Places {
    ghost use Rattle.std.specs.Prelude.{ℕ, List};

    ghost Value = { List ℕ };

    ghost view = { λ places. places.items.items };
}

impl Places {
    /// No children.
    pub fn new(alloc: Global) -> Places
        ensures { result ≡ [] }
    {
        Places {
            items: Vec::new(alloc),
        }
    }

    /// Lends the places.
    pub fn as_slice(&self) -> &[usize]
        ensures { result.now ≡ self.now }
    {
        self.items.as_slice()
    }

    /// Puts a place behind the others.
    pub fn push(&mut self, place: usize) -> Result<(), AllocError>
        ensures { OnOk result (self.new ≡ self.old ++ place ∷ []) }
    {
        self.items.push(place)?;
        Ok(())
    }
}

/// The places of the children of each node.
pub fn children_lists(alloc: Global, nodes: &[BoxFacts]) -> Result<Vec<Places>, AllocError>
    ensures { IfOk result (λ lists. lists.items ≡ children_lists (parents nodes.now)) }
{
    let mut lists = empty_lists(alloc, nodes.len())?;
    for place in 0..nodes.len() {
        hang(&mut lists, nodes[place].parent, place)?;
    }
    Ok(lists)
}

fn empty_lists(alloc: Global, count: usize) -> Result<Vec<Places>, AllocError>
    ensures { IfOk result (λ lists. lists.items ≡ replicate count []) }
{
    let mut lists = Vec::with_capacity(alloc, count)?;
    for place in 0..count {
        lists.push(Places::new(alloc))?;
    }
    Ok(lists)
}

/// Puts a place behind the children of its parent.
fn hang(lists: &mut Vec<Places>, parent: Option<usize>, place: usize) -> Result<(), AllocError>
    ensures each { OnOk result (length lists.new.items ≡ length lists.old.items) }
    ensures hung { OnOk result ((p : ℕ) → p < length lists.old.items
        → places_at lists.new.items p ≡ hung_at lists.old.items parent place p) }
{
    match parent {
        Some(p) => hang_under(lists, p, place),
        None => Ok(()),
    }
}

fn hang_under(lists: &mut Vec<Places>, p: usize, place: usize) -> Result<(), AllocError>
    ensures each { OnOk result (length lists.new.items ≡ length lists.old.items) }
    ensures hung { OnOk result (lists.new.items
        ≡ slice_set lists.old.items p (places_at lists.old.items p ++ place ∷ [])) }
{
    if p < lists.len() {
        lists[p].push(place)
    } else {
        Ok(())
    }
}
