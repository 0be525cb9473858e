//! The nodes that the pointer left, and those that it came to.
ghost use Rattle.std.specs.Prelude.{◌≡◌, IfOk, filter, not, reverse};
ghost use Rattle.std.specs.List.{list_any};
ghost use Rattle.fx_tree.specs.Scene.{is_same};
ghost use Rattle.fx_focus.specs.Hover.{has_key, missing};

use crate::attached::is_same;
use fx_base::{List, NodeKey};
use std::alloc::{AllocError, Global};

/// The nodes that the pointer isn't over any more, the deepest first, and those that it came to, the outermost first.
#[derive(Drop)]
pub struct HoverChange {
    pub left: List<NodeKey>,
    pub came: List<NodeKey>,
}

/// What changes between two chains of nodes, each from the outermost to the deepest, in the order of events.
pub fn hover_change(
    alloc: Global,
    old: &[NodeKey],
    new: &[NodeKey],
) -> Result<HoverChange, AllocError>
    ensures left { IfOk result (λ change. change.left ≡ reverse (missing old.now new.now)) }
    ensures came { IfOk result (λ change. change.came ≡ missing new.now old.now) }
{
    let mut left = missing(alloc, old, new)?;
    left.reverse();
    let came = missing(alloc, new, old)?;
    Ok(HoverChange {
        left: List::from_vec(left),
        came: List::from_vec(came),
    })
}

/// The keys that the others don't have.
fn missing(alloc: Global, keys: &[NodeKey], others: &[NodeKey]) -> Result<Vec<NodeKey>, AllocError>
    ensures { IfOk result (λ found. found.items ≡ missing keys.now others.now) }
{
    let mut found = Vec::new(alloc);
    for key in keys {
        if !has_key(others, *key) {
            found.push(*key)?;
        }
    }
    Ok(found)
}

fn has_key(keys: &[NodeKey], key: NodeKey) -> bool
    ensures { result ≡ has_key keys.now key }
{
    keys.iter().any(|other| is_same(*other, key))
}
