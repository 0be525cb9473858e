//! The route of an event through the tree. Who sends an event goes down it with the filters and up it with the
//! handlers.
ghost use Rattle.std.specs.Prelude.{◌≡◌, ◌++◌, OnOk, IfOk};
ghost use Rattle.fx_tree.specs.Scene.{line, path};
ghost use Rattle.fx_events.specs.Routes.{route_of};

use crate::EventKind;
use fx_base::NodeKey;
use fx_tree::Tree;
use smallvec::SmallVec;
use std::alloc::{AllocError, Global};

/// The most nodes on a way from a topmost node down.
const MOST_DEEP: usize = 64;

/// The nodes that an event passes, from the topmost ancestor of its target down to the target; of an entered or exited
/// event the target alone, and none where the target is dead. Up to 16 nodes stand in the value itself.
pub fn route(
    alloc: Global,
    tree: &Tree,
    on: EventKind,
    target: NodeKey,
) -> Result<SmallVec<NodeKey, 16, Global>, AllocError>
    ensures { IfOk result (λ nodes. nodes.items ≡ route_of tree.now.nodes on target) }
{
    if !tree.is_alive(target) {
        return Ok(SmallVec::new(alloc));
    }
    if on.is_of_one_node() {
        return SmallVec::from_slice(alloc, &[target]);
    }
    path_to(alloc, tree, target)
}

fn path_to(
    alloc: Global,
    tree: &Tree,
    target: NodeKey,
) -> Result<SmallVec<NodeKey, 16, Global>, AllocError>
    ensures { IfOk result (λ nodes. nodes.items ≡ path tree.now.nodes target) }
{
    let mut nodes = SmallVec::new(alloc);
    push_line(tree, target, &mut nodes)?;
    nodes.as_mut_slice().reverse();
    Ok(nodes)
}

/// Puts the target and its ancestors behind the nodes, the topmost last.
fn push_line(
    tree: &Tree,
    target: NodeKey,
    nodes: &mut SmallVec<NodeKey, 16, Global>,
) -> Result<(), AllocError>
    ensures { OnOk result (nodes.new.items ≡ nodes.old.items ++ line tree.now.nodes target) }
{
    let mut at = Some(target);
    for _step in 0..MOST_DEEP {
        let here = match at {
            None => return Ok(()),
            Some(here) => here,
        };
        nodes.push(here)?;
        at = tree.parent(here);
    }
    Ok(())
}
