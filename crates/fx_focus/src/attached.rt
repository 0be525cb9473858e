//! Which nodes stand in the scene.
ghost use Rattle.std.specs.Prelude.{◌≡◌};
ghost use Rattle.fx_tree.specs.Scene.{is_same, is_within};
ghost use Rattle.fx_focus.specs.Attached.{is_attached};

use fx_base::NodeKey;
use fx_tree::Tree;

/// Whether the node is the root or stands below it.
#[tactic(auto, unfolding(crate::specs::Attached::is_attached))]
pub fn is_attached(tree: &Tree, key: NodeKey) -> bool
    ensures { result ≡ is_attached tree.now key }
{
    match tree.root() {
        Some(root) => is_within(tree, root, key),
        None => false,
    }
}

fn is_within(tree: &Tree, upper: NodeKey, key: NodeKey) -> bool
    ensures { result ≡ is_within tree.now.nodes upper key }
{
    let mut above = Some(key);
    for _level in 0..64_usize {
        match above {
            Some(node) => {
                if is_same(node, upper) {
                    return true;
                }
                above = tree.parent(node);
            }
            None => return false,
        }
    }
    false
}

/// Whether both keys are of one node.
pub(crate) fn is_same(one: NodeKey, other: NodeKey) -> bool
    ensures { result ≡ is_same one other }
{
    one.slot == other.slot && one.birth == other.birth
}
