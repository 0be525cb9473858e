//! Where the nodes of a scene stand among each other.
ghost use Rattle.std.specs.Prelude.{◌≡◌, IfSome, Some};
ghost use Rattle.std.specs.List.{position};
ghost use Rattle.fx_tree.specs.Scene.{is_same, parent_of};
ghost use Rattle.fx_stage_facts.specs.Stands as spec;
ghost use Rattle.fx_stage_facts.specs.Values.{is_set_disabled as disabled_of};

use fx_base::NodeKey;
use fx_stage::Stage;
use fx_tree::Tree;

/// A node in a list: its key, the place of its parent in the list, and whether it or an ancestor is disabled.
#[derive(Clone, Copy)]
pub struct Stand {
    pub key: NodeKey,
    pub parent: Option<usize>,
    pub disabled: bool,
}

/// Are the keys those of one node?
pub(crate) fn is_same(one: NodeKey, other: NodeKey) -> bool
    ensures { result ≡ is_same one other }
{
    one.slot == other.slot && one.birth == other.birth
}

/// The place of the node of this key, if it is the last of the nodes or stands above the last one, as the parent of the
/// next node in pre-order does.
#[tactic(auto, using(crate::proofs::PlaceLemmas::only_place))]
fn place_above_last(stands: &[Stand], key: NodeKey) -> Option<usize>
    requires { spec.AreOnce stands.now }
    ensures { IfSome result (λ place. position (λ stand. is_same stand.key key) stands.now ≡ Some place) }
{
    let mut at = stands.len().checked_sub(1);
    for _step in 0..64 {
        let Some(place) = at else {
            return None;
        };
        let Some(stand) = stands.get(place) else {
            return None;
        };
        if is_same(stand.key, key) {
            return Some(place);
        }
        at = stand.parent;
    }
    None
}

fn place_in(stands: &[Stand], key: NodeKey) -> Option<usize>
    requires { spec.AreOnce stands.now }
    ensures { result ≡ position (λ stand. is_same stand.key key) stands.now }
{
    match place_above_last(stands, key) {
        Some(place) => Some(place),
        None => stands.iter().position(|stand| is_same(stand.key, key)),
    }
}

/// The place of a node's parent among the nodes.
fn parent_place(tree: &Tree, stands: &[Stand], key: NodeKey) -> Option<usize>
    requires { spec.AreOnce stands.now }
    ensures { result ≡ spec.place_of stands.now (parent_of tree.now.nodes key) }
{
    match tree.parent(key) {
        None => None,
        Some(parent) => place_in(stands, parent),
    }
}

fn is_disabled_at(stands: &[Stand], parent: Option<usize>) -> bool
    ensures { result ≡ spec.is_disabled_at stands.now parent }
{
    match parent {
        None => false,
        Some(place) => match stands.get(place) {
            None => false,
            Some(stand) => stand.disabled,
        },
    }
}

/// Where a further node stands, which is disabled itself or isn't.
pub(crate) fn stand_of(stage: &Stage, stands: &[Stand], key: NodeKey, own: bool) -> Stand
    requires own { own ≡ disabled_of stage.now key }
    requires once { spec.AreOnce stands.now }
    ensures { result ≡ spec.stand_of stage.now stands.now key }
{
    let parent = parent_place(stage.graph().tree(), stands, key);
    Stand {
        key,
        parent,
        disabled: own || is_disabled_at(stands, parent),
    }
}
