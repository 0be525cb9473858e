//! Nodes of the stage that event lines look for.
ghost use Rattle.std.specs.Prelude.{◌≡◌, IfOk, IfSome, true};
ghost use Rattle.std.specs.Option.{option_copied};
ghost use Rattle.fx_tree.specs.Scene.{is_alive, is_same, path};
ghost use Rattle.fx_tree.specs.Refusals.{is_held};
ghost use Rattle.fx_tree.specs.declared.TreeError.TheVariants.{Memory};
ghost use Rattle.fx_base.specs.Answers.{or_else};
ghost use Rattle.fx_event_lines.specs.Hovering as spec;
ghost use Rattle.fx_event_lines.specs.Keys.{button_at, is_button, is_button_class};

use fx_base::NodeKey;
use fx_focus::pick;
use fx_kinds::Class;
use fx_picture::Picture;
use fx_stage_graph::Graph;
use fx_stage_types::NodeData;
use fx_tree::{Tree, TreeError};
use std::alloc::{AllocError, Global};

/// The node of the picture under the pointer.
pub(crate) fn picked_at(
    tree: &Tree,
    picture: &Picture,
    pointer: Option<(i64, i64)>,
) -> Option<NodeKey>
    ensures picked { result ≡ spec.picked_at tree.now picture.now.entries pointer }
    ensures alive { IfSome result (λ key. is_alive tree.now.nodes key ≡ true) }
{
    match pointer {
        None => None,
        Some(point) => picked_there(tree, picture, point.0, point.1),
    }
}

fn picked_there(tree: &Tree, picture: &Picture, x: i64, y: i64) -> Option<NodeKey>
    ensures picked { result ≡ spec.picked_at tree.now picture.now.entries (Some (x, y)) }
    ensures alive { IfSome result (λ key. is_alive tree.now.nodes key ≡ true) }
{
    let _root = tree.root();
    pick(tree, picture, x, y)
}

/// The node and its ancestors, from the outermost.
pub(crate) fn chain_of(
    alloc: Global,
    tree: &Tree,
    key: Option<NodeKey>,
) -> Result<Vec<NodeKey>, AllocError>
    requires { IfSome key (λ key. is_alive tree.now.nodes key ≡ true) }
    ensures { IfOk result (λ keys. keys.items ≡ spec.chain_of tree.now key) }
{
    match key {
        None => Ok(Vec::new(alloc)),
        Some(key) => path_to(alloc, tree, key),
    }
}

/// The nodes from the topmost ancestor to this one.
#[tactic(auto, unfolding(fx_tree::specs::Refusals::stale))]
pub(crate) fn path_to(alloc: Global, tree: &Tree, key: NodeKey) -> Result<Vec<NodeKey>, AllocError>
    requires { is_alive tree.now.nodes key ≡ true }
    ensures { IfOk result (λ keys. keys.items ≡ path tree.now.nodes key) }
{
    match tree.path(alloc, key) {
        Ok(keys) => Ok(keys),
        Err(error) => Err(want_of_memory(error)),
    }
}

/// The only error that the path of a living node has.
fn want_of_memory(error: TreeError) -> AllocError
    requires { error ≡ Memory }
{
    let _memory = error;
    AllocError
}

/// The node, if it is a Button.
pub(crate) fn button_at(graph: &Graph, key: Option<NodeKey>) -> Option<NodeKey>
    ensures { result ≡ button_at graph.now.table key }
{
    match key {
        None => None,
        Some(key) => {
            if is_button(graph.node(key)) {
                Some(key)
            } else {
                None
            }
        }
    }
}

fn is_button(node: Option<&NodeData>) -> bool
    ensures { result ≡ is_button (option_copied node.entry) }
{
    match node {
        None => false,
        Some(node) => is_button_class(node.class),
    }
}

fn is_button_class(class: Class) -> bool
    ensures { result ≡ is_button_class class }
{
    match class {
        Class::Button => true,
        _ => false,
    }
}

/// Whether the key that is held, if one is, is this one.
pub(crate) fn is_held(held: Option<NodeKey>, key: NodeKey) -> bool
    ensures { result ≡ is_held held key }
{
    match held {
        None => false,
        Some(held) => is_same(held, key),
    }
}

/// Whether both keys are of one node.
pub(crate) fn is_same(one: NodeKey, other: NodeKey) -> bool
    ensures { result ≡ is_same one other }
{
    one.slot == other.slot && one.birth == other.birth
}

/// What was found, or else this one.
pub(crate) fn or_else(found: Option<NodeKey>, other: Option<NodeKey>) -> Option<NodeKey>
    ensures { result ≡ or_else found other }
{
    match found {
        None => other,
        Some(key) => Some(key),
    }
}
