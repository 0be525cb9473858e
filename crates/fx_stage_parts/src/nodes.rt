//! Whether a node lives, and whether it has as many words as a node may have.
ghost use Rattle.std.specs.Prelude.{◌≡◌};
ghost use Rattle.fx_stage_model.specs.Dressing as spec;
ghost use Rattle.fx_tree.specs.Scene.{is_alive};

use fx_base::{NodeKey, Text};
use fx_stage_graph::Graph;
use fx_stage_words::has_name;

/// The most style classes of a node, and the most pseudo-classes that a script sets at one.
const MOST_WORDS: usize = 64;

/// Whether the node is alive.
pub fn is_living(graph: &Graph, key: NodeKey) -> bool
    ensures { result ≡ is_alive graph.now.tree.nodes key }
{
    graph.tree().children(key).is_some()
}

/// Whether the node takes no further style class.
pub fn is_full_of_classes(graph: &Graph, key: NodeKey) -> bool
    ensures { result ≡ spec.is_full_of_classes graph.now.table key }
{
    match graph.node(key) {
        None => false,
        Some(node) => node.classes.as_slice().len() >= MOST_WORDS,
    }
}

/// Whether the node takes no further pseudo-class of a script, and this one isn't set.
pub fn is_full_of_pseudos(graph: &Graph, key: NodeKey, name: &Text) -> bool
    ensures { result ≡ spec.is_full_of_pseudos graph.now.table key name.now }
{
    match graph.node(key) {
        None => false,
        Some(node) => {
            !has_name(node.pseudos.as_slice(), name.as_str())
                && node.pseudos.as_slice().len() >= MOST_WORDS
        }
    }
}
