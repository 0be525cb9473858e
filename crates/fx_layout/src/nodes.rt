//! Nodes that come from outside, and whether they can be laid out.
ghost use Rattle.std.specs.Prelude.{ℕ, ◌≡◌, ◌<◌, ◌≤◌, All, true, false, length};
ghost use Rattle.fx_kinds.specs.declared.facts.BoxFacts.{BoxFacts as Facts};
ghost use Rattle.fx_layout_sweeps.specs.Nodes.{AreNodes, IsTree, keys, node_at, parents};
ghost use Rattle.fx_layout.specs.Fits.{AreOthers, StandsBehind};
ghost use Rattle.fx_layout.specs.Updates.{AreDifferent, is_key};

use crate::keys::is_key;
use crate::rects::parent_at;
use fx_base::NodeKey;
use fx_kinds::BoxFacts;

/// Can these nodes be laid out? There is a node, and there are at most 4,096; the first has no parent, and each other
/// one has a parent that stands before it; each has at most 256 columns and 256 rows; and no two have one key. Compares
/// each key with each other: who knows that no two are one, asks `are_nodes`.
pub fn can_be_laid(nodes: &[BoxFacts]) -> bool
    ensures some { result ≡ true → 0 < length nodes.now }
    ensures nodes { result ≡ true → AreNodes nodes.now }
    ensures keys { result ≡ true → AreDifferent (keys nodes.now) }
    ensures only { 0 < length nodes.now → AreNodes nodes.now → AreDifferent (keys nodes.now) → result ≡ true }
{
    are_nodes(nodes) && are_different(nodes)
}

/// Is all true of these nodes that `can_be_laid` asks of each, whatever their keys are? Goes over them once or twice.
pub fn are_nodes(nodes: &[BoxFacts]) -> bool
    ensures some { result ≡ true → 0 < length nodes.now }
    ensures nodes { result ≡ true → AreNodes nodes.now }
    ensures only { 0 < length nodes.now → AreNodes nodes.now → result ≡ true }
{
    if nodes.is_empty() || nodes.len() > 4_096 {
        return false;
    }
    is_tree(nodes) && have_few_tracks(nodes)
}

fn is_tree(nodes: &[BoxFacts]) -> bool
    ensures tree { result ≡ true → IsTree (parents nodes.now) }
    ensures only { IsTree (parents nodes.now) → result ≡ true }
{
    for place in 0..nodes.len() {
        if !stands_behind(parent_at(nodes, place), place) {
            return false;
        }
    }
    true
}

fn stands_behind(parent: Option<usize>, place: usize) -> bool
    ensures behind { result ≡ true → StandsBehind parent place }
    ensures only { StandsBehind parent place → result ≡ true }
{
    match parent {
        None => place == 0,
        Some(before) => before < place,
    }
}

fn have_few_tracks(nodes: &[BoxFacts]) -> bool
    ensures columns { result ≡ true → All (λ (node : Facts). length node.columns ≤ 256) nodes.now }
    ensures rows { result ≡ true → All (λ (node : Facts). length node.rows ≤ 256) nodes.now }
    ensures only { All (λ (node : Facts). length node.columns ≤ 256) nodes.now
        → All (λ (node : Facts). length node.rows ≤ 256) nodes.now → result ≡ true }
{
    for node in nodes {
        if node.columns.as_slice().len() > 256 || node.rows.as_slice().len() > 256 {
            return false;
        }
    }
    true
}

/// Has each node another key than those before it?
#[tactic(auto, using(crate::proofs::Fitting::different_of))]
fn are_different(nodes: &[BoxFacts]) -> bool
    ensures different { result ≡ true → AreDifferent (keys nodes.now) }
    ensures only { AreDifferent (keys nodes.now) → result ≡ true }
{
    for place in 0..nodes.len() {
        if stands_before(nodes, place) {
            return false;
        }
    }
    true
}

/// Does the key of the node at this place stand before it?
fn stands_before(nodes: &[BoxFacts], place: usize) -> bool
    ensures others { result ≡ false → AreOthers nodes.now place place }
    ensures found { result ≡ true → (i : ℕ) × (i < place)
        × (is_key (node_at nodes.now i).key (node_at nodes.now place).key ≡ true) }
{
    for other in 0..place {
        if is_key(key_at(nodes, other), key_at(nodes, place)) {
            return true;
        }
    }
    false
}

fn key_at(nodes: &[BoxFacts], place: usize) -> NodeKey
    ensures { result ≡ (node_at nodes.now place).key }
{
    match nodes.get(place) {
        Some(node) => node.key,
        None => NodeKey { slot: 0, birth: 0 },
    }
}
