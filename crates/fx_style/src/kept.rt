//! What is kept of a node, and where.
ghost use Rattle.std.specs.Prelude.{◌≡◌, ◌↔◌, ℕ, IsTrue, Some, slice_get};
ghost use Rattle.std.specs.List.{position};
ghost use Rattle.std.specs.Option.{option_copied};
ghost use Rattle.fx_kinds.specs.declared.facts.StyleFacts.{StyleFacts as Facts};
ghost use Rattle.fx_style.specs.Kept.{HaveDifferentKeys, is_key, place_of_key};

use fx_base::{List, NodeKey};
use fx_kinds::StyleFacts;
use fx_lookup::NamedPaint;
use fx_node_style::NodeStyle;

/// What is kept of a node beside its look.
#[derive(Drop)]
pub struct Rest {
    pub key: NodeKey,
    pub paints: List<NamedPaint>,
}

/// The style of a node under its key.
#[derive(Drop)]
pub struct Entry {
    pub key: NodeKey,
    pub style: NodeStyle,
}

/// An entry that an update made, for the node of this place.
#[derive(Drop)]
pub struct Fresh {
    pub at: usize,
    pub entry: Entry,
}

/// Are the keys those of one node?
pub fn is_key(one: NodeKey, other: NodeKey) -> bool
    ensures { result ≡ is_key one other }
{
    one.slot == other.slot && one.birth == other.birth
}

/// Where the key stands, looked for first where it mostly is.
pub(crate) fn place_of_key(rest: &[Rest], key: NodeKey, guess: usize) -> Option<usize>
    requires { HaveDifferentKeys rest.now }
    ensures { result ≡ place_of_key rest.now key }
{
    if stands_at(rest, key, guess) {
        return Some(guess);
    }
    searched_place(rest, key)
}

/// Does the key stand there?
#[inline]
pub(crate) fn stands_at(rest: &[Rest], key: NodeKey, at: usize) -> bool
    requires { HaveDifferentKeys rest.now }
    ensures { IsTrue result ↔ (place_of_key rest.now key ≡ Some at) }
{
    match rest_at(rest, at) {
        Some(one) => is_key(one.key, key),
        None => false,
    }
}

/// Does the key of each of these nodes stand at its place?
pub(crate) fn all_stand(rest: &[Rest], facts: &[StyleFacts]) -> bool
    requires { HaveDifferentKeys rest.now }
    ensures { IsTrue result ↔ ((at : ℕ) (node : Facts) → slice_get facts.now at ≡ Some node
        → place_of_key rest.now node.key ≡ Some at) }
{
    for (at, node) in facts.iter().enumerate() {
        if !stands_at(rest, node.key, at) {
            return false;
        }
    }
    true
}

fn rest_at(rest: &[Rest], at: usize) -> Option<&Rest>
    ensures { option_copied result ≡ slice_get rest.now at }
{
    rest.get(at)
}

fn searched_place(rest: &[Rest], key: NodeKey) -> Option<usize>
    ensures { result ≡ place_of_key rest.now key }
{
    rest.iter().position(|one| is_key(one.key, key))
}
