//! Where the nodes of an update stood in the one before it, and which of them are listed.
ghost use Rattle.std.specs.Prelude.{ℕ, ◌≡◌, ◌<◌, ◌≤◌, ◌==◌, ◌||◌, true, IfOk, length, slice_index_or};
ghost use Rattle.fx_layout_sweeps.specs.Nodes.{AreNodes, keys};
ghost use Rattle.fx_layout_sweeps.specs.Marks.{flag_in};
ghost use Rattle.fx_layout_sweeps.specs.Sweeps.{tally};
ghost use Rattle.fx_layout.specs.Updates.{AreDifferent, is_key, is_listed, old_place, old_places};

use fx_base::NodeKey;
use fx_kinds::BoxFacts;
use fx_layout_sweeps::Marks;
use std::alloc::{AllocError, Global};

/// The keys of the nodes, in order.
pub(crate) fn keys_of(alloc: Global, nodes: &[BoxFacts]) -> Result<Vec<NodeKey>, AllocError>
    ensures { IfOk result (λ made. made.items ≡ keys nodes.now) }
{
    let mut keys = Vec::with_capacity(alloc, nodes.len())?;
    for node in nodes {
        keys.push(node.key)?;
    }
    Ok(keys)
}

/// The place that is kept for each node. A key is looked for first behind the one before it, where it stands unless the
/// tree has changed there.
pub(crate) fn old_places(
    alloc: Global,
    old: &[NodeKey],
    nodes: &[BoxFacts],
) -> Result<Vec<usize>, AllocError>
    requires { AreDifferent old.now }
    ensures { IfOk result (λ places. places.items ≡ old_places old.now nodes.now) }
{
    let mut places = Vec::with_capacity(alloc, nodes.len())?;
    let mut guess = 0;
    for node in nodes {
        let place = old_place(old, node.key, guess);
        places.push(place)?;
        guess = place + 1;
    }
    Ok(places)
}

/// The place of a key among those that are kept, or one past their end.
fn old_place(old: &[NodeKey], key: NodeKey, guess: usize) -> usize
    requires { AreDifferent old.now }
    ensures place { result ≡ old_place old.now key }
    ensures within { result ≤ length old.now }
{
    if stands_at(old, key, guess) {
        return guess;
    }
    searched_place(old, key)
}

fn stands_at(old: &[NodeKey], key: NodeKey, place: usize) -> bool
    ensures within { result ≡ true → place < length old.now }
    ensures key { result ≡ true → is_key (slice_index_or old.now place key) key ≡ true }
{
    match old.get(place) {
        Some(one) => is_key(*one, key),
        None => false,
    }
}

fn searched_place(old: &[NodeKey], key: NodeKey) -> usize
    ensures place { result ≡ old_place old.now key }
    ensures within { result ≤ length old.now }
{
    old.iter().take_while(|one| !is_key(**one, key)).count()
}

pub(crate) fn is_key(one: NodeKey, other: NodeKey) -> bool
    ensures { result ≡ is_key one other }
{
    one.slot == other.slot && one.birth == other.birth
}

/// So many places, of which the listed ones are marked.
pub(crate) fn marks_of(alloc: Global, listed: &[usize], count: usize) -> Result<Marks, AllocError>
    ensures each { IfOk result (λ marks. length marks ≡ count) }
    ensures marks { IfOk result (λ marks. (p : ℕ) → p < count → flag_in marks p ≡ is_listed listed.now p) }
{
    let mut marks = Marks::new(alloc, count)?;
    for place in listed {
        marks.mark_if(*place, true);
    }
    Ok(marks)
}

/// How many nodes are marked.
pub(crate) fn count_marked(marks: &Marks, nodes: &[BoxFacts]) -> usize
    requires nodes { AreNodes nodes.now }
    requires marks { length marks.now ≡ length nodes.now }
    ensures count { result ≡ tally (flag_in marks.now) (length nodes.now) }
    ensures few { result ≤ 4096 }
{
    let mut count = 0;
    let mut from = 0;
    while let Some(place) = marks.first_from(from) {
        count += 1;
        from = place + 1;
    }
    count
}
