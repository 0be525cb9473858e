//! The node that takes the focus next.
ghost use Rattle.std.specs.Prelude.{◌≡◌, ◌<◌, IfSome, length, reverse};
ghost use Rattle.std.specs.List.{find};
ghost use Rattle.std.specs.Option.{option_map};
ghost use Rattle.fx_base.specs.Answers.{or_else};
ghost use Rattle.fx_focus.specs.Focus.{backward, first_key, next_focus, onward, place_of, takes_focus};

use crate::attached::{is_attached, is_same};
use fx_base::NodeKey;
use fx_picture::{Entry, Picture};
use fx_tree::Tree;

/// The node of the picture that takes the focus after the one that has it: the next in pre-order that can take it,
/// isn't disabled and still stands in the scene, and behind the last one the first; backwards the other way round.
/// Where none has the focus, or one that isn't in the picture, the first; backwards the last. None where none can take
/// it. Takes no memory.
pub fn next_focus(
    tree: &Tree,
    picture: &Picture,
    now: Option<NodeKey>,
    back: bool,
) -> Option<NodeKey>
    ensures { result ≡ next_focus tree.now picture.now.entries now back }
{
    let entries = picture.entries.as_slice();
    let place = place_of(entries, now);
    if back {
        first_backward(tree, entries, place)
    } else {
        first_onward(tree, entries, place)
    }
}

/// Whether a node of the picture can take the focus, isn't disabled and still stands in the scene.
pub fn takes_focus(tree: &Tree, entry: &Entry) -> bool
    ensures { result ≡ takes_focus tree.now entry.now }
{
    entry.focusable && !entry.disabled && is_attached(tree, entry.key)
}

fn place_of(entries: &[Entry], now: Option<NodeKey>) -> Option<usize>
    ensures value { result ≡ place_of entries.now now }
    ensures there { IfSome result (λ place. place < length entries.now) }
{
    match now {
        Some(key) => place_of_key(entries, key),
        None => None,
    }
}

fn place_of_key(entries: &[Entry], key: NodeKey) -> Option<usize>
    ensures value { result ≡ place_of entries.now (Some key) }
    ensures there { IfSome result (λ place. place < length entries.now) }
{
    entries.iter().position(|entry| is_same(entry.key, key))
}

fn first_onward(tree: &Tree, entries: &[Entry], place: Option<usize>) -> Option<NodeKey>
    requires { IfSome place (λ place. place < length entries.now) }
    ensures { result ≡ first_key tree.now (onward entries.now place) }
{
    match place {
        Some(place) => {
            let (front, behind) = entries.split_at(place + 1);
            or_first(first_of(tree, behind), tree, front)
        }
        None => first_of(tree, entries),
    }
}

fn first_backward(tree: &Tree, entries: &[Entry], place: Option<usize>) -> Option<NodeKey>
    requires { IfSome place (λ place. place < length entries.now) }
    ensures { result ≡ first_key tree.now (backward entries.now place) }
{
    match place {
        Some(place) => {
            let (front, behind) = entries.split_at(place);
            or_last(last_of(tree, front), tree, behind)
        }
        None => last_of(tree, entries),
    }
}

/// What was found, or else the first of these that takes the focus.
fn or_first(found: Option<NodeKey>, tree: &Tree, others: &[Entry]) -> Option<NodeKey>
    ensures { result ≡ or_else found (first_key tree.now others.now) }
{
    match found {
        Some(key) => Some(key),
        None => first_of(tree, others),
    }
}

/// What was found, or else the last of these that takes the focus.
fn or_last(found: Option<NodeKey>, tree: &Tree, others: &[Entry]) -> Option<NodeKey>
    ensures { result ≡ or_else found (first_key tree.now (reverse others.now)) }
{
    match found {
        Some(key) => Some(key),
        None => last_of(tree, others),
    }
}

/// The first of these that takes the focus.
fn first_of(tree: &Tree, entries: &[Entry]) -> Option<NodeKey>
    ensures { result ≡ first_key tree.now entries.now }
{
    match entries.iter().find(|entry| takes_focus(tree, entry)) {
        Some(entry) => Some(entry.key),
        None => None,
    }
}

/// The last of these that takes the focus.
fn last_of(tree: &Tree, entries: &[Entry]) -> Option<NodeKey>
    ensures { result ≡ first_key tree.now (reverse entries.now) }
{
    match entries.iter().rev().find(|entry| takes_focus(tree, entry)) {
        Some(entry) => Some(entry.key),
        None => None,
    }
}
