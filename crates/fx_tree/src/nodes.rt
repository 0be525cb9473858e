//! Nodes in their slots: each keeps its birth number, a link to its parent and the list of its children.
//! The tree's calls stand on these functions over the slab.
ghost use Rattle.std.specs.Prelude.{ℕ, ◌≡◌, ◌≢◌, ◌+◌, ◌<◌, ◌≤◌, ◌-◌, ◌++◌, ◌∷◌, List, [], Bool, true, not, length, insert, filter, is_some, Some, None, unwrap_or, slice_index_or, nat_lt, IfSome, IsSome, OnOk, OnErr};
ghost use Rattle.std.specs.Option.{option_map, option_copied};
ghost use Rattle.fx_base.specs.declared.keys.NodeKey.{NodeKey};
ghost use Rattle.slab.specs.Slab.{slab_len, get};
ghost use Rattle.fx_tree.specs.Scene.{has, is_once, is_same, line_in, subtree_in, without};
ghost use Rattle.fx_tree.specs.Refusals.{is_held};
ghost use Rattle.fx_tree.specs.Slots as spec;

use crate::TreeError;
use fx_base::NodeKey;
use slab::Slab;
use std::alloc::{AllocError, Global};
use std::marker::Model;

/// The most nodes on a way from a topmost node down.
pub const MOST_DEEP: usize = 64;

/// The children of a node in their order.
#[derive(Drop)]
pub struct Children {
    keys: Vec<NodeKey>,
}

impl Model for Children {
    ghost use Rattle.std.specs.Prelude.{List};
    ghost use Rattle.fx_base.specs.declared.keys.NodeKey.{NodeKey};

    ghost Value = { List NodeKey };

    ghost view = { λ c. c.keys.items };
}

/// What is kept of a living node.
#[derive(Drop)]
pub struct Stored {
    pub birth: u32,
    pub parent: Option<NodeKey>,
    pub children: Children,
}

impl Children {
    pub fn new(alloc: Global) -> Children
        ensures { result ≡ [] }
    {
        Children {
            keys: Vec::new(alloc),
        }
    }

    pub fn as_slice(&self) -> &[NodeKey]
        ensures { result.now ≡ self.now }
    {
        self.keys.as_slice()
    }

    fn insert(&mut self, place: usize, child: NodeKey) -> Result<(), AllocError>
        requires { place ≤ length self.old }
        ensures ok { OnOk result (self.new ≡ insert self.old place child) }
        ensures err { OnErr result (self.new ≡ self.old) }
    {
        self.keys.insert(place, child)?;
        Ok(())
    }

    /// Takes the child out, and where it is the last one doesn't go over the others.
    fn remove(&mut self, child: NodeKey)
        requires { is_once self.old ≡ true }
        ensures { self.new ≡ without child self.old }
    {
        if self.ends_with(child) {
            self.keys.pop();
            return;
        }
        self.keys.retain(|key| !same_key(*key, child));
    }
}

impl Children {
    /// Whether the child is the last one.
    fn ends_with(&self, child: NodeKey) -> bool
        ensures { result ≡ true → (front : List NodeKey) × (self.now ≡ front ++ child ∷ []) }
    {
        match self.keys.as_slice() {
            [] => false,
            [.., last] => same_key(*last, child),
        }
    }
}

/// Whether both keys are of one node.
pub fn same_key(one: NodeKey, other: NodeKey) -> bool
    ensures { result ≡ is_same one other }
{
    one.slot == other.slot && one.birth == other.birth
}

/// What is kept of this node, if it is alive.
pub fn find_node(nodes: &Slab<Stored>, key: NodeKey) -> Option<&Stored>
    ensures { option_copied result ≡ spec.node_at nodes.now.slots key }
{
    match nodes.get(key.slot) {
        None => None,
        Some(stored) => {
            if stored.birth == key.birth {
                Some(stored)
            } else {
                None
            }
        }
    }
}

/// The parent of a living node, if it has one.
pub fn parent_in(nodes: &Slab<Stored>, key: NodeKey) -> Option<NodeKey>
    ensures { result ≡ spec.up_at nodes.now.slots key }
{
    match find_node(nodes, key) {
        None => None,
        Some(stored) => stored.parent,
    }
}

/// The children of a living node, none of another.
pub fn children_in(nodes: &Slab<Stored>, key: NodeKey) -> &[NodeKey]
    ensures { result.now ≡ spec.below_at nodes.now.slots key }
{
    match find_node(nodes, key) {
        None => &[],
        Some(stored) => stored.children.as_slice(),
    }
}

/// Whether the node is alive.
#[tactic(auto, unfolding(crate::specs::Slots::alive_at))]
pub fn is_live(nodes: &Slab<Stored>, key: NodeKey) -> bool
    ensures { result ≡ spec.alive_at nodes.now.slots key }
{
    find_node(nodes, key).is_some()
}

/// Whether `upper` is this node or an ancestor of it.
fn stands_within(nodes: &Slab<Stored>, key: NodeKey, upper: NodeKey) -> bool
    ensures { result ≡ has (spec.line_at nodes.now.slots key) upper }
{
    let mut at = Some(key);
    for _step in 0..MOST_DEEP {
        let here = match at {
            None => return false,
            Some(here) => here,
        };
        if same_key(here, upper) {
            return true;
        }
        at = parent_in(nodes, here);
    }
    false
}

/// How many nodes a node and its ancestors are.
fn depth_of(nodes: &Slab<Stored>, key: NodeKey) -> usize
    ensures counted { result ≡ length (spec.line_at nodes.now.slots key) }
    ensures most { result ≤ 64 }
{
    let mut at = Some(key);
    for steps in 0..MOST_DEEP {
        let here = match at {
            None => return steps,
            Some(here) => here,
        };
        at = parent_in(nodes, here);
    }
    MOST_DEEP
}

/// Whether the subtree has at most so many levels.
fn fits(nodes: &Slab<Stored>, levels: usize, key: NodeKey) -> bool
    ensures { result ≡ spec.fits_in levels (spec.below_at nodes.now.slots) key }
{
    if levels == 0 {
        return false;
    }
    for child in children_in(nodes, key) {
        if !fits(nodes, levels - 1, *child) {
            return false;
        }
    }
    true
}

/// Puts a node and all that stand below it behind the keys, in pre-order.
pub fn push_subtree(
    nodes: &Slab<Stored>,
    levels: usize,
    key: NodeKey,
    keys: &mut Vec<NodeKey>,
) -> Result<(), AllocError>
    ensures { OnOk result (keys.new.items ≡ keys.old.items ++ subtree_in levels (spec.below_at nodes.now.slots) key) }
{
    if levels == 0 {
        return Ok(());
    }
    keys.push(key)?;
    for child in children_in(nodes, key) {
        push_subtree(nodes, levels - 1, *child, keys)?;
    }
    Ok(())
}

/// Puts a node and its ancestors behind the keys, the topmost last.
pub fn push_line(
    nodes: &Slab<Stored>,
    key: NodeKey,
    keys: &mut Vec<NodeKey>,
) -> Result<(), AllocError>
    ensures { OnOk result (keys.new.items ≡ keys.old.items ++ spec.line_at nodes.now.slots key) }
{
    let mut at = Some(key);
    for _step in 0..MOST_DEEP {
        let here = match at {
            None => return Ok(()),
            Some(here) => here,
        };
        keys.push(here)?;
        at = parent_in(nodes, here);
    }
    Ok(())
}

/// Whether the node has a parent.
pub fn has_parent(nodes: &Slab<Stored>, key: NodeKey) -> bool
    ensures { result ≡ is_some (spec.up_at nodes.now.slots key) }
{
    parent_in(nodes, key).is_some()
}

/// Whether the place is past the end of the children.
fn is_past_end(nodes: &Slab<Stored>, key: NodeKey, place: usize) -> bool
    ensures { result ≡ nat_lt (length (spec.below_at nodes.now.slots key)) place }
{
    children_in(nodes, key).len() < place
}

/// Whether a way through the parent into the child's subtree would have too many nodes.
fn is_too_deep(nodes: &Slab<Stored>, parent: NodeKey, child: NodeKey) -> bool
    ensures { result ≡ not (spec.fits_in (64 - length (spec.line_at nodes.now.slots parent))
        (spec.below_at nodes.now.slots) child) }
{
    !fits(nodes, MOST_DEEP - depth_of(nodes, parent), child)
}

/// Why the child may not stand at this place of the parent.
pub fn attach_refusal(
    nodes: &Slab<Stored>,
    root: Option<NodeKey>,
    parent: NodeKey,
    child: NodeKey,
    place: usize,
) -> Option<TreeError>
    ensures { result ≡ spec.attach_refused nodes.now.slots root parent child place }
{
    if !is_live(nodes, parent) {
        return Some(TreeError::StaleKey);
    }
    if !is_live(nodes, child) {
        return Some(TreeError::StaleKey);
    }
    if stands_within(nodes, parent, child) {
        return Some(TreeError::WouldLoop);
    }
    if has_parent(nodes, child) {
        return Some(TreeError::HasParent);
    }
    if is_key(root, child) {
        return Some(TreeError::Attached);
    }
    if is_past_end(nodes, parent, place) {
        return Some(TreeError::Place);
    }
    if is_too_deep(nodes, parent, child) {
        return Some(TreeError::Depth);
    }
    None
}

/// Whether the option holds this key.
pub fn is_key(held: Option<NodeKey>, key: NodeKey) -> bool
    ensures { result ≡ is_held held key }
{
    match held {
        None => false,
        Some(held) => same_key(held, key),
    }
}

/// Gives a living node this parent, or none.
fn set_parent(nodes: &mut Slab<Stored>, key: NodeKey, parent: Option<NodeKey>)
    ensures changed { get nodes.new key.slot
        ≡ option_map (λ stored. record { birth = stored.birth; parent = parent; children = stored.children })
        (get nodes.old key.slot) }
    ensures others { (other : ℕ) → other ≢ key.slot → get nodes.new other ≡ get nodes.old other }
    ensures len { slab_len nodes.new ≡ slab_len nodes.old }
{
    if let Some(stored) = nodes.get_mut(key.slot) {
        stored.parent = parent;
    }
}

/// Puts the child into the parent's list.
fn insert_child(
    nodes: &mut Slab<Stored>,
    parent: NodeKey,
    child: NodeKey,
    place: usize,
) -> Result<(), AllocError>
    requires alive { IsSome (get nodes.old parent.slot) }
    requires place { place ≤ length (spec.below_at nodes.old.slots parent) }
    ensures changed { OnOk result (get nodes.new parent.slot
        ≡ option_map (λ stored. record {
          birth = stored.birth;
          parent = stored.parent;
          children = insert
              stored.children place child;
        }) (get nodes.old parent.slot)) }
    ensures others { OnOk result ((other : ℕ) → other ≢ parent.slot → get nodes.new other ≡ get nodes.old other) }
    ensures len { OnOk result (slab_len nodes.new ≡ slab_len nodes.old) }
    ensures err { OnErr result (nodes.new ≡ nodes.old) }
{
    if let Some(stored) = nodes.get_mut(parent.slot) {
        stored.children.insert(place, child)?;
    }
    Ok(())
}

/// Takes the child out of the parent's list.
fn remove_child(nodes: &mut Slab<Stored>, parent: NodeKey, child: NodeKey)
    requires { IfSome (get nodes.old parent.slot) (λ stored. is_once stored.children ≡ true) }
    ensures changed { get nodes.new parent.slot
        ≡ option_map (λ stored. record {
          birth = stored.birth;
          parent = stored.parent;
          children = without child
              stored.children;
        }) (get nodes.old parent.slot) }
    ensures others { (other : ℕ) → other ≢ parent.slot → get nodes.new other ≡ get nodes.old other }
    ensures len { slab_len nodes.new ≡ slab_len nodes.old }
{
    if let Some(stored) = nodes.get_mut(parent.slot) {
        stored.children.remove(child);
    }
}

/// Puts a living node into the list of a living parent.
pub fn link(
    nodes: &mut Slab<Stored>,
    parent: NodeKey,
    child: NodeKey,
    place: usize,
) -> Result<(), AllocError>
    requires parent_alive { spec.alive_at nodes.old.slots parent ≡ true }
    requires child_alive { spec.alive_at nodes.old.slots child ≡ true }
    requires place { place ≤ length (spec.below_at nodes.old.slots parent) }
    ensures ok { OnOk result (spec.IsLinked nodes.old.slots nodes.new.slots parent child place) }
    ensures len { OnOk result (slab_len nodes.new ≡ slab_len nodes.old) }
    ensures err { OnErr result (nodes.new ≡ nodes.old) }
{
    insert_child(nodes, parent, child, place)?;
    set_parent(nodes, child, Some(parent));
    Ok(())
}

/// Takes a node out of its parent's list, if it has a parent.
pub fn unlink(nodes: &mut Slab<Stored>, child: NodeKey)
    requires { spec.IsForest nodes.old.slots }
    ensures unlinked { spec.IsUnlinked nodes.old.slots nodes.new.slots child }
    ensures len { slab_len nodes.new ≡ slab_len nodes.old }
{
    let parent = match parent_in(nodes, child) {
        None => return,
        Some(parent) => parent,
    };
    remove_child(nodes, parent, child);
    set_parent(nodes, child, None);
}

/// Frees the slot of a living node.
fn free(nodes: &mut Slab<Stored>, key: NodeKey)
    requires { spec.alive_at nodes.old.slots key ≡ true }
    ensures freed { spec.IsFreed nodes.old.slots nodes.new.slots key }
    ensures len { slab_len nodes.new + 1 ≡ slab_len nodes.old }
{
    nodes.try_remove(key.slot);
}

/// A node without children that is this one or stands below it.
fn last_leaf(nodes: &Slab<Stored>, key: NodeKey) -> NodeKey
    requires forest { spec.IsForest nodes.now.slots }
    requires alive { spec.alive_at nodes.now.slots key ≡ true }
    ensures alive { spec.alive_at nodes.now.slots result ≡ true }
    ensures within { has (spec.line_at nodes.now.slots result) key ≡ true }
    ensures leaf { spec.below_at nodes.now.slots result ≡ [] }
{
    let mut at = key;
    for _step in 0..MOST_DEEP {
        match children_in(nodes, at) {
            [] => return at,
            [.., last] => at = *last,
        }
    }
    unreachable!()
}

/// The parent of a node, or the node where it has none.
fn parent_or_itself(nodes: &Slab<Stored>, key: NodeKey) -> NodeKey
    ensures { result ≡ unwrap_or (spec.up_at nodes.now.slots key) key }
{
    parent_in(nodes, key).unwrap_or(key)
}

/// Frees a topmost node and all that stand below it, the leaves first. Each way down begins where the last leaf stood.
pub fn prune(nodes: &mut Slab<Stored>, top: NodeKey)
    requires forest { spec.IsForest nodes.old.slots }
    requires topmost { spec.up_at nodes.old.slots top ≡ None }
    ensures { spec.IsPruned nodes.old.slots nodes.new.slots top }
{
    let mut at = top;
    while is_live(nodes, top) {
        let leaf = last_leaf(nodes, at);
        at = parent_or_itself(nodes, leaf);
        unlink(nodes, leaf);
        free(nodes, leaf);
    }
}
