//! The tree of scene nodes: living nodes under keys that are given once, each with its children in order,
//! at most one parent and at most 64 nodes on any way down. Styling, layout and events walk it by these calls.
#![tactic(auto)]

mod nodes;

ghost use Rattle.std.specs.Prelude.{◌≡◌, ◌+◌, IfOk, OnOk, OnErr};
ghost use Rattle.fx_tree.specs.History.{DeadStayDead, EachBirthOnce, PathsMeetOnce, SubtreesMeetOnce};
ghost use Rattle.fx_tree.specs.Refusals.{IsExactAnswer, IsFirmAnswer, attach_refusal, detach_refusal, drop_refusal, is_full, make_refusal, root_refusal, stale};
ghost use Rattle.fx_tree.specs.Scene as spec;
ghost use Rattle.fx_tree.specs.declared.TreeError.TheVariants.{Memory};
ghost use Rattle.std.specs.Option.{option_copied};

use fx_base::NodeKey;
use nodes::{Children, Stored};
use slab::Slab;
use std::alloc::{AllocError, AllocFailed, Global};
use std::marker::Model;
use thiserror::Error;

/// The most nodes that can be alive at once.
pub const MOST_NODES: usize = 4096;

/// Why a call of the tree was refused. After a refusal the tree is as before.
#[derive(Debug, Drop, PartialEq, Eq, Error)]
pub enum TreeError {
    /// A key isn't alive.
    #[error("the node isn't alive")]
    StaleKey,
    /// The parent is in the child's subtree.
    #[error("the parent stands below the child")]
    WouldLoop,
    /// The node to attach, or to be the root, has a parent.
    #[error("the node has a parent")]
    HasParent,
    /// The node is the root, or has a parent where it is to be dropped, or a root is there.
    #[error("the node is attached")]
    Attached,
    /// The place is past the end of the children.
    #[error("there is no such place")]
    Place,
    /// 4,096 nodes are alive, or the last birth number was given.
    #[error("no more nodes can be made")]
    Full,
    /// A path would have more than 64 nodes.
    #[error("the tree would be too deep")]
    Depth,
    /// The node to detach has no parent.
    #[error("the node has no parent")]
    NoParent,
    #[error("out of memory")]
    Memory,
}

impl<T: Drop> From<AllocFailed<T>> for TreeError {
    ghost from_gives = { λ _ e. e ≡ Memory };

    fn from(_e: AllocFailed<T>) -> TreeError {
        TreeError::Memory
    }
}

impl From<AllocError> for TreeError {
    ghost from_gives = { λ _ e. e ≡ Memory };

    fn from(_e: AllocError) -> TreeError {
        TreeError::Memory
    }
}

/// The living nodes and the root. Contracts see a `Scene`.
#[derive(Drop)]
pub struct Tree {
    nodes: Slab<Stored>,
    root: Option<NodeKey>,
    born: u32,
}

impl Model for Tree {
    ghost use Rattle.fx_tree.specs.Scene.{Scene};

    ghost Value = { Scene };

    ghost use Rattle.fx_tree.specs.Slots.{IsTree, scene_of};

    ghost view = { λ tree. scene_of tree.nodes.slots tree.root tree.born };

    ghost invariant = { λ tree. IsTree tree.nodes.slots tree.root tree.born };
}

impl Tree {
    /// Nothing is alive.
    pub fn new(alloc: Global) -> Tree
        ensures { result ≡ spec.nothing }
    {
        Tree {
            nodes: Slab::new(alloc),
            root: None,
            born: 0,
        }
    }

    /// Whether no more nodes can be made: 4,096 are alive, or the last birth number was given.
    pub fn is_full(&self) -> bool
        ensures { result ≡ is_full self.now }
    {
        self.nodes.len() == MOST_NODES || self.born == u32::MAX
    }

    /// A further node, without parent and children, born after all others.
    pub fn make(&mut self, alloc: Global) -> Result<NodeKey, TreeError>
        ensures birth { IfOk result (λ key. key.birth ≡ self.old.born + 1) }
        ensures made { IfOk result (λ key. self.new ≡ spec.after_make self.old key) }
        ensures answer { IsExactAnswer (make_refusal self.old) result }
        ensures err { OnErr result (self.new ≡ self.old) }
    {
        if self.nodes.len() == MOST_NODES || self.born == u32::MAX {
            return Err(TreeError::Full);
        }
        let birth = self.born + 1;
        let slot = self.nodes.insert(Stored {
            birth,
            parent: None,
            children: Children::new(alloc),
        })?;
        self.born = birth;
        Ok(NodeKey { slot, birth })
    }
}

impl Tree {
    /// Makes a node without parent the root, where there is none.
    pub fn set_root(&mut self, _alloc: Global, key: NodeKey) -> Result<(), TreeError>
        ensures answer { IsFirmAnswer (root_refusal self.old key) result }
        ensures ok { OnOk result (self.new ≡ spec.after_set_root self.old key) }
        ensures err { OnErr result (self.new ≡ self.old) }
    {
        if !nodes::is_live(&self.nodes, key) {
            return Err(TreeError::StaleKey);
        }
        if nodes::has_parent(&self.nodes, key) {
            return Err(TreeError::HasParent);
        }
        if self.root.is_some() {
            return Err(TreeError::Attached);
        }
        self.root = Some(key);
        Ok(())
    }

    /// Puts the child into the parent's list at this place.
    pub fn attach(
        &mut self,
        _alloc: Global,
        parent: NodeKey,
        child: NodeKey,
        place: usize,
    ) -> Result<(), TreeError>
        ensures answer { IsExactAnswer (attach_refusal self.old parent child place) result }
        ensures ok { OnOk result (self.new ≡ spec.after_attach self.old parent child place) }
        ensures err { OnErr result (self.new ≡ self.old) }
    {
        if let Some(refusal) = nodes::attach_refusal(&self.nodes, self.root, parent, child, place) {
            return Err(refusal);
        }
        nodes::link(&mut self.nodes, parent, child, place)?;
        Ok(())
    }

    /// Takes the child, and all that stand below it, out of its parent's list.
    pub fn detach(&mut self, _alloc: Global, child: NodeKey) -> Result<(), TreeError>
        ensures answer { IsFirmAnswer (detach_refusal self.old child) result }
        ensures ok { OnOk result (self.new ≡ spec.after_detach self.old child) }
        ensures err { OnErr result (self.new ≡ self.old) }
    {
        if !nodes::is_live(&self.nodes, child) {
            return Err(TreeError::StaleKey);
        }
        if !nodes::has_parent(&self.nodes, child) {
            return Err(TreeError::NoParent);
        }
        nodes::unlink(&mut self.nodes, child);
        Ok(())
    }

    /// Ends the life of a node that has no parent and isn't the root, and of all that stand below it. Who
    /// needs their keys reads them by `subtree` before.
    pub fn drop_tree(&mut self, key: NodeKey) -> Result<(), TreeError>
        ensures answer { IsFirmAnswer (drop_refusal self.old key) result }
        ensures ok { OnOk result (self.new ≡ spec.after_drop self.old key) }
        ensures err { OnErr result (self.new ≡ self.old) }
    {
        if !nodes::is_live(&self.nodes, key) {
            return Err(TreeError::StaleKey);
        }
        if nodes::has_parent(&self.nodes, key) {
            return Err(TreeError::Attached);
        }
        if nodes::is_key(self.root, key) {
            return Err(TreeError::Attached);
        }
        nodes::prune(&mut self.nodes, key);
        Ok(())
    }

    /// The root, if there is one.
    pub fn root(&self) -> Option<NodeKey>
        ensures root { result ≡ self.now.root }
        ensures sound { spec.IsSound self.now }
    {
        self.root
    }

    /// Whether the node is alive.
    pub fn is_alive(&self, key: NodeKey) -> bool
        ensures { result ≡ spec.is_alive self.now.nodes key }
    {
        nodes::is_live(&self.nodes, key)
    }

    /// The children of a living node in their order.
    pub fn children(&self, key: NodeKey) -> Option<&[NodeKey]>
        ensures { option_copied result ≡ spec.children_of self.now.nodes key }
    {
        match nodes::find_node(&self.nodes, key) {
            None => None,
            Some(stored) => Some(stored.children.as_slice()),
        }
    }

    /// The parent of a living node, if it has one.
    pub fn parent(&self, key: NodeKey) -> Option<NodeKey>
        ensures { result ≡ spec.parent_of self.now.nodes key }
    {
        nodes::parent_in(&self.nodes, key)
    }

    /// The nodes from the topmost ancestor to this one.
    pub fn path(&self, alloc: Global, key: NodeKey) -> Result<Vec<NodeKey>, TreeError>
        ensures answer { IsExactAnswer (stale self.now key) result }
        ensures ok { IfOk result (λ keys. keys.items ≡ spec.path self.now.nodes key) }
    {
        if !nodes::is_live(&self.nodes, key) {
            return Err(TreeError::StaleKey);
        }
        let mut keys = Vec::new(alloc);
        nodes::push_line(&self.nodes, key, &mut keys)?;
        keys.reverse();
        Ok(keys)
    }

    /// A node and all that stand below it, in pre-order.
    pub fn subtree(&self, alloc: Global, key: NodeKey) -> Result<Vec<NodeKey>, TreeError>
        ensures answer { IsExactAnswer (stale self.now key) result }
        ensures ok { IfOk result (λ keys. keys.items ≡ spec.subtree self.now.nodes key) }
    {
        if !nodes::is_live(&self.nodes, key) {
            return Err(TreeError::StaleKey);
        }
        let mut keys = Vec::new(alloc);
        nodes::push_subtree(&self.nodes, nodes::MOST_DEEP, key, &mut keys)?;
        Ok(keys)
    }
}

/// A birth number is given once: over every list of calls they are 1, 2, 3 and so on.
pub fn births_are_given_once()
    ensures { EachBirthOnce }
{}

/// A dead node stays dead, whatever its slot holds later.
pub fn dead_nodes_stay_dead()
    ensures { DeadStayDead }
{}

/// A walk meets each node once: no node stands twice in a subtree.
pub fn subtrees_meet_each_node_once()
    ensures { SubtreesMeetOnce }
{}

/// No node stands twice on the path to a node.
pub fn paths_meet_each_node_once()
    ensures { PathsMeetOnce }
{}
