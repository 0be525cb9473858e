//! Nodes by their paths.
ghost use Rattle.std.specs.Prelude.{◌≡◌, ◌<◌, ◌++◌, ◌∷◌, [], IsOk, None, OnOk, OnErr};
ghost use Rattle.fx_stage_types.specs.Tables.{node_at, without_paths};
ghost use Rattle.fx_tree.specs.Scene.{has, is_same};

use fx_base::{NodeKey, Text};
use indexmap::IndexMap;
use std::alloc::{AllocError, Global};
use std::marker::Model;

/// Paths of nodes, each a list of identifiers. Contracts see them in the order in which they were given, and for how
/// many more there is room.
#[derive(Drop)]
pub struct Paths {
    given: IndexMap<Vec<Text>, NodeKey>,
}

impl Model for Paths {
    ghost use Rattle.fx_stage_tables.specs.Given.{paths_of};
    ghost use Rattle.fx_stage_tables.specs.Roomy.{RoomyPaths};
    ghost use Rattle.indexmap.specs.IndexMap.{spare};

    ghost Value = { RoomyPaths };

    ghost view = { λ p. record { list = paths_of p.given.entries; room = spare p.given } };
}

impl Paths {
    /// No node has a path.
    pub fn new(alloc: Global) -> Paths
        ensures { result.list ≡ [] }
    {
        Paths {
            given: IndexMap::new(alloc),
        }
    }

    /// The node of this path. It is found by the path's hash.
    pub fn find(&self, path: &[Text]) -> Option<NodeKey>
        ensures { result ≡ node_at self.now.list path.now }
    {
        self.given.get(path).copied()
    }

    /// Makes room for one path more.
    pub fn reserve(&mut self) -> Result<(), AllocError>
        ensures same { self.new.list ≡ self.old.list }
        ensures room { OnOk result (0 < self.new.room) }
    {
        self.given.reserve(1)
    }

    /// The node is known by this path, too.
    pub fn add(&mut self, path: Vec<Text>, key: NodeKey) -> Result<(), AllocError>
        requires { node_at self.old.list path.items ≡ None }
        ensures ok { OnOk result (self.new.list ≡ self.old.list ++ (path.items, key) ∷ []) }
        ensures err { OnErr result (self.new.list ≡ self.old.list) }
        ensures room { 0 < self.old.room → IsOk result }
    {
        let Ok(_) = self.given.insert(path, key) else {
            return Err(AllocError);
        };
        Ok(())
    }

    /// These nodes are known by no path. It looks at all paths and, for each, at all of these nodes.
    pub fn forget(&mut self, keys: &[NodeKey])
        ensures { self.new.list ≡ without_paths keys.now self.old.list }
    {
        self.given.retain(|_, key| !is_among(keys, *key));
    }
}

/// Is the key one of these?
#[tactic(auto, unfolding(fx_tree::specs::Scene::has))]
pub fn is_among(keys: &[NodeKey], key: NodeKey) -> bool
    ensures { result ≡ has keys.now key }
{
    for other in keys {
        if is_same(*other, key) {
            return true;
        }
    }
    false
}

fn is_same(one: NodeKey, other: NodeKey) -> bool
    ensures { result ≡ is_same one other }
{
    one.slot == other.slot && one.birth == other.birth
}
