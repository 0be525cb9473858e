//! What each living node has of its own, by its key.
ghost use Rattle.std.specs.Prelude.{◌≡◌, ◌<◌, IfSome, IsOk, OnOk, OnErr, Some};
ghost use Rattle.std.specs.FinMap as map_of;
ghost use Rattle.std.specs.Option.{option_copied};
ghost use Rattle.fx_stage_types.specs.Edits.{edited, with_edge};
ghost use Rattle.fx_stage_types.specs.Tables.{changed_data, data_of, nobody};

use fx_base::NodeKey;
use fx_stage_types::{NodeData, NodeEdit};
use indexmap::IndexMap;
use std::alloc::{AllocError, Global};
use std::marker::Model;

/// What each living node has. Contracts see a map from keys, and for how many more nodes there is room.
#[derive(Drop)]
pub struct NodeTable {
    nodes: IndexMap<NodeKey, NodeData>,
}

impl Model for NodeTable {
    ghost use Rattle.std.specs.FinMap as map_of;
    ghost use Rattle.std.specs.Coded.{codes};
    ghost use Rattle.fx_base.specs.contracts.keys.NodeKey.{the_row as key_row};
    ghost use Rattle.fx_events.specs.Keyed.{key_cmp};
    ghost use Rattle.fx_stage_types.specs.contracts.node_data.NodeData.{the_row as node_row};
    ghost use Rattle.fx_stage_tables.specs.Roomy.{Roomy};
    ghost use Rattle.indexmap.specs.IndexMap.{spare};

    ghost Value = { Roomy };

    ghost coded = { Prim.hlevel (codes, map_of.code {R = key_cmp} key_row.coded node_row.coded) };

    ghost view = { λ t. record { map = map_of.from_entries t.nodes.entries; room = spare t.nodes } };
}

impl NodeTable {
    /// No node has anything.
    pub fn new(alloc: Global) -> NodeTable
        ensures { result.map ≡ nobody }
    {
        NodeTable {
            nodes: IndexMap::new(alloc),
        }
    }

    /// What the node has. It is looked for first at the place of its slot, where it stands if no node has gone.
    pub fn get(&self, key: NodeKey) -> Option<&NodeData>
        ensures { option_copied result ≡ data_of self.now.map key }
    {
        if let Some(node) = self.get_by_slot(key) {
            return Some(node);
        }
        self.nodes.get(&key)
    }

    /// What the node has, if it stands at the place of its slot.
    #[inline]
    fn get_by_slot(&self, key: NodeKey) -> Option<&NodeData>
        ensures { IfSome result (λ node. data_of self.now.map key ≡ Some node.now) }
    {
        match self.nodes.get_index(key.slot) {
            Some((other, node)) if *other == key => Some(node),
            _ => None,
        }
    }

    /// Makes room for one node more.
    pub fn reserve(&mut self) -> Result<(), AllocError>
        ensures same { self.new.map ≡ self.old.map }
        ensures room { OnOk result (0 < self.new.room) }
    {
        self.nodes.reserve(1)
    }

    /// The node has this.
    pub fn put(&mut self, key: NodeKey, node: NodeData) -> Result<(), AllocError>
        ensures ok { OnOk result (self.new.map ≡ map_of.insert self.old.map key node) }
        ensures err { OnErr result (self.new.map ≡ self.old.map) }
        ensures room { 0 < self.old.room → IsOk result }
    {
        match self.nodes.insert(key, node) {
            Ok(_) => Ok(()),
            Err(_) => Err(AllocError),
        }
    }

    /// Makes one change of what the node has, if it has anything.
    pub fn edit(&mut self, alloc: Global, key: NodeKey, edit: NodeEdit) -> Result<(), AllocError>
        ensures ok { OnOk result (self.new.map ≡ changed_data key (edited edit) self.old.map) }
        ensures err { OnErr result (self.new.map ≡ self.old.map) }
    {
        if let Some(node) = self.nodes.get_mut(&key) {
            return node.edit(alloc, edit);
        }
        Ok(())
    }

    /// The node stands on this edge of its parent, or on none.
    pub fn set_edge(&mut self, key: NodeKey, edge: Option<u8>)
        ensures { self.new.map ≡ changed_data key (with_edge edge) self.old.map }
    {
        if let Some(node) = self.nodes.get_mut(&key) {
            node.set_edge(edge);
            return;
        }
    }

    /// The node has nothing.
    pub fn forget(&mut self, key: NodeKey)
        ensures { self.new.map ≡ map_of.remove self.old.map key }
    {
        let _ = self.nodes.swap_remove(&key);
    }
}
