//! The stage and what it is made of.
ghost use Rattle.std.specs.Prelude.{◌≡◌};
ghost use Rattle.fx_stage_model.specs.World.{nowhere};

use fx_base::{List, Name, NodeKey, Text};
use fx_handles::Owner;
use fx_stage_graph::Graph;
use fx_stage_parts::Action;
use fx_stage_tables::NameMap;
use fx_store::Store;
use indexmap::IndexMap;
use std::alloc::Global;
use std::marker::Model;

/// All that a scene is made of and that its script has named. Contracts see a world.
#[derive(Drop)]
pub struct Stage {
    pub(crate) store: Store,
    pub(crate) graph: Graph,
    pub(crate) free: NameMap<Name>,
    pub(crate) labels: NameMap<Owner>,
    pub(crate) actions: NameMap<Action>,
    /// The actions that listeners run; a listener's tag is the place from 1.
    pub(crate) run: Vec<Text>,
    /// The path of the property as the listener's line wrote it. Those of listeners that are gone may still be here.
    pub(crate) written: IndexMap<u32, List<Text>>,
    pub(crate) pointer: Option<(i64, i64)>,
    pub(crate) button: bool,
    pub(crate) window: Option<(u32, u32)>,
}

impl Model for Stage {
    ghost use Rattle.std.specs.FinMap as map_of;
    ghost use Rattle.std.specs.Coded.{codes, coded_list};
    ghost use Rattle.fx_base.specs.contracts.keys.NodeKey.{the_row as key_row};
    ghost use Rattle.fx_events.specs.Keyed.{key_cmp};
    ghost use Rattle.fx_events.specs.contracts.registrations.Registration.{the_row as registration_row};
    ghost use Rattle.fx_graph_model.specs.contracts.entries.Entry as entry;
    ghost use Rattle.fx_stage_types.specs.contracts.node_data.NodeData.{the_row as node_row};
    ghost use Rattle.fx_stage_model.specs.Coding.{coded_numbered};
    ghost use Rattle.fx_stage_model.specs.World.{World};

    ghost Value = { World };

    ghost coded = { Prim.hlevel (
      codes,
      entry.the_row.coded,
      map_of.code {R = key_cmp} key_row.coded (coded_list registration_row.coded),
      map_of.code {R = key_cmp} key_row.coded node_row.coded,
      coded_numbered,
    ) };

    ghost use Rattle.fx_stage.specs.Kept.{IsKept, seen};

    ghost view = { λ s. seen s.store s.graph s.free.entries s.labels.entries s.actions.entries s.run.items
        s.written.entries s.pointer s.button s.window };

    ghost invariant = { λ s. IsKept s.store s.graph.table s.free.entries s.written.entries };
}

impl Stage {
    /// Nothing is built, and nothing is named.
    pub fn new(alloc: Global) -> Stage
        ensures { result ≡ nowhere }
    {
        Stage {
            store: Store::new(alloc),
            graph: Graph::new(alloc),
            free: NameMap::new(alloc),
            labels: NameMap::new(alloc),
            actions: NameMap::new(alloc),
            run: Vec::new(alloc),
            written: IndexMap::new(alloc),
            pointer: None,
            button: false,
            window: None,
        }
    }
}
