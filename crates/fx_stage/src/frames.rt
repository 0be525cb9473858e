//! What a frame takes from the stage, and what it gives back.
ghost use Rattle.std.specs.Prelude.{◌≡◌, ◌≤◌, ◌+◌, OnOk, Some};
ghost use Rattle.fx_base.specs.Names.{numbers};
ghost use Rattle.fx_graph_model.specs.Changes.{AreKnown};
ghost use Rattle.fx_graph_model.specs.Unread.{after_reads, evaluations_of};
ghost use Rattle.fx_store_model.specs.declared.changes.Change.TheVariants.{Publish};
ghost use Rattle.fx_store_model.specs.Step.{IsFit};
ghost use Rattle.fx_store_model.specs.Stored.{with_unread};
ghost use Rattle.fx_stage_model.specs.Answers.{cost_of};
ghost use Rattle.fx_stage_model.specs.Properties as spec;
ghost use Rattle.fx_stage_model.specs.Sound.{IsSound};
ghost use Rattle.fx_stage_model.specs.Taking.{IsReadSome, IsTaken};

use crate::stage::Stage;
use fx_base::{Ledgers, List, Name, Value, Work};
use fx_stage_graph::Graph;
use fx_stage_types::{Outcome, StageError};
use fx_store::Store;
use fx_store_model::Change;
use std::alloc::{AllocError, Global};

impl Stage {
    /// Lends the scene graph.
    pub fn graph(&self) -> &Graph
        ensures { result.now ≡ self.now.graph }
    {
        &self.graph
    }

    /// Lends the properties.
    pub fn store(&self) -> &Store
        ensures { result.now ≡ self.now.store }
    {
        &self.store
    }

    /// The width and the height of the window in pixels, if there is one.
    pub fn window(&self) -> Option<(u32, u32)>
        ensures { result ≡ self.now.window }
    {
        self.window
    }

    /// What is true at all times: the properties of nodes and the free ones are known, and no two nodes have one.
    pub fn laws(&self)
        ensures { IsSound self.now.store.entries self.now.graph.table self.now.names.free }
    {
        let _button = self.button;
    }

    /// Reads these known properties. Where memory is wanting, some may have been read.
    pub fn read_all<L: Ledgers>(
        &mut self,
        alloc: Global,
        names: &[Name],
        work: &mut Work<L>,
    ) -> Result<(), AllocError>
        requires { AreKnown self.old.store.entries names.now }
        ensures ok { OnOk result (self.new ≡ record self.old {
          store = with_unread (after_reads self.old.store.entries (numbers names.now) self.old.store.unread)
              self.old.store;
        }) }
        ensures part { IsReadSome self.old self.new }
        ensures cost { work.new.evaluated ≤ work.old.evaluated
            + evaluations_of self.old.store.entries (numbers names.now) self.old.store.unread }
        ensures others { work.new ≡ record work.old { evaluated = work.new.evaluated } }
    {
        self.store.read_all(alloc, names, work)
    }

    /// Gives properties that only the player writes their values, in one change.
    pub fn publish<L: Ledgers>(
        &mut self,
        alloc: Global,
        pairs: List<(Name, Value)>,
        work: &mut Work<L>,
    ) -> Result<Outcome, StageError>
        requires { IsFit (Publish pairs) self.old.store }
        ensures taken { IsTaken (spec.changed (Publish pairs) self.old) self.old self.new result }
        ensures few { work.new.evaluated ≤ work.old.evaluated + cost_of (spec.changed (Publish pairs) self.old) }
        ensures others { work.new ≡ record work.old { evaluated = work.new.evaluated } }
    {
        self.change_store(alloc, Change::Publish(pairs), work)
    }

    /// The window has this width and this height from now on, in pixels.
    pub fn keep_window(&mut self, window: (u32, u32))
        ensures { self.new ≡ record self.old { window = Some window } }
    {
        self.window = Some(window);
    }
}
