//! Changes of the scene graph alone, by the keys of nodes.
ghost use Rattle.std.specs.Prelude.{◌≡◌};
ghost use Rattle.fx_stage_model.specs.Answers.{silently};
ghost use Rattle.fx_stage_model.specs.Dressing.{edited_in, registered};
ghost use Rattle.fx_stage_model.specs.Graphs as spec;
ghost use Rattle.fx_stage_model.specs.Nodes.{by_tree};
ghost use Rattle.fx_stage_model.specs.Taking.{IsTaken};
ghost use Rattle.fx_stage_model.specs.World.{with_graph};
ghost use Rattle.fx_tree.specs.Refusals.{detach_refusal, root_refusal};

use crate::stage::Stage;
use fx_base::{NodeKey, Text};
use fx_css_types::Sheet;
use fx_events::{EventKind, Phase};
use fx_stage_types::{NodeEdit, Outcome, Spot, StageError};
use fx_stage_words::{plain, silent};
use std::alloc::Global;

impl Stage {
    /// Makes one change of what the node has of its own.
    pub(crate) fn edit(
        &mut self,
        alloc: Global,
        key: NodeKey,
        edit: NodeEdit,
    ) -> Result<Outcome, StageError>
        ensures { IsTaken (silently (edited_in key edit self.old)) self.old self.new result }
    {
        plain(alloc, self.graph.edit(alloc, key, edit))
    }

    /// The scene has one more style sheet, behind the others.
    pub(crate) fn add_sheet(&mut self, alloc: Global, sheet: Sheet) -> Result<Outcome, StageError>
        ensures { IsTaken (silently (with_graph (spec.with_sheet sheet self.old.graph) self.old))
            self.old self.new result }
    {
        plain(alloc, self.graph.add_sheet(sheet))
    }

    /// Makes the node the root of the scene.
    pub(crate) fn make_root(&mut self, alloc: Global, key: NodeKey) -> Result<Outcome, StageError>
        ensures { IsTaken (by_tree (root_refusal self.old.graph.tree key) (spec.rooted key self.old.graph) self.old)
            self.old self.new result }
    {
        silent(alloc, self.graph.set_root(alloc, key))
    }

    /// Puts the child into the pane's list, at the spot.
    pub(crate) fn put_child(
        &mut self,
        alloc: Global,
        pane: NodeKey,
        child: NodeKey,
        spot: Spot,
    ) -> Result<Outcome, StageError>
        ensures { IsTaken (by_tree (spec.child_refusal pane child spot self.old.graph)
            (spec.attached pane child spot self.old.graph) self.old) self.old self.new result }
    {
        silent(alloc, self.graph.attach(alloc, pane, child, spot))
    }

    /// Takes the node from its parent.
    pub(crate) fn take_child(&mut self, alloc: Global, key: NodeKey) -> Result<Outcome, StageError>
        ensures { IsTaken (by_tree (detach_refusal self.old.graph.tree key) (spec.detached key self.old.graph) self.old)
            self.old self.new result }
    {
        silent(alloc, self.graph.detach(alloc, key))
    }

    /// Registers an action at the node.
    pub(crate) fn register(
        &mut self,
        alloc: Global,
        key: NodeKey,
        on: EventKind,
        phase: Phase,
        action: Text,
    ) -> Result<Outcome, StageError>
        ensures { IsTaken (registered key (spec.registration on phase action) self.old) self.old self.new result }
    {
        silent(alloc, self.graph.add_handler(alloc, key, on, phase, action))
    }
}
