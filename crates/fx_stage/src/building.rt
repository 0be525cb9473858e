//! Steps of building a scene.
ghost use Rattle.std.specs.Prelude.{◌≡◌, ℕ, Some, false, ◌≤◌, ◌+◌};
ghost use Rattle.fx_stage_model.specs.Answers.{cost_of, silently};
ghost use Rattle.fx_stage_model.specs.Building as spec;
ghost use Rattle.fx_stage_model.specs.Nodes.{has_no_room, next_key, with_node};
ghost use Rattle.fx_stage_model.specs.Taking.{IsBuilt, IsTaken};

use crate::stage::Stage;
use fx_base::{Ledgers, List, NodeKey, Text, Track, Value, Work};
use fx_css_types::Sheet;
use fx_events::{EventKind, Phase};
use fx_kinds::{Class, Constraint, constraint_of, is_node};
use fx_stage_parts::{has_no_room_for, is_full_of_classes, is_living, no_node};
use fx_stage_rows::declare_rows;
use fx_stage_types::{BuildStep, NodeEdit, Outcome, Refusal, StageError};
use fx_stage_words::{one_node, plain};
use fx_store_model::Change;
use std::alloc::{AllocError, Global};

/// The most columns and the most rows of a grid.
const MOST_TRACKS: usize = 256;

impl Stage {
    /// Makes room for so many more properties, so that making their nodes moves none.
    pub fn reserve(&mut self, properties: usize) -> Result<(), AllocError>
        ensures { self.new ≡ self.old }
    {
        self.store.reserve(properties)
    }

    /// Makes a step of building a scene, and answers the node that it makes, if it makes one. Steps are refused by the
    /// words of script lines.
    #[tactic(auto, unfolding(fx_stage_model::specs::Building::built, fx_stage_model::specs::Building::root))]
    pub fn build<L: Ledgers>(
        &mut self,
        alloc: Global,
        step: BuildStep,
        work: &mut Work<L>,
    ) -> Result<Option<NodeKey>, StageError>
        requires fit { spec.IsFitStep step }
        ensures built { (slot : ℕ) × IsBuilt (spec.built slot step self.old) (spec.node_made slot step self.old)
            self.old self.new result }
        ensures few { (slot : ℕ) → work.new.evaluated ≤ work.old.evaluated
            + cost_of (spec.built slot step self.old) }
        ensures others { work.new ≡ record work.old { evaluated = work.new.evaluated } }
    {
        match step {
            BuildStep::Node(class) => self.make(alloc, class),
            BuildStep::Named(key, path) => no_node(self.name(alloc, key, path)),
            BuildStep::Root(key) => no_node(self.make_root(alloc, key)),
            BuildStep::Child(pane, child, spot) => no_node(self.put_child(
                alloc, pane, child, spot,
            )),
            BuildStep::Code(name, value) => {
                no_node(self.change_store(alloc, Change::Set(name, value), work))
            }
            BuildStep::Bind(name, formula, operands) => {
                no_node(self.change_store(alloc, Change::Bind(name, formula, operands), work))
            }
            BuildStep::Constraint(key, name, value) => no_node(self.put_constraint(
                alloc, key, name, value,
            )),
            BuildStep::Class(key, name) => no_node(self.put_class(alloc, key, name)),
            BuildStep::Inline(key, sheet) => no_node(self.put_inline(alloc, key, sheet)),
            BuildStep::Sheet(key, sheet) => no_node(self.dress(alloc, key, sheet)),
            BuildStep::Convenience(key, on, action) => no_node(self.put_convenience(
                alloc, key, on, action,
            )),
            BuildStep::Tracks(key, columns, rows) => no_node(self.put_tracks(
                alloc, key, columns, rows,
            )),
        }
    }

    /// A further node.
    #[tactic(auto, unfolding(fx_stage_model::specs::Building::make))]
    fn make(&mut self, alloc: Global, class: Class) -> Result<Option<NodeKey>, StageError>
        ensures { (slot : ℕ) × IsBuilt (spec.make slot class self.old) (Some (next_key slot self.old))
            self.old self.new result }
    {
        if !is_node(class) {
            return Err(StageError::Refused(Refusal::Value));
        }
        if has_no_room_for(&self.graph, &self.store, class) {
            return Err(StageError::Refused(Refusal::Full));
        }
        self.make_nameless(alloc, class)
    }

    /// Makes the node, for which there is room.
    fn make_nameless(&mut self, alloc: Global, class: Class) -> Result<Option<NodeKey>, StageError>
        requires room { has_no_room class self.old ≡ false }
        ensures { (slot : ℕ) × IsBuilt (silently (with_node class (next_key slot self.old) self.old))
            (Some (next_key slot self.old)) self.old self.new result }
    {
        let Ok(first) = declare_rows(&mut self.store, alloc, class) else {
            return Err(StageError::Memory);
        };
        one_node(self.graph.make(alloc, class, first))
    }

    /// The node is known by this path, too.
    #[tactic(auto, unfolding(fx_stage_model::specs::Building::name))]
    fn name(&mut self, alloc: Global, key: NodeKey, path: List<Text>) -> Result<Outcome, StageError>
        ensures { IsTaken (spec.name key path self.old) self.old self.new result }
    {
        if !is_living(&self.graph, key) {
            return Err(StageError::Refused(Refusal::Unknown));
        }
        if self.graph.find(path.as_slice()).is_some() {
            return Err(StageError::Refused(Refusal::Exists));
        }
        plain(alloc, self.graph.add_path(path.into_vec(), key))
    }

    /// The node has the constraint, if it is one, with a value that it takes.
    #[tactic(auto, unfolding(fx_stage_model::specs::Building::constrain))]
    fn put_constraint(
        &mut self,
        alloc: Global,
        key: NodeKey,
        name: Text,
        value: Value,
    ) -> Result<Outcome, StageError>
        ensures { IsTaken (spec.constrain key name value self.old) self.old self.new result }
    {
        if !is_living(&self.graph, key) {
            return Err(StageError::Refused(Refusal::Unknown));
        }
        let Some(row) = constraint_of(name.as_str()) else {
            return Err(StageError::Refused(Refusal::Property));
        };
        if !row.takes(&value) {
            return Err(StageError::Refused(Refusal::Value));
        }
        self.edit(
            alloc,
            key,
            NodeEdit::PutConstraint(Constraint { name, value }),
        )
    }

    /// The node has one more style class.
    #[tactic(auto, unfolding(fx_stage_model::specs::Building::class))]
    fn put_class(&mut self, alloc: Global, key: NodeKey, name: Text) -> Result<Outcome, StageError>
        ensures { IsTaken (spec.class key name self.old) self.old self.new result }
    {
        if !is_living(&self.graph, key) {
            return Err(StageError::Refused(Refusal::Unknown));
        }
        if is_full_of_classes(&self.graph, key) {
            return Err(StageError::Refused(Refusal::Full));
        }
        self.edit(alloc, key, NodeEdit::AddClass(name))
    }

    /// The node has this inline style.
    #[tactic(auto, unfolding(fx_stage_model::specs::Building::inline))]
    fn put_inline(
        &mut self,
        alloc: Global,
        key: NodeKey,
        sheet: Sheet,
    ) -> Result<Outcome, StageError>
        ensures { IsTaken (spec.inline key sheet self.old) self.old self.new result }
    {
        if !is_living(&self.graph, key) {
            return Err(StageError::Refused(Refusal::Unknown));
        }
        self.edit(alloc, key, NodeEdit::SetInline(sheet))
    }

    /// The node, or the scene, has one more style sheet.
    #[tactic(auto, unfolding(fx_stage_model::specs::Building::dress))]
    fn dress(
        &mut self,
        alloc: Global,
        key: Option<NodeKey>,
        sheet: Sheet,
    ) -> Result<Outcome, StageError>
        ensures { IsTaken (spec.dress key sheet self.old) self.old self.new result }
    {
        match key {
            None => self.add_sheet(alloc, sheet),
            Some(key) => {
                if !is_living(&self.graph, key) {
                    return Err(StageError::Refused(Refusal::Unknown));
                }
                self.edit(alloc, key, NodeEdit::AddSheet(sheet))
            }
        }
    }

    /// The node's convenience handler of the type runs this action.
    #[tactic(auto, unfolding(fx_stage_model::specs::Building::convenience))]
    fn put_convenience(
        &mut self,
        alloc: Global,
        key: NodeKey,
        on: EventKind,
        action: Text,
    ) -> Result<Outcome, StageError>
        ensures { IsTaken (spec.convenience key on action self.old) self.old self.new result }
    {
        if !is_living(&self.graph, key) {
            return Err(StageError::Refused(Refusal::Unknown));
        }
        self.register(alloc, key, on, Phase::Convenience, action)
    }

    /// The grid has these columns and rows.
    #[tactic(auto, unfolding(fx_stage_model::specs::Building::tracks))]
    fn put_tracks(
        &mut self,
        alloc: Global,
        key: NodeKey,
        columns: List<Track>,
        rows: List<Track>,
    ) -> Result<Outcome, StageError>
        ensures { IsTaken (spec.tracks key columns rows self.old) self.old self.new result }
    {
        if !is_living(&self.graph, key) {
            return Err(StageError::Refused(Refusal::Unknown));
        }
        if columns.as_slice().len() > MOST_TRACKS || rows.as_slice().len() > MOST_TRACKS {
            return Err(StageError::Refused(Refusal::Full));
        }
        self.edit(alloc, key, NodeEdit::SetTracks(columns, rows))
    }
}
