//! `new`: further nodes with their properties.
ghost use Rattle.std.specs.Prelude.{◌≡◌, ℕ, None, false};
ghost use Rattle.fx_stage_model.specs.Answers.{silently};
ghost use Rattle.fx_stage_model.specs.Nodes as spec;
ghost use Rattle.fx_stage_model.specs.Taking.{IsTaken};
ghost use Rattle.fx_stage_types.specs.Tables.{node_at};

use crate::stage::Stage;
use fx_base::Text;
use fx_kinds::Class;
use fx_stage_parts::{has_no_room_for, path_of};
use fx_stage_rows::declare_rows;
use fx_stage_types::{Outcome, Refusal, StageError};
use fx_stage_words::{made, node_class};
use std::alloc::Global;

impl Stage {
    /// `new CLASS ID`: a further node, which has no parent, known by this name.
    #[tactic(auto, unfolding(fx_stage_model::specs::Nodes::new))]
    pub fn new_node(
        &mut self,
        alloc: Global,
        class: &Text,
        id: &Text,
    ) -> Result<Outcome, StageError>
        ensures { (slot : ℕ) × IsTaken (spec.new slot class.now id.now self.old) self.old self.new result }
    {
        let Some(class) = node_class(class.as_str()) else {
            return Err(StageError::Refused(Refusal::Value));
        };
        let Ok(path) = path_of(alloc, id) else {
            return Err(StageError::Memory);
        };
        if self.graph.find(path.as_slice()).is_some() {
            return Err(StageError::Refused(Refusal::Exists));
        }
        if has_no_room_for(&self.graph, &self.store, class) {
            return Err(StageError::Refused(Refusal::Full));
        }
        self.make_named(alloc, class, path)
    }

    /// Makes the node, for which there is room.
    fn make_named(
        &mut self,
        alloc: Global,
        class: Class,
        path: Vec<Text>,
    ) -> Result<Outcome, StageError>
        requires new { node_at self.old.graph.paths path.items ≡ None }
        requires room { spec.has_no_room class self.old ≡ false }
        ensures { (slot : ℕ) × IsTaken (silently (spec.with_name path.items (spec.next_key slot self.old)
            (spec.with_node class (spec.next_key slot self.old) self.old))) self.old self.new result }
    {
        let Ok(first) = declare_rows(&mut self.store, alloc, class) else {
            return Err(StageError::Memory);
        };
        made(alloc, self.graph.make_named(alloc, class, first, path))
    }
}
