//! Lines on where nodes stand in the tree.
ghost use Rattle.std.specs.Prelude.{◌≡◌};
ghost use Rattle.fx_stage_model.specs.Answers.{both};
ghost use Rattle.fx_stage_model.specs.Looking.{find_node};
ghost use Rattle.fx_stage_model.specs.Nodes as spec;
ghost use Rattle.fx_stage_model.specs.Taking.{IsTaken};

use crate::stage::Stage;
use fx_base::{NodeKey, Text};
use fx_stage_parts::both;
use fx_stage_types::{Outcome, Refusal, StageError};
use fx_stage_words::spot_of;
use std::alloc::Global;

impl Stage {
    /// `attach PARENT CHILD PLACE`: the child goes into the parent's list, at a place or at an edge.
    #[tactic(auto, unfolding(fx_stage_model::specs::Nodes::attach))]
    pub fn attach(
        &mut self,
        alloc: Global,
        parent: &[Text],
        child: &[Text],
        place: &Text,
    ) -> Result<Outcome, StageError>
        ensures { IsTaken (spec.attach parent.now child.now place.now self.old) self.old self.new result }
    {
        match self.find_two_nodes(parent, child) {
            Ok((pane, child)) => self.put_child(alloc, pane, child, spot_of(place)),
            Err(word) => Err(StageError::Refused(word)),
        }
    }

    /// `detach ID`: the node leaves its parent.
    #[tactic(auto, unfolding(fx_stage_model::specs::Nodes::detach))]
    pub fn detach(&mut self, alloc: Global, path: &[Text]) -> Result<Outcome, StageError>
        ensures { IsTaken (spec.detach path.now self.old) self.old self.new result }
    {
        match self.find_node(path) {
            Ok(key) => self.take_child(alloc, key),
            Err(word) => Err(StageError::Refused(word)),
        }
    }

    /// Both nodes, or the first word for why one isn't there.
    fn find_two_nodes(&self, one: &[Text], other: &[Text]) -> Result<(NodeKey, NodeKey), Refusal>
        ensures { result ≡ both (find_node self.now one.now) (find_node self.now other.now) }
    {
        both(self.find_node(one), self.find_node(other))
    }
}
