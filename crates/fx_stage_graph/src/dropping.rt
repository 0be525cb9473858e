//! Ending the life of nodes.
ghost use Rattle.std.specs.Prelude.{◌≡◌, OnErr, OnOk};
ghost use Rattle.std.specs.Option.{option_map};
ghost use Rattle.fx_base.specs.Answers.{IsFirmAnswer};
ghost use Rattle.fx_stage_types.specs.Tables.{without_data};
ghost use Rattle.fx_stage_types.specs.Words.{of_tree};
ghost use Rattle.fx_stage_model.specs.Graphs as spec;
ghost use Rattle.fx_tree.specs.Refusals.{drop_refusal, is_held};

use crate::graph::Graph;
use fx_base::NodeKey;
use fx_events::Handlers;
use fx_stage_tables::NodeTable;
use fx_stage_types::StageError;
use fx_tree::TreeError;

impl Graph {
    /// Why the node's life can't be ended, if it can't.
    #[tactic(auto, unfolding(fx_tree::specs::Refusals::drop_refusal))]
    pub fn drop_refusal(&self, key: NodeKey) -> Option<TreeError>
        ensures { result ≡ drop_refusal self.now.tree key }
    {
        if self.tree.children(key).is_none() {
            return Some(TreeError::StaleKey);
        }
        if self.tree.parent(key).is_some() || is_held(self.tree.root(), key) {
            return Some(TreeError::Attached);
        }
        None
    }

    /// Ends the life of the node and of all below it, which are these keys, and of all that they have. It takes no
    /// memory.
    #[tactic(auto, unfolding(fx_stage_model::specs::Graphs::dropped))]
    pub fn drop_nodes(&mut self, key: NodeKey, keys: &[NodeKey]) -> Result<(), StageError>
        ensures answer { IsFirmAnswer (option_map of_tree (drop_refusal self.old.tree key)) result }
        ensures ok { OnOk result (self.new ≡ spec.dropped key keys.now self.old) }
        ensures err { OnErr result (self.new ≡ self.old) }
    {
        self.tree.drop_tree(key)?;
        forget_data(&mut self.nodes, keys);
        forget_handlers(&mut self.handlers, keys);
        self.paths.forget(keys);
        Ok(())
    }
}

fn is_held(held: Option<NodeKey>, key: NodeKey) -> bool
    ensures { result ≡ is_held held key }
{
    match held {
        None => false,
        Some(held) => held.slot == key.slot && held.birth == key.birth,
    }
}

fn forget_data(nodes: &mut NodeTable, keys: &[NodeKey])
    ensures { nodes.new.map ≡ without_data keys.now nodes.old.map }
{
    for key in keys {
        nodes.forget(*key);
    }
}

fn forget_handlers(handlers: &mut Handlers, keys: &[NodeKey])
    ensures { handlers.new ≡ spec.without_handlers keys.now handlers.old }
{
    for key in keys {
        handlers.forget(*key);
    }
}
