//! `drop`: the end of nodes, with all that they have.
ghost use Rattle.std.specs.Prelude.{◌≡◌, ◌≤◌, ◌++◌, IfOk, None, OnOk, map, ◌+◌};
ghost use Rattle.fx_base.specs.Names.{name_of};
ghost use Rattle.fx_stage_model.specs.Answers.{cost_of};
ghost use Rattle.fx_stage_model.specs.Looking.{properties_in};
ghost use Rattle.fx_stage_model.specs.Nodes as spec;
ghost use Rattle.fx_stage_model.specs.Taking.{IsTaken};
ghost use Rattle.fx_stage_types.specs.Tables.{data_of};
ghost use Rattle.fx_tree.specs.Refusals.{drop_refusal};
ghost use Rattle.fx_tree.specs.Scene.{subtree};

use crate::stage::Stage;
use fx_base::{Ledgers, List, Name, NodeKey, Text, Work};
use fx_stage_parts::{are_gone, drop_if, push_range};
use fx_stage_rows::row_count;
use fx_stage_types::{Outcome, StageError};
use fx_stage_words::told;
use fx_store_model::Change;
use std::alloc::{AllocError, Global};

impl Stage {
    /// `drop ID`: the node and all below it end, and with them their properties, pairs, listeners and handlers.
    #[tactic(auto, unfolding(fx_stage_model::specs::Nodes::drop))]
    pub fn drop_node<L: Ledgers>(
        &mut self,
        alloc: Global,
        path: &[Text],
        work: &mut Work<L>,
    ) -> Result<Outcome, StageError>
        ensures taken { IsTaken (spec.drop path.now self.old) self.old self.new result }
        ensures few { work.new.evaluated ≤ work.old.evaluated + cost_of (spec.drop path.now self.old) }
        ensures others { work.new ≡ record work.old { evaluated = work.new.evaluated } }
    {
        let key = match self.find_node(path) {
            Ok(key) => key,
            Err(word) => return Err(StageError::Refused(word)),
        };
        if let Some(error) = self.graph.drop_refusal(key) {
            return Err(StageError::from(error));
        }
        let keys = match self.graph.tree().subtree(alloc, key) {
            Ok(keys) => keys,
            Err(error) => return Err(StageError::from(error)),
        };
        let Ok(names) = self.names_of_all(alloc, keys.as_slice()) else {
            return Err(StageError::Memory);
        };
        self.forget(alloc, key, keys, names, work)
    }

    /// Forgets these properties, which are those of these nodes, and ends the nodes.
    fn forget<L: Ledgers>(
        &mut self,
        alloc: Global,
        key: NodeKey,
        keys: Vec<NodeKey>,
        names: Vec<Name>,
        work: &mut Work<L>,
    ) -> Result<Outcome, StageError>
        requires allowed { drop_refusal self.old.graph.tree key ≡ None }
        requires keys { keys.items ≡ subtree self.old.graph.tree.nodes key }
        requires names { names.items ≡ spec.names_of_all self.old.graph.table keys.items }
        ensures taken { IsTaken (spec.forgotten key keys.items self.old) self.old self.new result }
        ensures few { work.new.evaluated ≤ work.old.evaluated + cost_of (spec.forgotten key keys.items self.old) }
        ensures others { work.new ≡ record work.old { evaluated = work.new.evaluated } }
    {
        let first = names.first().copied();
        let change = Change::Forget(List::from_vec(names));
        let answer = self.store.apply(alloc, change, work);
        let gone = are_gone(&self.store, first, answer.is_ok());
        drop_if(&mut self.graph, gone, key, keys.as_slice());
        told(alloc, answer)
    }

    /// The properties of these nodes.
    fn names_of_all(&self, alloc: Global, keys: &[NodeKey]) -> Result<Vec<Name>, AllocError>
        ensures { IfOk result (λ names. names.items ≡ spec.names_of_all self.now.graph.table keys.now) }
    {
        let mut names = Vec::new(alloc);
        for key in keys {
            self.push_names(*key, &mut names)?;
        }
        Ok(names)
    }

    /// Puts the properties of the node behind the others.
    fn push_names(&self, key: NodeKey, names: &mut Vec<Name>) -> Result<(), AllocError>
        ensures { OnOk result (names.new.items
            ≡ names.old.items ++ map name_of (properties_in (data_of self.now.graph.table key))) }
    {
        match self.graph.node(key) {
            None => Ok(()),
            Some(node) => push_range(names, node.first, row_count(node.class) as u32),
        }
    }
}
