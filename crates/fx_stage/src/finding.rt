//! Nodes by their paths, and properties by their names.
ghost use Rattle.std.specs.Prelude.{◌≡◌};
ghost use Rattle.fx_stage_model.specs.Answers.{both};
ghost use Rattle.std.specs.Option.{option_map};
ghost use Rattle.fx_stage_types.specs.Tables.{data_of, node_at};
ghost use Rattle.fx_stage_model.specs.Looking as spec;

use crate::stage::Stage;
use fx_base::{Name, NodeKey, Text};
use fx_stage_parts::{both, name_in, or_property, or_unknown};
use fx_stage_types::Refusal;

impl Stage {
    /// The node of this path.
    pub fn find(&self, path: &[Text]) -> Option<NodeKey>
        ensures { result ≡ node_at self.now.graph.paths path.now }
    {
        self.graph.find(path)
    }

    /// The node's property of this name.
    #[tactic(auto, unfolding(fx_stage_model::specs::Looking::property_in))]
    pub fn name_of(&self, key: NodeKey, property: &Text) -> Option<Name>
        ensures { option_map (λ name. name.0) result
            ≡ spec.property_in (data_of self.now.graph.table key) property.now }
    {
        match self.graph.node(key) {
            None => None,
            Some(node) => name_in(node, property),
        }
    }

    /// The node of this path, or the word for why there is none.
    #[tactic(auto, unfolding(fx_stage_model::specs::Looking::find_node))]
    pub(crate) fn find_node(&self, path: &[Text]) -> Result<NodeKey, Refusal>
        ensures { result ≡ spec.find_node self.now path.now }
    {
        match self.graph.find(path) {
            Some(key) => Ok(key),
            None => Err(Refusal::Unknown),
        }
    }

    /// The property of this name of the node of this path, or the word for why there is none.
    #[tactic(auto, unfolding(fx_stage_model::specs::Looking::find_of_node))]
    fn find_of_node(&self, path: &[Text], property: &Text) -> Result<Name, Refusal>
        ensures { result ≡ spec.find_of_node self.now path.now property.now }
    {
        match self.find_node(path) {
            Ok(key) => or_property(self.name_of(key, property)),
            Err(word) => Err(word),
        }
    }

    /// The property of this path, or the word for why there is none.
    #[tactic(auto, unfolding(fx_stage_model::specs::Looking::find))]
    pub fn find_property(&self, path: &[Text]) -> Result<Name, Refusal>
        ensures { result ≡ spec.find self.now path.now }
    {
        match path {
            [] => Err(Refusal::Unknown),
            [name] => or_unknown(self.free.get(name).copied()),
            _ => {
                let end = path.len() - 1;
                self.find_of_node(&path[..end], &path[end])
            }
        }
    }

    /// Both properties, or the first word for why one isn't there.
    pub(crate) fn find_two(&self, one: &[Text], other: &[Text]) -> Result<(Name, Name), Refusal>
        ensures { result ≡ both (spec.find self.now one.now) (spec.find self.now other.now) }
    {
        both(self.find_property(one), self.find_property(other))
    }
}
