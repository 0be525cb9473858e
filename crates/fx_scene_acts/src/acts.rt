//! What documents ask for, in the order of work.
ghost use Rattle.std.specs.Prelude.{◌≡◌};
ghost use Rattle.fx_scene_acts.specs.Acts as spec;

use fx_base::{Position, Text};
use fx_kinds::Class;
use fx_scene_flaws::Flaw;
use fx_scene_plan::PlannedStep;

/// A property that is bound to an expression, once all names of the scene are known.
#[derive(Drop)]
pub struct Binding {
    pub node: usize,
    pub class: Class,
    /// The property as documents call it.
    pub property: Text,
    /// What stands between `${` and `}`.
    pub text: Text,
}

/// What is asked for at an act.
#[derive(Drop)]
pub enum Deed {
    /// A step of building the scene.
    Step(PlannedStep),
    /// The document is at fault, and nothing behind it is done.
    Flaw(Flaw),
    /// The style sheet at this location beside the document is a further one of the node.
    Sheet(usize, Text),
    /// The style sheet in the file of this name is a further one of the node.
    File(usize, Text),
    /// The property is bound behind all documents.
    Bind(Binding),
    /// The node of a definition within a value that stands here is read before anything behind it.
    Node,
}

/// What a place of a document asks for.
#[derive(Drop)]
pub struct Act {
    pub place: Position,
    pub deed: Deed,
}

/// Is a node read before anything behind the act?
pub fn is_node_act(act: &Act) -> bool
    ensures { result ≡ spec.is_node_act act.now }
{
    matches!(act.deed, Deed::Node)
}
