//! Steps of building a scene.
use fx_base::{List, Name, NodeKey, Text, Track, Value};
use fx_css_types::Sheet;
use fx_events::EventKind;
use fx_graph_model::Formula;
use fx_kinds::Class;

/// Where a child goes: to a place among the children, or to an edge of a `BorderPane`, which are counted from 0 in the
/// order top, right, bottom, left, centre.
#[derive(Clone, Copy, Debug, PartialEq, Eq)]
pub enum Spot {
    At(usize),
    On(u8),
}

/// A step of building a scene. A loader takes them in document order.
#[derive(Drop)]
pub enum BuildStep {
    /// A further node of this class with its properties.
    Node(Class),
    /// The node is known by this path, too.
    Named(NodeKey, List<Text>),
    /// The node is the scene's root.
    Root(NodeKey),
    /// The second node is a child of the first.
    Child(NodeKey, NodeKey, Spot),
    /// The property has this value by code.
    Code(Name, Value),
    /// The property is bound to the formula over the operands.
    Bind(Name, Formula, List<Name>),
    /// The node has this constraint by its whole name, as `HBox.hgrow`.
    Constraint(NodeKey, Text, Value),
    /// The node has one more style class.
    Class(NodeKey, Text),
    /// The node has this inline style.
    Inline(NodeKey, Sheet),
    /// The node, or the scene, has one more style sheet.
    Sheet(Option<NodeKey>, Sheet),
    /// The node's convenience handler of the type runs this action.
    Convenience(NodeKey, EventKind, Text),
    /// The grid's columns and rows.
    Tracks(NodeKey, List<Track>, List<Track>),
}
