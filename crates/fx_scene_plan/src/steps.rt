//! The steps of a plan. A node is named by its ordinal, from 0 in the order in which the plan makes its nodes, since no
//! key is known before the node is there.
use fx_base::{List, Text, Track, Value};
use fx_css_types::Sheet;
use fx_events::EventKind;
use fx_graph_model::Formula;
use fx_kinds::Class;
use fx_stage_types::Spot;

/// A property by the ordinal of its node and its name.
#[derive(Drop)]
pub struct PlannedProperty {
    pub node: usize,
    pub property: Text,
}

/// A step of building a scene, by the ordinals of nodes.
#[derive(Drop)]
pub enum PlannedStep {
    /// A further node of this class with its properties.
    Node(Class),
    /// The node is known by this path, too.
    Named(usize, List<Text>),
    /// The node is the scene's root.
    Root(usize),
    /// The second node is a child of the first.
    Child(usize, usize, Spot),
    /// The property has this value by code.
    Code(PlannedProperty, Value),
    /// The property is bound to the formula over the operands.
    Bind(PlannedProperty, Formula, List<PlannedProperty>),
    /// The node has this constraint by its whole name, as `HBox.hgrow`.
    Constraint(usize, Text, Value),
    /// The node has one more style class.
    Class(usize, Text),
    /// The node has this inline style.
    Inline(usize, Sheet),
    /// The node, or the scene, has one more style sheet.
    Sheet(Option<usize>, Sheet),
    /// The node's convenience handler of the type runs this action.
    Convenience(usize, EventKind, Text),
    /// The grid's columns and rows.
    Tracks(usize, List<Track>, List<Track>),
}
