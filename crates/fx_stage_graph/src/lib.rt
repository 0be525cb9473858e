//! The scene graph of a stage: the tree with what its nodes have of their own, their handlers and paths, the scene's
//! sheets, and which nodes the pointer, the button and the focus are on. Steps and lines on nodes are carried out here,
//! by keys; the stage finds the keys and keeps the properties.
#![tactic(auto)]

mod dropping;
mod graph;
mod making;
mod placing;
mod pointing;

pub use graph::Graph;
pub use pointing::Pointing;
