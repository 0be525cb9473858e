//! The outline of a document: its instances and property elements as a flat list in document order, each with where it
//! stands, and flaws where an element or a text may not stand; and the nodes in the definitions within its values.
#![tactic(auto)]

mod adding;
mod defined;
mod edges;
mod entering;
mod nodes;
mod outlines;
mod pieces;

pub use defined::defined_nodes;
pub use nodes::{
    has_attribute, is_define, is_defined_node, is_include, is_reference, is_scene_node,
};
pub use outlines::{aside_outline, outline};
pub use pieces::{Piece, Seat};
