//! The insets of a node by its look: what its padding and its border layers leave of it is its content (JavaFX 21 API,
//! `Region`). Layout takes them off a node's size, and what draws a node puts its text inside them.
#![tactic(auto)]

mod insets;

pub use insets::{Side, inset_on, insets_of, layer_at, on};
