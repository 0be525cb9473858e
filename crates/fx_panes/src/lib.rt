//! Panes that give each child its own area: StackPane, AnchorPane and BorderPane (JavaFX 21 API).
//! They stand on the words of all panes, below the layout of the whole tree.
#![tactic(auto)]

pub mod anchor;
pub mod border;
mod rules;
pub mod stack;

pub use rules::{Bound, inner, length_by, outer_by};
