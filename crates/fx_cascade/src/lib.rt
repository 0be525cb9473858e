//! The cascade (JavaFX CSS Reference Guide): which declaration or code value wins each property of a node. Selectors
//! find the rules that match; looks are made of what wins here.
#![tactic(auto)]

mod laws;
mod one_property;
mod others;
mod ranks;
mod sources;
mod tables;

pub use laws::{best_wins, none_speaks, one_best};
pub use one_property::{best, declarations_at};
pub use ranks::is_below;
pub use sources::{Source, Winner};
pub use tables::{Winners, style_node};
