//! The layout of a whole scene, kept from one update to the next: four sweeps over the tree of nodes, of which each
//! works on the nodes that are listed and on those whose length is another than the last.
#![tactic(auto)]

mod along;
mod copies;
mod keys;
mod laws;
mod layouts;
mod lengths;
mod nodes;
mod rects;
mod spare;
mod trees;

pub use laws::{anew_is_layout, one_layout, updates_agree};
pub use layouts::{Layouts, Updated};
pub use nodes::{are_nodes, can_be_laid};
