//! What a frame takes from a stage: the style sheets, and of each node in the scene what its style and its layout hang
//! on. The lists of the last frame serve again. And what a frame gives back: the window, and the size of each node.
#![tactic(auto)]

mod attached;
mod boxes;
mod drafts;
mod facts;
mod laws;
mod places;
mod publishing;
mod refills;
mod sheets;
mod stands;
mod styles;
mod values;

pub use facts::{Facts, read_facts, refresh_facts};
pub use laws::{facts_fit_together, nodes_are_a_tree};
pub use publishing::{Published, publish};
