//! What the names of documents stand for, found without a search over all of them.
#![tactic(auto)]

mod names;
mod settled;
mod spaces;
mod things;

pub use names::Names;
pub use settled::{Settled, names_behind};
pub use spaces::{Space, names_in, node_along};
pub use things::{Named, Thing};
