//! Tables of a stage: what each node has of its own by its key, nodes by their paths, and names in the order in which
//! they were given. A stage looks everything up here without a search over all nodes.
#![tactic(auto)]

mod names;
mod node_table;
mod paths;

pub use names::NameMap;
pub use node_table::NodeTable;
pub use paths::{Paths, is_among};
