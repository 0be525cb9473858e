//! The sweeps by which a tree of nodes is laid out along one axis: measuring from the leaves, and placing from the
//! root. Both work on some of the nodes alone, and leave what is kept of the others. They stand on the rules of the
//! panes, below the layout of a whole scene.
#![tactic(auto)]

mod lengths;
mod marks;
mod measuring;
mod moving;
mod nodes;
mod parts;
mod places;
mod placing;
mod rows;

pub use lengths::{NOWHERE, UNKNOWN, extent_at, span_at};
pub use marks::Marks;
pub use measuring::{Measuring, measure_nodes};
pub use moving::{Moving, place_nodes};
pub use nodes::children_in;
pub use places::{Places, children_lists};
pub use placing::{Placing, move_child, place_again};
