//! The picture of a scene in plain values: shapes, the entries of the nodes that show, bounds of what is drawn, and
//! the colour of each point, painted from scratch.
//! Damage, canvas and picking stand on it; it stands on colours and text cells.
#![tactic(auto)]

mod edges;
mod entries;
mod sameness;
mod shapes;

pub use edges::{Bounds, bounds_of, is_empty, joined, meeting, same_bounds};
pub use entries::{Entry, Picture};
pub use shapes::{Shape, bounds, color_of};
