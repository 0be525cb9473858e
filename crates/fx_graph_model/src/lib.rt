//! The store of properties as contracts see it: entries with what defines them, their errors and what is true of every
//! store. The property graph computes what is defined here, and layers above it cite the same definitions.
#![tactic(auto)]

mod entries;
mod errors;
mod formulas;
mod laws;

pub use entries::{Definition, Entry, Operands, Origin, are_same};
pub use errors::GraphError;
pub use formulas::Formula;
pub use laws::{marks_stay_closed, ranks_forbid_cycles, values_have_their_kinds, values_unfold};
