//! Expressions of a document: properties bound to what stands between `${` and `}`, over properties of nodes by their
//! names.
#![tactic(auto)]

mod binding;
mod names;
mod operands;
mod reading;

pub use binding::bound;
pub use names::{add_name, add_named, attribute_named, value_at};
