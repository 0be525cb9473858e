//! Pairs of properties that change together, and the groups that they make.
#![tactic(auto)]

mod grouping;
mod laws;
mod pairs;
mod rows;
mod searching;
mod walking;

pub use laws::{joined_is_walked, joining_is_an_equivalence, joining_is_least, pairs_are_joined};
pub use pairs::Pairs;
pub use searching::Searched;
