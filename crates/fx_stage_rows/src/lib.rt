//! The properties of a node in a store: a node has those of its class, numbered in the order of the class's rows.
#![tactic(auto)]

mod rows;

pub use rows::{declare_rows, row_count};
