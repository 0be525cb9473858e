//! What property elements ask for: values of properties and of constraints, style classes and style sheets, and the
//! constraints of columns and rows.
#![tactic(auto)]

mod elements;
mod entries;
mod held;
mod lanes;
mod lists;
mod pushing;
mod targets;
mod tracks;

pub use elements::add_element;
pub use lanes::Lane;
pub use pushing::{push, push_all, push_flaw, push_flaw_in};
