//! The looks of all nodes of a scene, kept from one update to the next. An update styles anew just the nodes that it is
//! told; layouts and shapes read the looks.
#![tactic(auto)]

mod above;
mod entries;
mod kept;
mod laws;
mod making;
mod marks;
mod memory;
mod parting;
mod putting;
mod recoding;
mod rewriting;
mod siblings;
mod styles;

pub use kept::{Entry, Fresh, Rest, is_key};
pub use laws::{
    few_are_worked, matches_name_each_rule_once, one_winner, same_ancestors_same_style,
    same_ancestors_same_winners, updates_agree,
};
pub use making::Scene;
pub use styles::Styles;
