//! A script played whole on a loaded scene: what it writes, defined on lists, and lemmas for a player that takes the
//! lines one by one.
#![tactic(auto)]

mod manners;

pub use manners::Manner;
