//! Plans of scenes: the steps of building one, written before any of its nodes is made, and what they make of a world.
//! A loader writes plans, and whoever holds a stage carries them out.
#![tactic(auto)]

mod steps;

pub use steps::{PlannedProperty, PlannedStep};
