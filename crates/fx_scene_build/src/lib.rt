//! Building scenes: a plan is carried out on a stage, whose keys and names are looked up as they come to be.
#![tactic(auto)]

mod building;
mod resolving;
mod room;

pub use building::{build_scene, take_step};
pub use room::look_for_room;
