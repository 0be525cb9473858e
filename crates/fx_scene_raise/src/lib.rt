//! Carrying out what is done for a scene: tasks, one after another, on a stage.
#![tactic(auto)]

mod errors;
mod raising;

pub use errors::RaiseError;
pub use raising::raise;
