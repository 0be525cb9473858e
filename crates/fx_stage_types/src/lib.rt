//! What a stage is asked and what it answers: steps of building a scene, refusals by the script's words, what a command
//! tells, and what each node has beside its children. Only plain types are here; fx_stage_model says what a step makes
//! of a world, and the stage carries it out.
#![tactic(auto)]

mod answers;
mod edits;
mod node_data;
mod refusals;
mod steps;

pub use answers::{Outcome, StageError};
pub use edits::NodeEdit;
pub use node_data::NodeData;
pub use refusals::Refusal;
pub use steps::{BuildStep, Spot};
