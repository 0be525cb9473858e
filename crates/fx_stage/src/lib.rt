//! The stage: a world that scripts change and in which a scene is built. Contracts see the world, and each call makes
//! of it what the definition of its line says.
#![tactic(auto)]

mod binding;
mod building;
mod declaring;
mod dressing;
mod dropping;
mod finding;
mod frames;
mod graph_changes;
mod lines;
mod listening;
mod making;
mod naming;
mod placing;
mod properties;
mod running;
mod stage;
mod styling;

pub use fx_stage_parts::Action;
pub use stage::Stage;
