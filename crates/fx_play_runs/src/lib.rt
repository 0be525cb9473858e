//! A script played whole on a stage: the scene is raised, and what is written of the lines goes to a sink, one line
//! behind the other or as their totals.
#![tactic(auto)]

mod lines;
mod playing;
mod staging;
mod summaries;

pub use playing::put_played;
pub use staging::staged;
