//! Timelines that a script has named, and its lines on them, carried out on a stage (JavaFX 21 API, `Timeline`).
#![tactic(auto)]

mod clock;
mod finding;
mod lines;
mod ticking;
mod times;

pub use clock::Clock;
pub use lines::is_time_line;
