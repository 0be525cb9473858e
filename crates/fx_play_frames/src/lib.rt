//! The game that a script plays: a stage and what is drawn of it, line by line and frame by frame.
#![tactic(auto)]

mod counting;
mod game;
mod lines;
mod playing;
mod pulses;
mod scenes;
mod taking;
mod telling;

pub use counting::Counts;
pub use game::Game;
pub use taking::{Shown, Taken};
pub use telling::put_told;
