//! Key frames of timelines (JavaFX 21 API, `Timeline` and `KeyFrame`): the position that a timeline has come to, and
//! what a property is there. Time is whole milliseconds, and what lies between two frames is reached in a straight
//! line.
#![tactic(auto)]

mod cycles;
mod frames;
mod mixing;
mod reading;

pub use cycles::{Cycles, is_over, position};
pub use frames::Frame;
pub use mixing::{between, towards};
pub use reading::value_at;
