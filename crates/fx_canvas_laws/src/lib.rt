//! What a canvas and the damage of pictures are together: the law that a canvas follows the pictures, frame by
//! frame. It stands above both, below what keeps a frame.
#![tactic(auto)]

mod laws;

pub use laws::{damage_lies_in_the_window, frames_follow};
