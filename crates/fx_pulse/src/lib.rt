//! Frames: from the facts of a scene to its picture, what the picture damages of the last one, and the pixels of the
//! window. It is given lists and stands on no stage; the player hands it the scene of each frame.
#![tactic(auto)]

mod checking;
mod copies;
mod edit_lists;
mod edits;
mod entries;
mod flags;
mod frames;
mod paths;
mod pictures;
mod renderer;

pub use checking::is_scene;
pub use fx_pulse_touched::{Scene, SceneLists};
pub use renderer::{Frame, Renderer};
