//! Loading a run: its script, its sheets and its scene, fetched from a shelf and read, or the first fault in the order
//! of work.
#![tactic(auto)]

mod loading;
mod telling;

pub use loading::{Loaded, load};
