//! The tasks of a scene: its document piece by piece, with the documents that it includes.
#![tactic(auto)]

mod asking;
mod bindings;
mod desks;
mod documents;
mod reading;
mod scenes;

pub use documents::fetch_document;
pub use scenes::{Scene, add_scene};
