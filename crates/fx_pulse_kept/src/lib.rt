//! What is kept of the last scene, its looks and its layout, and brought up to the next one: only what was touched
//! since is styled, measured and placed anew. What is kept is always what the scene gives from nothing.
#![tactic(auto)]

mod kept;
mod measuring;

pub use kept::{Brought, KeptScene};
