//! Colours that are looked up by a name among the declarations of a node and its ancestors (JavaFX CSS Reference Guide,
//! "Looked-up Colors").
#![tactic(auto)]

mod laws;
mod named;
mod resolving;

pub use laws::{more_steps_change_nothing, one_color, resolving_is_finding};
pub use named::{NamedPaint, nearest};
pub use resolving::resolve;
