//! The event lines of a script: what `move`, `press`, `release-button`, `key`, `focus`, `tab` and `backtab` change of a
//! world, and the events that they start, in order. Sending these is another's.
#![tactic(auto)]

mod coordinates;
mod effects;
mod events;
mod focusing;
mod hovering;
mod keys;
mod nodes;
mod pressing;
mod starting;

pub use events::Event;
pub use starting::{is_event_line, start};
