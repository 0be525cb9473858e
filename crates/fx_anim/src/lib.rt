//! Timelines (JavaFX 21 API, `Timeline`): key frames are given to them, they are played and stopped, and time passes
//! for all that play. There is no clock: each tick says how much time passed. They stand on the values between key
//! frames.
#![tactic(auto)]

mod answers;
mod laws;
mod timeline;
mod timelines;

pub use answers::AnimError;
pub use laws::ticks_add_up;
pub use timelines::Timelines;
