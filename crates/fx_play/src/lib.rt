//! The player as one call: words, files and a sink in, a status out. What it writes is the plain player's output.
#![tactic(auto)]

mod demos;
mod endings;
mod faults;
mod plans;
mod runs;
mod top;

pub use fx_plain::Status;
pub use top::play;
