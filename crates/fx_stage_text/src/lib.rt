//! The lines of output that tell of what a script's line did: refusals, values, notices and warnings.
#![tactic(auto)]

mod answers;
mod paths;

pub use answers::{print_overrun, print_refusal, print_saying, print_value, print_warnings};
pub use paths::{put, put_path};
