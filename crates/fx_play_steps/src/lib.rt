//! Lines of a script, carried out on a stage, with what they print.
#![tactic(auto)]

mod asking;
mod lines;
mod notices;
mod printing;
mod traces;

pub use asking::{is_consume, number_of};
pub use lines::{take_inner, take_line};
pub use printing::{print_refused, print_told};
pub use traces::Trace;
