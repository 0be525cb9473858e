//! Scripts: what each line asks for, with bindings and actions, and the reader of a whole file.
//! It stands between the bytes of a script and the world that its lines change.
#![tactic(auto)]

mod actions;
mod bindings;
mod braces;
mod commands;
mod errors;
mod laws;
mod lines;
mod pushing;
mod scripts;
mod skipping;
mod standing;

pub use braces::{before_sign, behind_sign};
pub use commands::{Command, Line};
pub use errors::ScriptError;
pub use laws::{expressions_are_written, lines_are_bad_by_a_cause};
pub use scripts::read_script;
