//! What the plain player's definitions leave open: the slots of memory in which nodes and owners are kept, and nothing
//! else. Two courses of a line, of a script, or of a whole run are one where these are the same, and files are loaded
//! in one way. It stands above the plain player, and nothing stands on it.
#![tactic(auto)]

mod laws;

pub use laws::{
    files_are_loaded_in_one_way, lines_have_one_outcome, runs_write_one_output,
    scripts_are_told_in_one_way,
};
