//! The parts of loading a run: its files, fetched from a shelf, its script and its sheets, or why a file is refused.
#![tactic(auto)]

mod files;
mod kinds;
mod scripts;
mod sheets;
mod warnings;

pub use files::{FileFault, LoadError, MOST_FETCHES, Run, fetch_file, name_in, read_file};
pub use kinds::put_fault;
pub use scripts::read_script;
pub use sheets::{fetch_sheet, read_sheets};
pub use warnings::warning_line;
