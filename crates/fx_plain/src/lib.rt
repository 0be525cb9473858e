//! The plain player: all that a run writes for words and files, defined on lists and relations, with no flags, caches
//! or dirty regions.
#![tactic(auto)]

mod answers;

pub use answers::Status;
