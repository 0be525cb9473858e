//! Changes of a store of properties, the notices that each one gives, and why one is refused. The store carries out
//! what is defined here, and layers above it cite the same definitions.
#![tactic(auto)]

mod changes;
mod errors;
mod laws;

pub use changes::{Change, Notices};
pub use errors::StoreError;
pub use laws::{
    applied_changes_keep_names, applied_numbers_dont_fall, changes_keep_names,
    forgetting_takes_the_names, numbers_dont_fall, only_definitions_change_entries,
    readers_outside_are_found, readers_outside_refuse, reads_keep_entries,
    unfinished_changes_keep_names, unfinished_forgetting_takes_all_or_none,
    unfinished_numbers_dont_fall,
};
