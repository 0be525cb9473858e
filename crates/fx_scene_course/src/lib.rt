//! What is done for a scene while its documents are read: the tasks so far, and what waits; and the acts of a document,
//! done one after another, with the style sheets that its nodes ask for fetched where they are asked for.
#![tactic(auto)]

mod courses;
mod making;
mod opens;

pub use courses::{
    Course, Waiting, add_class, add_fault_in, add_file, add_flaw, add_space, add_task, has_id,
    place_in,
};
pub use making::{acts_before, acts_behind, acts_between, do_acts};
pub use opens::{Open, around_with, inner_path, scope_in};
