//! What is true of every scene of living nodes beside what each call of the tree says: which nodes a subtree holds,
//! what each change leaves of each node, and what a path and a route are. It stands above the tree and its events, and
//! nothing stands on it.
#![tactic(auto)]

mod laws;

pub use laws::{
    changes_keep_scenes_sound, paths_differ, paths_go_by_parents, routes_are_short,
    routes_begin_at_the_top, routes_end_at_their_targets, routes_step_down,
    subtrees_are_what_is_within, what_attaching_leaves, what_detaching_leaves,
    what_dropping_leaves, what_making_leaves,
};
