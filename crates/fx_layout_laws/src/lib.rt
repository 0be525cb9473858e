//! What a layout of a scene is beside its equations: recursion over the tree of nodes, in which a subtree that stays as
//! it was keeps its lengths and places. It stands above the layout of a scene, and nothing stands on it.
#![tactic(auto)]

mod laws;

pub use laws::{
    alike_heights, alike_places, alike_widths, heights_by_tree, rects_by_tree, widths_by_tree,
};
