//! What a node is laid out by: the facts that its pane is asked with, what a pane sees of a child, and the rule of each
//! class. Adding a pane is one arm in each of these tables. It stands on the panes, below the layout of a whole tree.
#![tactic(auto)]

mod boxes;
mod children;
mod constraints;
mod leaves;
mod rules;

pub use boxes::{box_of, look_axis};
pub use children::{child_along, child_of};
pub use leaves::{in_pixels, leaf_heights, leaf_widths};
pub use rules::{
    NodeBox, Rule, across_half, across_span, down_half, down_span, is_pane, measure, measure_in,
    place, row_side, rule_of,
};
