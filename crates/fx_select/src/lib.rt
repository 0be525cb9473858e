//! Selectors (Selectors Level 3) over the facts of nodes: which nodes a selector matches, how specific it is, and an
//! index that finds the rules of a list of sheets that match a node. The cascade goes over what is found here.
#![tactic(auto)]

mod alike;
mod hits;
mod index;
mod lists;
mod matching;
mod strongest;
mod weights;

pub use alike::{are_alike, ids_that_nobody_asks_for};
pub use index::{RuleIndex, all_matched, inline_styles_change_no_index};
pub use lists::SelectorAt;
pub use matching::matches;
pub use weights::specificity;
