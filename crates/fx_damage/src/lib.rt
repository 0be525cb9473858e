//! The damage between two pictures: the rectangles outside which both show the same.
//! It stands on the picture, below what keeps a frame.
#![tactic(auto)]

ghost use Rattle.fx_damage.specs.Laws.{SameOutside};

mod boxes;
mod changes;
mod checks;
mod edits;
mod near;
mod ordering;
mod rects;

pub use checks::{are_edits, has_distinct_births, keep_births_distinct};
pub use edits::{Edit, damage_of_edits};
pub use rects::damage;

/// Outside the damage, at every point of the window, both pictures show the same, also where children change places.
pub fn same_outside()
    ensures { SameOutside }
{}
