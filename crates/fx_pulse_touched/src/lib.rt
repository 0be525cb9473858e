//! Which nodes of a scene are touched since the last one: they are compared place by place. From that follows which are
//! styled anew, with all that is below them, and which are measured anew, with all that is above them.
#![tactic(auto)]

mod comparing;
mod facts;
mod marks;
mod scenes;

pub use comparing::{Compared, Touched, compared_since, have_same_heads};
pub use marks::{is_any, mark_again, marked_above, marked_below, marked_places};
pub use scenes::{Scene, SceneLists};
