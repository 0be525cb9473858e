//! What single words of a line say: types of events, pseudo-classes, numbers, spots of children, values of constraints,
//! inline styles, and classes of nodes; and what the answers of the parts tell, as a stage tells it.
#![tactic(auto)]

mod constraints;
mod events;
mod names;
mod numbers;
mod operands;
mod spots;
mod styles;
mod telling;

pub use constraints::{constraint_edit, read};
pub use events::{event_named, is_own_pseudo};
pub use names::{copy_names, has_name, has_place, node_class, place_of_name};
pub use numbers::{number_of, side_of};
pub use operands::has_operands;
pub use spots::spot_of;
pub use styles::{copy_places, read_style};
pub use telling::{made, nothing, one_node, plain, silent, told, told_value};
