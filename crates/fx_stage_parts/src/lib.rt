//! What the lines of a stage ask of the parts that it keeps: the properties of a node by their names, whether nodes
//! live and whether there is room for more, what is found or missing as a line answers it, what is kept of listeners,
//! the end of nodes, and the actions that run. These are functions over a store, a scene graph, tables, lists and
//! texts that are lent, and none knows of a stage; fx_stage stands on them, and carries the lines out.
#![tactic(auto)]

mod actions;
mod answers;
mod dropping;
mod finding;
mod nodes;
mod noting;
mod owners;
mod room;
mod running;
mod words;

pub use actions::{Action, action_of};
pub use answers::{both, earlier, no_node, or_property, or_unknown};
pub use dropping::{are_gone, drop_if, push_range};
pub use finding::name_in;
pub use nodes::{is_full_of_classes, is_full_of_pseudos, is_living};
pub use noting::{has_new, note_if, reserve_note};
pub use owners::has_living_owner;
pub use room::{has_free, has_no_room, has_no_room_for};
pub use running::{new_action, run_tagged, tag_of};
pub use words::{kind_named, listen_kind_named, path_of};
