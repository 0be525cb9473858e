//! What the pointer and the focus meet in the last picture: the node under a point (JavaFX `Node`, picking), the nodes
//! that the pointer left and came to, and the next node that takes the focus. It stands on the tree and the picture;
//! events are sent by what is found here.
#![tactic(auto)]

mod attached;
mod focus;
mod hover;
mod picks;

pub use attached::is_attached;
pub use focus::{next_focus, takes_focus};
pub use hover::{HoverChange, hover_change};
pub use picks::pick;
