//! The edges of the property graph: for each property who is bound to it, and marking along them, which looks at no
//! more than it marks. The graph itself stands on it.
#![tactic(auto)]

mod counting;
mod linking;
mod marking;
mod newly;
mod users;

pub use counting::operands_at;
pub use linking::{release_at, relink};
pub use marking::{mark_one, spread, take_back};
pub use newly::list_newly;
pub use users::Users;
