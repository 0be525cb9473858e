//! What the bytes of a style sheet say outside comments and quoted texts, and the positions at which they say it.
//! A text with neither stands for itself; rules and declarations are cut from what is said.
#![tactic(auto)]

mod finding;
mod laws;
mod marks;
mod saying;
mod walk;
mod walking;

pub use finding::is_bare;
pub use laws::texts_are_marked_in_one_way;
pub use marks::Mark;
pub use saying::{Said, spoken};
pub use walking::{places, position};
