//! The line `explain` of a script, carried out on a stage: which declaration of a property wins on a node, and by what
//! each other one loses.
#![tactic(auto)]

mod explaining;
mod laws;
mod matching;
mod printing;

pub use explaining::explain_line;
pub use laws::{one_step, the_winner_is_that_of_the_style};
