//! Why a property of a node has its value (JavaFX CSS Reference Guide): all that speaks for it in the order of the
//! cascade, the winner first, and where each of the others loses. It stands on the cascade; programs print what it
//! tells.
#![tactic(auto)]

mod collected;
mod cuts;
mod explained;
mod laws;
mod told;

pub use cuts::{Cut, cut_of};
pub use explained::{Explained, Loser, explain};
pub use laws::{cuts_are_the_first, one_explanation, the_winner_is_the_best};
pub use told::{Rank, rank_of};
