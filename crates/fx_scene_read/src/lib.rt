//! What a document asks for, piece by piece: its acts in the order of work, each with its place.
#![tactic(auto)]

mod acting;
mod counting;
mod instances;
mod opening;
mod pieces;
mod references;
mod sheets;

pub use counting::{no_counts, rank_of};
pub use instances::add_root_attributes;
pub use opening::{Stand, stand_at, stand_step};
pub use pieces::add_piece;
