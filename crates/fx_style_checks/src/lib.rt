//! What updates of styles ask of the facts of nodes, tested: for programs whose nodes aren't those of a scene that was
//! tested already.
#![tactic(auto)]

mod checking;

pub use checking::can_be_styled;
