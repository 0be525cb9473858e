//! Whether style sheets keep within the limits that every sheet keeps which was read.
#![tactic(auto)]

mod declarations;
mod sheets;

pub use sheets::are_within_limits;
