//! Kernels over rows of pixels, some lanes at a time: fill, blend and compare.
//! It stands on the plain types, below the canvas; each kernel is the plain loop over its row.
#![tactic(auto)]

mod blending;
mod comparing;
mod filling;

pub use blending::{blend_row, packed_colors_unpack};
pub use comparing::equal;
pub use filling::fill;
