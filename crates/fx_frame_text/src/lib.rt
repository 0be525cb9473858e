//! Frames as output: the line that tells a frame, its damage, and its image in each form.
#![tactic(auto)]

mod changes;
mod forms;
mod frames;
mod images;
mod sums;
mod writers;

pub use forms::Form;
pub use sums::canvas_sum;
pub use writers::FrameWriter;
