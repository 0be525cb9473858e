//! The stream of changed rows: a view that writes only the pixels that a viewer doesn't show yet, and the viewer that
//! shows pictures from them. It stands on the row kernels, below the programs that write and read such streams.
#![tactic(auto)]

mod lines;
mod rows;
mod viewers;
mod views;

pub use viewers::{StreamError, Viewer};
pub use views::{View, ViewError};
