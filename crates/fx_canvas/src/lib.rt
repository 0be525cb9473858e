//! The canvas: the pixels of a window, kept from frame to frame. A repaint paints only some rectangles anew, and rows
//! that it doesn't write keep their printed text.
//! It stands on the pens, below what keeps a frame.
#![tactic(auto)]

mod blocks;
mod canvas;
mod opaque;
mod painting;
mod rows;

pub use canvas::{Canvas, CanvasError};
