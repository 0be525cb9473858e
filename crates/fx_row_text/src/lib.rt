//! A row of pixels as text, six hexadecimal digits a pixel.
//! It stands on the plain types, below the canvas.
#![tactic(auto)]

mod printing;

pub use printing::{append_row, print_row};
