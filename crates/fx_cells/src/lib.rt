//! Text in columns: the cells that a text takes, the glyph of each character, and the lines of a text that wraps.
//! It stands below layout and painting, and on `unicode_width` alone.
#![tactic(auto)]

mod columns;
mod font;
mod wrapping;

pub use columns::{cells, control_characters_take_no_cell, printable_characters_take_one_cell};
pub use font::glyph;
pub use wrapping::{lines, one_wrapping};
