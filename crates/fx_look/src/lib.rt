//! What a scene looks like in plain values: texts of numbers, sizes, colours and insets, colours laid over one
//! another, the table of style declarations, and the look of a node.
#![tactic(auto)]

mod color_names;
mod colors;
mod decimals;
mod insets;
mod looks;
mod numbers;
mod pixels;
mod readings;
mod styles;

pub use colors::{color_at, one_color, read_color};
pub use insets::{one_sides, read_sides, sizes_at};
pub use looks::Look;
pub use numbers::{one_number, one_size, read_number, read_size, size_at};
pub use pixels::blend;
pub use readings::{one_value, read_value};
pub use styles::{
    CodeValue, STYLE_COUNT, Style, StyleForm, StyleKey, StyleName, each_named, style_named,
    style_table,
};
