//! Values that documents write as instances: `Insets`, `Font`, numbers, truths, texts, constants and locations, and the
//! constraints of columns and rows, read whole by their attributes, property elements and definitions.
#![tactic(auto)]

mod attributes;
mod bare;
mod ending;
mod parts;
mod reading;

pub use bare::bare_fault;
pub use reading::{closed, one_part, want_of, whole};
