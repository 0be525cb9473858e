//! What the wrapping of a text is beside its equations: each text has one, so the number of its lines is a function of
//! the text and of the columns. It stands above the text in columns, and nothing stands on it.
#![tactic(auto)]

mod laws;

pub use laws::{each_text_wraps, lines_are_counted, lines_are_few};
