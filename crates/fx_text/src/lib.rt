//! Texts as lists of characters or of their bytes in UTF-8: characters by name, classes of characters, fronts, white at
//! the ends, digits and hexadecimal values. All readers stand on it.
#![tactic(auto)]

mod classes;
mod digits;
mod fronts;
mod identifiers;
mod laws;
mod trimming;

pub use classes::{hex_digit, hex_pair, hex_value, is_quote, is_white};
pub use digits::capped_number;
pub use fronts::{all_digits, all_white, behind_white, digit_count, white_count};
pub use identifiers::{is_identifier, is_letter, is_letter_or_digit, is_style_identifier};
pub use laws::texts_are_trimmed_in_one_way;
pub use trimming::{trim_front, trimmed, trimmed_text};
