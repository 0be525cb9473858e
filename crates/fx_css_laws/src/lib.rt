//! What style sheets are beside what each call of their reader says: each text is one sheet or is past a limit, so is
//! each `style`, and a limit is told where the parts before it are as many as may be. It stands above the reader of
//! sheets, and nothing stands on it.
#![tactic(auto)]

mod limits;
mod styles;

pub use limits::{
    first_declarations_past_are_told, first_rules_past_are_told, first_selectors_past_are_told,
    ninth_layers_are_told, positions_past_are_told,
};
pub use styles::{
    every_style_is_read, styles_are_kept_or_past, styles_are_read_in_one_way,
    texts_are_kept_or_past,
};
