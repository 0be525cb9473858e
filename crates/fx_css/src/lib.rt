//! Style sheets are read: their text is cut into rules and declarations, and what is no such part is dropped with a
//! warning. The parts are judged by `fx_css_parts`; the scene holds the sheets.
#![tactic(auto)]

mod agent;
mod cutting;
mod declarations;
mod errors;
mod inline;
mod laws;
mod parts;
mod rules;
mod sheets;
mod splitting;

pub use agent::agent_sheet;
pub use errors::SheetError;
pub use inline::read_inline;
pub use laws::{every_text_is_read, texts_are_read_in_one_way};
pub use sheets::read_sheet;
