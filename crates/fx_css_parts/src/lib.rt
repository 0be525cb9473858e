//! The parts of a style sheet, read from their bytes in UTF-8: the selectors of a rule, and one declaration.
//! A reader of sheets cuts its text into these parts, in which a comment is a space already, and hands each one here.
#![tactic(auto)]

mod compounds;
mod declaring;
mod laws;
mod layers;
mod limits;
mod naming;
mod selecting;
mod texts;
mod values;

pub use declaring::read_declaration;
use fx_base::List;
use fx_css_types::{Declaration, Selector};
pub use laws::{one_declaration, one_selectors, past_limits};
pub use selecting::read_selectors;

/// The selectors of a rule, as they are read.
#[derive(Drop)]
pub struct Selectors {
    pub selectors: List<Selector>,
    /// The place in the text, in bytes, of the first part past a limit: the 65th selector, or the 17th compound
    /// of one.
    pub past: Option<usize>,
}

/// A declaration, as it is read.
#[derive(Drop)]
pub struct ReadDeclaration {
    pub declaration: Declaration,
    /// The place in the text, in bytes, of the ninth layer of a list of paints or of sides.
    pub past: Option<usize>,
}
