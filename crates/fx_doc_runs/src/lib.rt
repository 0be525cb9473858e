//! What the reader of documents holds between two characters, the tree that it makes, and what it takes in place: runs
//! of characters, tags, attributes, references, and steps that only make a text longer.
//! Each is what the machine of `fx_doc_grammar` does; every other step, and the loop over a text, is left to `fx_doc`.
#![tactic(auto)]

mod absorbing;
mod ahead;
mod document;
mod heads;
mod imports;
mod keys;
mod levels;
mod light;
mod modes;
mod rests;
mod runs;
mod signs;
mod turning;

pub use absorbing::shown;
pub use document::{Attribute, Content, DocError, Document, Element};
pub use levels::goes;
pub use light::{
    Light, from_bang_dashed, from_banged, from_commented, from_dash_dashed, from_dashed,
    goes_lightly,
};
pub use modes::{Head, Held, Level, Mode, Open, Reader, Valued};
pub use rests::Rest;
