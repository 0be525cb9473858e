//! The reader of FXML documents: bytes to a tree of elements, or where and why they are no document.
//! It keeps to the grammar of `fx_doc_grammar`; what elements and attributes mean is left to the layers above.
#![tactic(auto)]

mod bytes;
mod instructions;
mod markup;
mod reader;
mod reading;
mod tags;
mod values;

pub use bytes::{place_behind, position_behind};
pub use fx_doc_runs::{Attribute, Content, DocError, Document, Element};
pub use reader::read_document;
