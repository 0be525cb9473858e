//! Where the files that a document names stand: locations, relative to the folder of the document's own file.
#![tactic(auto)]

mod joining;
mod walking;

pub use joining::joined;
