//! Texts of a document while they are being read: names, values and runs within their limit, and the names of a tag.
//! The reader of documents fills them; it stands on the grammar's characters alone.
#![tactic(auto)]

mod ahead;
mod drafts;
mod names;

pub use ahead::{begins_name, behind_byte, name_length, quote_ahead, quote_byte, value_length};
pub use drafts::{Draft, Halt, Word};
pub use names::Names;
