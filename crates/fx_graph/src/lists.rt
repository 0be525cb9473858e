//! The lists of a graph: each but that of texts has a place for each name that was ever declared. Whoever changes
//! several of them at once is handed all, and leaves them so that they fit one another.
use fx_base::{Name, Value};
use fx_graph_edges::Users;
use fx_graph_model::Entry;

/// What is kept of the names, and room to work in.
#[derive(Drop)]
pub struct Lists {
    pub entries: Vec<Entry>,
    /// Who is bound to each name.
    pub users: Vec<Users>,
    pub unread: Vec<bool>,
    /// Flags of which none is set between calls: who sets some takes them back.
    pub spare: Vec<bool>,
    /// The names that became unread in the last change stand at the front, rising.
    pub newly: Vec<Name>,
    pub newly_count: usize,
    /// The value of each name when it was read.
    pub cache: Vec<Value>,
    /// Room for the texts of a change, which are copied before the first value is given.
    pub texts: Vec<Value>,
    /// Room for places that are still to be looked at.
    pub work: Vec<usize>,
    /// How many operands all bindings have together.
    pub operand_count: usize,
}
