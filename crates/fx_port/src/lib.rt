//! The outside of a run: the shelf that it reads files from and the sink that it writes bytes to, as
//! traits, and a form of each that lives in memory. Every crate that reads or writes stands on this one.
#![tactic(auto)]

mod files;
mod memory_files;
mod memory_pieces;
mod pieces;

pub use files::{FetchError, Fetched, Shelf};
pub use memory_files::MemoryShelf;
pub use memory_pieces::MemorySink;
pub use pieces::{PutError, Sink};
