//! The edge of a program: the shelf of real files, and the sink that is standard output or any other writer.
//! They stand between the system and all that reads from a shelf and writes to a sink.
#![tactic(auto)]

mod shelf;
mod sink;

pub use shelf::FileShelf;
pub use sink::OutSink;
