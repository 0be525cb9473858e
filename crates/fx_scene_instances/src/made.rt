//! What is made of an instance of a value.
use fx_base::{Position, Text, Track, Value};
use fx_scene_flaws::Flaw;

/// A value, the constraint of a column or a row, or the name of a file.
#[derive(Drop)]
pub enum Made {
    Plain(Value),
    Track(Track),
    Location(Text),
}

/// What is made, or what is wrong, and where. Where a definition within a value has a node that wasn't read yet, that
/// is read first.
#[derive(Drop)]
pub enum Found {
    Whole(Made),
    Flaw(Flaw, Position),
    Node(Position),
}
