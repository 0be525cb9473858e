//! A walk along the marks of a text.
//! Its steps work out the places that are told to the user.
ghost use Rattle.std.specs.Prelude.{◌≤◌, ◌+◌, length};

use fx_base::Position;

/// What is left of a text, where that begins, and in a quoted text the quote that ends it.
/// In a text of 4 MiB line and column have room.
#[derive(Clone, Copy)]
pub struct Walk<'a> {
    pub rest: &'a [u8],
    pub position: Position,
    pub quote: Option<u8>,
    ghost line: { position.line + length rest.now ≤ 4194305 },
    ghost column: { position.column + length rest.now ≤ 4194305 },
}
