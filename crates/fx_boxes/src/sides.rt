//! One axis of a pane that puts its children in a row: that of the row, or the one beside it. Who lays a tree out along
//! one axis at a time looks at its children along that axis alone, and does nothing for the other one.
ghost use Rattle.std.specs.Prelude.{◌≡◌};
ghost use Rattle.fx_boxes.specs.Rows.{clamped};

use fx_panes_parts::{Span, length_of, pixels, place_of};

/// What an axis is to a row.
#[derive(Clone, Copy, PartialEq, Eq, Debug)]
pub enum RowSide {
    Along,
    Beside,
}

/// A span with its numbers as a rectangle has them.
pub fn clamped(span: Span) -> Span
    ensures { result ≡ clamped span }
{
    Span {
        start: place_of(span.start),
        length: length_of(pixels(span.length)),
    }
}
