//! Rectangles and insets.
ghost use Rattle.std.specs.Prelude.{◌≡◌, ◌↔◌, IsTrue};

/// A rectangle in pixels: its left and top edge, its width and height (JavaFX `Rectangle2D`).
#[derive(Clone, Copy, PartialEq, Eq, Debug)]
pub struct Rect {
    pub x: i64,
    pub y: i64,
    pub w: i64,
    pub h: i64,
}

/// Four lengths in pixels, one a side (JavaFX `Insets`).
#[derive(Clone, Copy, PartialEq, Eq, Debug)]
pub struct Sides {
    pub top: i64,
    pub right: i64,
    pub bottom: i64,
    pub left: i64,
}

impl Sides {
    /// Are the two the same four lengths? `==` answers the same.
    pub fn equals(self, other: Sides) -> bool
        ensures { IsTrue result ↔ (self ≡ other) }
    {
        self == other
    }
}
