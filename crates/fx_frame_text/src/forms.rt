//! The forms of a frame's image.

/// How the image of a frame is written.
#[derive(Clone, Copy, PartialEq, Eq, Debug)]
pub enum Form {
    /// A line for each row, with six hexadecimal digits for each pixel.
    Text,
    /// A binary Netpbm pixmap (`P6`).
    Ppm,
    /// Not at all.
    Nothing,
    /// By the rows of its damage that a viewer of the frames doesn't show yet, and `endframe`.
    Delta,
}
