//! Colours with their share of opacity.

/// Red, green, blue and opacity, each from 0 to 255 (JavaFX `Color`, in whole numbers).
#[derive(Clone, Copy, PartialEq, Eq, Debug)]
pub struct Color {
    pub r: u8,
    pub g: u8,
    pub b: u8,
    pub a: u8,
}
