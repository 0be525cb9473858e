//! Parts of a sheet: bytes, what each means, and their numbers in the text.
//! Rules and declarations are cut off from them.
ghost use Rattle.std.specs.Prelude.{◌≡◌, ◌<◌, ◌+◌, ◌^◌, length};

/// A byte, what it means to the cutting (itself, or nothing where it is quoted), and its number in the text, in which
/// each comment is one space.
#[derive(Clone, Copy)]
pub struct Numbered {
    pub byte: u8,
    pub sign: u8,
    pub number: usize,
}

/// Bytes one behind another, with what each means, and the number of the first.
#[derive(Clone, Copy)]
pub struct Part<'a> {
    pub bytes: &'a [u8],
    pub signs: &'a [u8],
    pub number: usize,
    ghost same: { length bytes.now ≡ length signs.now },
    ghost within: { number + length bytes.now < 2 ^ 63 },
}
