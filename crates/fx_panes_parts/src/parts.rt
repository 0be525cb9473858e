//! A part of a length, as the track rule looks at it. It stands below what has parts.
/// Minimum, preferred and maximum length of a part with its margins, and the number of its `Priority`: 0 NEVER,
/// 1 SOMETIMES, 2 ALWAYS.
#[derive(Clone, Copy, PartialEq, Eq, Debug)]
pub struct Part {
    pub min: u32,
    pub pref: u32,
    pub max: u32,
    pub priority: u8,
}
