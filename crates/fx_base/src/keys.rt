//! Names of nodes and properties. Both are given once and never again.

/// A node of the scene: its slot in the arena, and the number of its birth, which tells it from every
/// other node that stood in the slot.
#[derive(Clone, Copy, PartialEq, Eq, PartialOrd, Ord, Hash, Default, Debug)]
pub struct NodeKey {
    pub slot: usize,
    pub birth: u32,
}

/// A property by its number, counted from 0 in order of declaration.
#[derive(Clone, Copy, PartialEq, Eq, PartialOrd, Ord, Hash, Default, Debug)]
pub struct Name(pub u32);
