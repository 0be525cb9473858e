//! What may win a property, by its place.

/// What wins: the code value, or a declaration by the place of its rule among the matches and by its own in the rule.
#[derive(Clone, Copy, PartialEq, Eq, Debug)]
pub enum Winner {
    Code,
    Declared(usize, usize),
}

/// What speaks for a property: a code value that is bound (true) or set (false), or a declaration by the place of its
/// rule among the matches and by its own in the rule.
#[derive(Clone, Copy, PartialEq, Eq, Debug)]
pub enum Source {
    Code(bool),
    Declared(usize, usize),
}
