//! Equality of values as a fact that contracts cite: true exactly where the two are one.
ghost use Rattle.std.specs.Prelude.{◌≡◌, ◌↔◌, IsTrue, length};

use crate::color::Color;
use crate::geometry::Sides;
use crate::lists::List;
use crate::texts::{Str, Text};
use crate::values::Value;

/// A value that can be told from another. `PartialEq` answers the same of types that need no contract here.
pub trait Same {
    /// Are the two one value?
    fn is_same(&self, other: &Self) -> bool
        ensures { IsTrue result ↔ (self.now ≡ other.now) };
}

impl Same for u32 {
    fn is_same(&self, other: &Self) -> bool {
        *self == *other
    }
}

impl Same for Text {
    #[inline]
    fn is_same(&self, other: &Self) -> bool {
        self.is_text(other)
    }
}

impl Same for Str {
    fn is_same(&self, other: &Self) -> bool {
        self.as_str() == other.as_str()
    }
}

impl Same for Color {
    fn is_same(&self, other: &Self) -> bool {
        *self == *other
    }
}

impl Same for Sides {
    fn is_same(&self, other: &Self) -> bool {
        self.equals(*other)
    }
}

impl Same for Value {
    #[inline]
    fn is_same(&self, other: &Self) -> bool {
        self.equals(other)
    }
}

impl<T: Same> Same for Option<T> {
    fn is_same(&self, other: &Self) -> bool {
        match (self, other) {
            (Some(one), Some(another)) => one.is_same(another),
            (None, None) => true,
            _ => false,
        }
    }
}

impl<T: Same> Same for List<T> {
    fn is_same(&self, other: &Self) -> bool {
        all_same(self.as_slice(), other.as_slice())
    }
}

/// Are the items the same, one by one, and as many?
fn all_same<T: Same>(items: &[T], others: &[T]) -> bool
    ensures { IsTrue result ↔ (items.now ≡ others.now) }
{
    items.len() == others.len() && pairs_are_same(items, others)
}

/// Are the items that stand at one place the same?
fn pairs_are_same<T: Same>(items: &[T], others: &[T]) -> bool
    requires { length items.now ≡ length others.now }
    ensures { IsTrue result ↔ (items.now ≡ others.now) }
{
    for at in 0..items.len() {
        if !items[at].is_same(&others[at]) {
            return false;
        }
    }
    true
}
