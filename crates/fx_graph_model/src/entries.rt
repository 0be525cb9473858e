//! The entries of a store of properties (JavaFX `javafx.beans.property`): what defines a property, and where its
//! value came from last. The property graph keeps one entry for each name.
ghost use Rattle.std.specs.Prelude.{◌≡◌};
ghost use Rattle.fx_graph_model.specs.Uses.{is_binding, is_gone};
ghost use Rattle.fx_base.specs.Names.{numbers};
ghost use Rattle.fx_graph_model.specs.Equality.{same_value};

use crate::formulas::Formula;
use fx_base::{Kind, Name, Value};
use std::marker::Model;

/// Where the present definition of a property came from.
#[derive(Clone, Copy, PartialEq, Eq, Debug)]
pub enum Origin {
    /// The value that the property was declared with.
    Initial,
    /// A value that was set.
    Code,
    /// A binding.
    Bound,
}

/// The names that a binding reads, in the order of the places of its expression. A name may stand twice.
/// Contracts see the list of their numbers.
#[derive(Drop)]
pub struct Operands {
    names: Vec<Name>,
}

impl Model for Operands {
    ghost use Rattle.std.specs.Prelude.{ℕ, List};
    ghost use Rattle.fx_base.specs.Names.{numbers};

    ghost Value = { List ℕ };

    ghost view = { λ operands. numbers operands.names.items };
}

impl Operands {
    /// These names.
    pub fn from_vec(names: Vec<Name>) -> Operands
        ensures { result ≡ numbers names.items }
    {
        Operands { names }
    }

    /// Lends the names.
    pub fn as_slice(&self) -> &[Name]
        ensures { numbers result.now ≡ self.now }
    {
        self.names.as_slice()
    }
}

/// What gives a property its value.
#[derive(Drop)]
pub enum Definition {
    /// The value itself.
    Base(Value),
    /// An expression over the values of other properties.
    Bound(Formula, Operands),
    /// Nothing any more: the name was given back, and is never given again.
    Forgotten,
}

impl Definition {
    pub fn is_binding(&self) -> bool
        ensures { result ≡ is_binding self.now }
    {
        match self {
            Definition::Base(_) => false,
            Definition::Bound(_, _) => true,
            Definition::Forgotten => false,
        }
    }

    /// Whether the name was given back.
    pub fn is_gone(&self) -> bool
        ensures { result ≡ is_gone self.now }
    {
        match self {
            Definition::Base(_) => false,
            Definition::Bound(_, _) => false,
            Definition::Forgotten => true,
        }
    }
}

/// A property of the store.
#[derive(Drop)]
pub struct Entry {
    /// The kind of all its values.
    pub kind: Kind,
    /// Only the player itself changes it, as JavaFX's read-only properties.
    pub read_only: bool,
    pub origin: Origin,
    pub definition: Definition,
}

/// Whether the two are one value.
pub fn are_same(one: &Value, other: &Value) -> bool
    ensures { result ≡ same_value one.now other.now }
{
    one.equals(other)
}
