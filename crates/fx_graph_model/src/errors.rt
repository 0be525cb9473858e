//! Why the property graph refuses a call. The layers above hand the name to whoever asked.
ghost use Rattle.std.specs.Prelude.{◌≡◌};
ghost use Rattle.fx_graph_model.specs.declared.errors.GraphError.TheVariants.{Memory};

use fx_base::Name;
use std::alloc::{AllocError, AllocFailed};
use thiserror::Error;

/// Why a call of the property graph was refused. Where several apply, the first of this list counts; among names, the
/// first in the order of the call.
#[derive(Debug, Drop, PartialEq, Eq, Error)]
pub enum GraphError {
    /// The name was never declared, or was forgotten.
    #[error("the property is unknown")]
    Unknown(Name),
    /// A read-only property is set or bound.
    #[error("the property is read-only")]
    ReadOnly(Name),
    /// The value or the expression has another kind than the property, or the expression has none.
    #[error("the property has another kind")]
    WrongKind(Name),
    /// A bound property is set (JavaFX: "A bound value cannot be set").
    #[error("the property is bound")]
    Bound(Name),
    /// The operand of a binding is the bound property, or reads it over other bindings.
    #[error("the binding would read itself")]
    Cycle(Name),
    /// 4,000,000 names were declared, or all bindings together would have over 1,000,000 operands.
    #[error("the store of properties is full")]
    Full,
    /// A property that isn't forgotten with the others is bound to one of them.
    #[error("the property reads one that is to go")]
    InUse(Name),
    /// There was no memory for what the call needs.
    #[error("out of memory")]
    Memory,
}

impl<T: Drop> From<AllocFailed<T>> for GraphError {
    ghost from_gives = { λ _ e. e ≡ Memory };

    fn from(_e: AllocFailed<T>) -> GraphError {
        GraphError::Memory
    }
}

impl From<AllocError> for GraphError {
    ghost from_gives = { λ _ e. e ≡ Memory };

    fn from(_e: AllocError) -> GraphError {
        GraphError::Memory
    }
}
