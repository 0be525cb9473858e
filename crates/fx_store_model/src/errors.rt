//! Why the store of properties refuses a change. The script's refusal words go by these.
ghost use Rattle.std.specs.Prelude.{◌≡◌};
ghost use Rattle.fx_store_model.specs.declared.errors.StoreError.TheVariants.{Memory};
ghost use Rattle.fx_store_model.specs.Causes.{of_graph, of_listen, of_owner};

use fx_base::Name;
use fx_graph_model::GraphError;
use fx_handles::OwnerError;
use fx_listen::ListenError;
use std::alloc::{AllocError, AllocFailed};
use thiserror::Error;

/// Why a change was refused. Among names the first in the order of the call counts.
#[derive(Debug, Drop, PartialEq, Eq, Error)]
pub enum StoreError {
    /// The name was never declared, or was forgotten.
    #[error("the property is unknown")]
    Unknown(Name),
    /// A read-only property is set, bound or paired.
    #[error("the property is read-only")]
    ReadOnly(Name),
    /// The value, the expression or the other property has another kind than the property, or the expression has none.
    #[error("the property has another kind")]
    WrongKind(Name),
    /// A bound property is set (JavaFX: "A bound value cannot be set").
    #[error("the property is bound")]
    Bound(Name),
    /// The operand of a binding is the bound property, or reads it over other bindings.
    #[error("the binding would read itself")]
    Cycle(Name),
    /// A limit is reached: of names, of operands, of pairs, of listeners or of owners.
    #[error("the store of properties is full")]
    Full,
    /// A property that isn't forgotten with the others is bound to one of them.
    #[error("the property reads one that is to go")]
    InUse(Name),
    /// Both names of a pair are one.
    #[error("a property can't be paired with itself")]
    Same,
    /// A paired property is bound, or a bound one is paired.
    #[error("a property can't be both bound and paired")]
    Mixed(Name),
    /// The owner of the listener isn't alive.
    #[error("the owner was released")]
    StaleOwner,
    /// There was no memory for what the call needs.
    #[error("out of memory")]
    Memory,
}

impl<T: Drop> From<AllocFailed<T>> for StoreError {
    ghost from_gives = { λ _ e. e ≡ Memory };

    fn from(_e: AllocFailed<T>) -> StoreError {
        StoreError::Memory
    }
}

impl From<AllocError> for StoreError {
    ghost from_gives = { λ _ e. e ≡ Memory };

    fn from(_e: AllocError) -> StoreError {
        StoreError::Memory
    }
}

impl From<GraphError> for StoreError {
    ghost from_gives = { λ g e. e ≡ of_graph g };

    fn from(error: GraphError) -> StoreError {
        match error {
            GraphError::Unknown(name) => StoreError::Unknown(name),
            GraphError::ReadOnly(name) => StoreError::ReadOnly(name),
            GraphError::WrongKind(name) => StoreError::WrongKind(name),
            GraphError::Bound(name) => StoreError::Bound(name),
            GraphError::Cycle(name) => StoreError::Cycle(name),
            GraphError::Full => StoreError::Full,
            GraphError::InUse(name) => StoreError::InUse(name),
            GraphError::Memory => StoreError::Memory,
        }
    }
}

impl From<ListenError> for StoreError {
    ghost from_gives = { λ l e. e ≡ of_listen l };

    fn from(error: ListenError) -> StoreError {
        match error {
            ListenError::StaleOwner => StoreError::StaleOwner,
            ListenError::Full => StoreError::Full,
            ListenError::Memory => StoreError::Memory,
        }
    }
}

impl From<OwnerError> for StoreError {
    ghost from_gives = { λ o e. e ≡ of_owner o };

    fn from(error: OwnerError) -> StoreError {
        match error {
            OwnerError::Full => StoreError::Full,
            OwnerError::Memory => StoreError::Memory,
        }
    }
}
