//! What a stage answers.
ghost use Rattle.std.specs.Prelude.{◌≡◌, None, []};
ghost use Rattle.fx_stage_types.specs.Words.{of_event, of_store, of_tree};
ghost use Rattle.fx_stage_types.specs.declared.answers.StageError.TheVariants.{Memory, Refused};

use crate::refusals::Refusal;
use fx_base::{List, NodeKey, Place, Value};
use fx_events::{EventError, EventKind};
use fx_store_model::{Notices, StoreError};
use fx_tree::TreeError;
use std::alloc::{AllocError, AllocFailed};
use thiserror::Error;

/// What a command tells, beside what it makes of the world.
#[derive(Drop)]
pub struct Outcome {
    /// The value that `get` reads.
    pub value: Option<Value>,
    /// Which listeners are told of what.
    pub notices: Notices,
    /// What was dropped of an inline style, at its first character.
    pub warnings: List<Place>,
    /// The events that the line starts, with their targets, in order.
    pub events: List<(EventKind, NodeKey)>,
}

/// Why a stage did nothing.
#[derive(Debug, Drop, PartialEq, Eq, Error)]
pub enum StageError {
    /// The first word that applies, in their order.
    #[error("refused")]
    Refused(Refusal),
    #[error("out of memory")]
    Memory,
}

impl From<Refusal> for StageError {
    ghost from_gives = { λ word e. e ≡ Refused word };

    fn from(word: Refusal) -> StageError {
        StageError::Refused(word)
    }
}

impl From<AllocError> for StageError {
    ghost from_gives = { λ _ e. e ≡ Memory };

    fn from(_e: AllocError) -> StageError {
        StageError::Memory
    }
}

impl<T: Drop> From<AllocFailed<T>> for StageError {
    ghost from_gives = { λ _ e. e ≡ Memory };

    fn from(_e: AllocFailed<T>) -> StageError {
        StageError::Memory
    }
}

impl From<StoreError> for StageError {
    ghost from_gives = { λ s e. e ≡ of_store s };

    fn from(error: StoreError) -> StageError {
        match error {
            StoreError::Unknown(_) => StageError::Refused(Refusal::Unknown),
            StoreError::ReadOnly(_) => StageError::Refused(Refusal::ReadOnly),
            StoreError::WrongKind(_) => StageError::Refused(Refusal::Kinds),
            StoreError::Bound(_) => StageError::Refused(Refusal::Bound),
            StoreError::Cycle(_) => StageError::Refused(Refusal::Cycle),
            StoreError::Full => StageError::Refused(Refusal::Full),
            StoreError::InUse(_) => StageError::Refused(Refusal::Used),
            StoreError::Same => StageError::Refused(Refusal::Same),
            StoreError::Mixed(_) => StageError::Refused(Refusal::Mixed),
            StoreError::StaleOwner => StageError::Refused(Refusal::Stale),
            StoreError::Memory => StageError::Memory,
        }
    }
}

impl From<TreeError> for StageError {
    ghost from_gives = { λ t e. e ≡ of_tree t };

    fn from(error: TreeError) -> StageError {
        match error {
            TreeError::StaleKey => StageError::Refused(Refusal::Unknown),
            TreeError::WouldLoop => StageError::Refused(Refusal::WouldLoop),
            TreeError::HasParent => StageError::Refused(Refusal::Parent),
            TreeError::Attached => StageError::Refused(Refusal::Attached),
            TreeError::Place => StageError::Refused(Refusal::Place),
            TreeError::Full => StageError::Refused(Refusal::Full),
            TreeError::Depth => StageError::Refused(Refusal::Depth),
            TreeError::NoParent => StageError::Refused(Refusal::Parent),
            TreeError::Memory => StageError::Memory,
        }
    }
}

impl From<EventError> for StageError {
    ghost from_gives = { λ v e. e ≡ of_event v };

    fn from(error: EventError) -> StageError {
        match error {
            EventError::Full => StageError::Refused(Refusal::Full),
            EventError::Memory => StageError::Memory,
        }
    }
}
