//! Why a timeline refuses a call.
ghost use Rattle.std.specs.Prelude.{◌≡◌};
ghost use Rattle.fx_anim.specs.declared.answers.AnimError.TheVariants.{Memory};

use std::alloc::{AllocError, AllocFailed};
use thiserror::Error;

/// Why a call was refused; nothing changed then.
#[derive(Debug, Drop, PartialEq, Eq, Error)]
pub enum AnimError {
    /// There are 256 timelines, or the timeline has 1,024 key frames.
    #[error("no more timelines or key frames fit")]
    Full,
    /// The timeline plays.
    #[error("the timeline plays")]
    Playing,
    /// The timeline has no key frame after its start.
    #[error("no key frame stands after the start")]
    Empty,
    /// There was no memory.
    #[error("out of memory")]
    Memory,
}

impl From<AllocError> for AnimError {
    ghost from_gives = { λ _ e. e ≡ Memory };

    fn from(_error: AllocError) -> AnimError {
        AnimError::Memory
    }
}

impl<T: Drop> From<AllocFailed<T>> for AnimError {
    ghost from_gives = { λ _ e. e ≡ Memory };

    fn from(_error: AllocFailed<T>) -> AnimError {
        AnimError::Memory
    }
}
