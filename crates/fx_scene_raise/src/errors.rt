//! Why a scene isn't raised.
ghost use Rattle.std.specs.Prelude.{◌≡◌};
ghost use Rattle.fx_scene_raise.specs.declared.errors.RaiseError.TheVariants.{Memory};

use fx_scene_acts::SceneFault;
use std::alloc::{AllocError, AllocFailed};
use thiserror::Error;

/// Why a scene isn't raised as its document asks for it.
#[derive(Debug, Drop, PartialEq, Eq, Error)]
pub enum RaiseError {
    /// The first fault in the order of work.
    #[error("at fault")]
    Fault(SceneFault),
    #[error("out of memory")]
    Memory,
}

impl<T: Drop> From<AllocFailed<T>> for RaiseError {
    ghost from_gives = { λ _ e. e ≡ Memory };

    fn from(_e: AllocFailed<T>) -> RaiseError {
        RaiseError::Memory
    }
}
