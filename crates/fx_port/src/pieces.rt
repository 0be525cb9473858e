//! What a run writes: a sink that takes bytes, one piece after another.

ghost use Rattle.std.specs.Prelude.{◌≡◌, ℕ, List, Option};
ghost use Rattle.fx_port.specs.Causes.{HasCause};
ghost use Rattle.fx_port.specs.Pieces.{Writes};
ghost use Rattle.fx_port.specs.declared.pieces.PutError.TheVariants.{Memory};

use std::alloc::AllocError;
use thiserror::Error;

/// Why a sink did not take the whole of a piece.
#[derive(Debug, Drop, PartialEq, Eq, Error)]
pub enum PutError {
    /// Writing failed, whatever the cause.
    #[error("writing failed")]
    Failed,
    /// There was no memory for the bytes.
    #[error("out of memory")]
    Memory,
}

impl From<AllocError> for PutError {
    ghost from_gives = { λ _ e. e ≡ Memory };

    fn from(_e: AllocError) -> PutError {
        PutError::Memory
    }
}

/// A place that bytes are written to, such as standard output.
pub trait Sink {
    /// The bytes that the sink tells to have taken, or nothing where it can't know them.
    ghost written: { Self → Option (List ℕ) };

    /// How often writing has failed; the count stays at its last value, 2^64 - 1.
    ghost faults: { Self → ℕ };

    /// Takes the whole piece; at an error, the bytes of some prefix of it have been taken.
    fn put(&mut self, piece: &[u8]) -> Result<(), PutError>
        ensures cause { HasCause PutError.Failed (faults self.old) (faults self.new) result }
        ensures writes { Writes (written self.old) (written self.new) result piece.now };
}
