//! What a run reads: a shelf that gives a file by its name.

ghost use Rattle.std.specs.Prelude.{◌≡◌, ℕ, Option, IfOk, IfSome};
ghost use Rattle.fx_port.specs.Causes.{HasCause};
ghost use Rattle.fx_port.specs.Files.{Files, IsWithin, found_by, found_in};
ghost use Rattle.fx_port.specs.declared.files.FetchError.TheVariants.{Memory};

use std::alloc::{AllocError, Global};
use thiserror::Error;

/// What a shelf gives for a name.
#[derive(Debug, Drop, PartialEq)]
pub enum Fetched {
    /// The file's bytes, all of them.
    Whole(Vec<u8>),
    /// No file has the name.
    Absent,
    /// The file has more bytes than were asked for.
    Longer,
}

/// Why a shelf gives nothing.
#[derive(Debug, Drop, PartialEq, Eq, Error)]
pub enum FetchError {
    /// Reading failed, whatever the cause.
    #[error("reading failed")]
    Failed,
    /// There was no memory for the bytes.
    #[error("out of memory")]
    Memory,
}

impl From<AllocError> for FetchError {
    ghost from_gives = { λ _ e. e ≡ Memory };

    fn from(_e: AllocError) -> FetchError {
        FetchError::Memory
    }
}

/// A place that files are read from, such as a folder.
pub trait Shelf {
    /// The files that the shelf tells of, or nothing where it can't know them.
    ghost held: { Self → Option Files };

    /// How often reading has failed; the count stays at its last value, 2^64 - 1.
    ghost faults: { Self → ℕ };

    /// The file of this name, if it has `most` bytes or fewer.
    fn fetch(&mut self, alloc: Global, name: &str, most: usize) -> Result<Fetched, FetchError>
        ensures cause { HasCause FetchError.Failed (faults self.old) (faults self.new) result }
        ensures held { held self.new ≡ held self.old }
        ensures within { IfOk result (λ fetched. IsWithin most (found_by fetched)) }

        // where the files are told: which bytes, and exactly when the name is absent or the file longer
        ensures content { IfOk result (λ fetched.
            IfSome (held self.old) (λ files. found_by fetched ≡ found_in files name.now most)) };
}
