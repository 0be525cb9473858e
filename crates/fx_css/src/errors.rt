//! Why a sheet isn't read, and where its reading stops. What is no rule or no declaration is never a reason: it is
//! dropped with a warning.
//! Readers answer it, and loading names the file.
use fx_base::Position;
use std::alloc::{AllocError, AllocFailed};
use thiserror::Error;

/// Why bytes are no sheet that can be held.
#[derive(Debug, Drop, Error, PartialEq)]
pub enum SheetError {
    /// The bytes aren't UTF-8; so many bytes before the first bad one are.
    #[error("not UTF-8 behind {0} bytes")]
    NotUtf8(usize),
    /// The first rule, selector, compound, layer or declaration past its limit. What is dropped doesn't count.
    #[error("past a limit at {}:{}", .0.line, .0.column)]
    Limit(Position),
    #[error("out of memory")]
    Memory,
}

/// Why reading stops.
#[derive(Drop)]
pub enum Stop {
    /// The byte with this number is the first past a limit.
    Past(usize),
    Memory,
}

impl From<AllocError> for SheetError {
    ghost use Rattle.std.specs.Prelude.{◌≡◌};
    ghost use Rattle.fx_css.specs.declared.errors.SheetError.TheVariants.{Memory};

    ghost from_gives = { λ _ e. e ≡ Memory };

    fn from(_e: AllocError) -> SheetError {
        SheetError::Memory
    }
}

impl<T: Drop> From<AllocFailed<T>> for SheetError {
    ghost use Rattle.std.specs.Prelude.{◌≡◌};
    ghost use Rattle.fx_css.specs.declared.errors.SheetError.TheVariants.{Memory};

    ghost from_gives = { λ _ e. e ≡ Memory };

    fn from(_e: AllocFailed<T>) -> SheetError {
        SheetError::Memory
    }
}

impl From<AllocError> for Stop {
    ghost use Rattle.std.specs.Prelude.{◌≡◌};
    ghost use Rattle.fx_css.specs.declared.errors.Stop.TheVariants.{Memory};

    ghost from_gives = { λ _ e. e ≡ Memory };

    fn from(_e: AllocError) -> Stop {
        Stop::Memory
    }
}

impl<T: Drop> From<AllocFailed<T>> for Stop {
    ghost use Rattle.std.specs.Prelude.{◌≡◌};
    ghost use Rattle.fx_css.specs.declared.errors.Stop.TheVariants.{Memory};

    ghost from_gives = { λ _ e. e ≡ Memory };

    fn from(_e: AllocFailed<T>) -> Stop {
        Stop::Memory
    }
}
