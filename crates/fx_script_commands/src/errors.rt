//! Why a script isn't read. A bad line is never a reason: it is kept as `Bad`.
//! The reader answers it, and loading names the file.
use std::alloc::AllocError;
use thiserror::Error;

/// Why bytes are no script.
#[derive(Debug, Drop, Error, PartialEq)]
pub enum ScriptError {
    /// The bytes aren't UTF-8; so many bytes before the first bad one are.
    #[error("not UTF-8 behind {0} bytes")]
    NotUtf8(usize),
    /// There are more than 100,000 lines.
    #[error("more than 100000 lines")]
    TooManyLines,
    #[error("out of memory")]
    Memory,
}

impl From<AllocError> for ScriptError {
    ghost use Rattle.std.specs.Prelude.{◌≡◌};
    ghost use Rattle.fx_script_commands.specs.declared.errors.ScriptError.TheVariants.{Memory};

    ghost from_gives = { λ _ e. e ≡ Memory };

    fn from(_e: AllocError) -> ScriptError {
        ScriptError::Memory
    }
}
