//! Why a line isn't read.
//! The readers of words and of forms answer it.
use std::alloc::AllocFailed;

/// The line is of no form, or memory ran out.
#[derive(Drop)]
pub enum Stop {
    Form,
    Memory,
}

impl<T: Drop> From<AllocFailed<T>> for Stop {
    ghost use Rattle.std.specs.Prelude.{◌≡◌};
    ghost use Rattle.fx_script_lines.specs.declared.stops.Stop.TheVariants.{Memory};

    ghost from_gives = { λ _ e. e ≡ Memory };

    fn from(_e: AllocFailed<T>) -> Stop {
        Stop::Memory
    }
}
