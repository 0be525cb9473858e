//! The exit status of a run.
//! Each answer of the player has a number of its own.
ghost use Rattle.std.specs.Prelude.{◌≡◌};
ghost use Rattle.std.specs.Process.{exit_status};
ghost use Rattle.fxplay.specs.Exits.{status_number};

use fx_play::Status;
use std::process::ExitCode;

/// The exit status that says how a run ended.
pub fn exit_code(status: Status) -> ExitCode
    ensures { exit_status result ≡ status_number status }
{
    ExitCode::from(match status {
        Status::Done => 0u8,
        Status::Usage => 2,
        Status::Refused => 3,
        Status::ReadFault => 4,
        Status::WriteFault => 5,
        Status::NoMemory => 6,
    })
}
