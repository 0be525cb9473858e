//! How a run ends, and the exit status that says so.
//! Each answer of the viewer has a number of its own.
ghost use Rattle.std.specs.Prelude.{◌≡◌};
ghost use Rattle.std.specs.Process.{exit_status};
ghost use Rattle.fxview.specs.Exits.{status_number};

use std::process::ExitCode;

/// How a run ended.
#[derive(Clone, Copy, PartialEq, Eq, Debug)]
pub enum ViewStatus {
    /// The whole stream is shown.
    Done,
    /// The words name no stream.
    Usage,
    /// The file isn't there, is too long, or has a bad line.
    Refused,
    /// Reading failed.
    ReadFault,
    /// Writing failed.
    WriteFault,
    NoMemory,
}

/// The exit status that says how a run ended.
pub fn exit_code(status: ViewStatus) -> ExitCode
    ensures { exit_status result ≡ status_number status }
{
    ExitCode::from(match status {
        ViewStatus::Done => 0u8,
        ViewStatus::Usage => 2,
        ViewStatus::Refused => 3,
        ViewStatus::ReadFault => 4,
        ViewStatus::WriteFault => 5,
        ViewStatus::NoMemory => 6,
    })
}
