//! How a run ends.
ghost use Rattle.std.specs.Prelude.{◌≡◌};
ghost use Rattle.fx_plain.specs.PlainPlayer.{refused_with, usage_told};
ghost use Rattle.fx_load_parts.specs.Views.{fault_of};
ghost use Rattle.fx_play.specs.Ends.{IsTold, ended_as};
ghost use Rattle.fx_port.specs.Causes.{HasCause};
ghost use Rattle.fx_port.specs.Pieces.{Writes};
ghost use Rattle.fx_port.specs.declared.pieces.PutError.TheVariants.{Failed};

use fx_load_parts::{FileFault, put_fault};
use fx_plain::Status;
use fx_port::{PutError, Sink};
use fx_words::USAGE;
use std::alloc::Global;

/// How a run ends that wrote so: as it should, or as the writing failed.
pub(crate) fn ended(written: Result<(), PutError>, status: Status) -> Status
    ensures { result ≡ ended_as written status }
{
    match written {
        Ok(()) => status,
        Err(PutError::Failed) => Status::WriteFault,
        Err(PutError::Memory) => Status::NoMemory,
    }
}

/// Tells a fault, which ends the run.
pub(crate) fn tell_fault<O: Sink>(alloc: Global, fault: &FileFault<'_>, out: &mut O) -> Status
    ensures { IsTold (refused_with (fault_of fault.now)) (O.faults out.old) (O.faults out.new) (O.written out.old)
        (O.written out.new) result }
{
    ended(put_fault(alloc, fault, out), Status::Refused)
}

/// Tells how the program is called.
pub(crate) fn tell_usage<O: Sink>(out: &mut O) -> Status
    ensures { IsTold usage_told (O.faults out.old) (O.faults out.new) (O.written out.old) (O.written out.new) result }
{
    ended(put_usage(out), Status::Usage)
}

#[tactic(auto, unfolding(fx_plain::specs::CommandLine::usage_line))]
fn put_usage<O: Sink>(out: &mut O) -> Result<(), PutError>
    ensures cause { HasCause Failed (O.faults out.old) (O.faults out.new) result }
    ensures writes { Writes (O.written out.old) (O.written out.new) result usage_told.bytes }
{
    out.put(USAGE.as_bytes())
}
