//! Why a run isn't played.
ghost use Rattle.fx_play.specs.Ends.{IsUnloadedTold, IsUnstagedTold};

use crate::endings::tell_fault;
use fx_base::Str;
use fx_load_parts::{FileFault, LoadError, name_in};
use fx_plain::Status;
use fx_port::Sink;
use fx_scene_raise::RaiseError;
use std::alloc::Global;

/// Ends a run whose files weren't loaded.
pub(crate) fn tell_unloaded<O: Sink>(alloc: Global, error: LoadError<'_>, out: &mut O) -> Status
    ensures { IsUnloadedTold error.entry (O.faults out.old) (O.faults out.new) (O.written out.old) (O.written out.new)
        result }
{
    match error {
        LoadError::Fault(fault) => tell_fault(alloc, &fault, out),
        LoadError::Failed => Status::ReadFault,
        LoadError::Memory => Status::NoMemory,
    }
}

/// Ends a run whose scene wasn't raised; the fault is in one of these files.
pub(crate) fn tell_unstaged<O: Sink>(
    alloc: Global,
    files: &[Str],
    error: RaiseError,
    out: &mut O,
) -> Status
    ensures { IsUnstagedTold files.now error (O.faults out.old) (O.faults out.new) (O.written out.old)
        (O.written out.new) result }
{
    match error {
        RaiseError::Fault(fault) => {
            let name = name_in(files, fault.place.file);
            let told = FileFault::at(fault.kind, name, fault.place.position);
            tell_fault(alloc, &told, out)
        }
        RaiseError::Memory => Status::NoMemory,
    }
}
