//! Fetching the files of a run, and why one is refused.
ghost use Rattle.std.specs.Prelude.{◌≡◌, ◌≤◌, ◌<◌, IfOk, Some, length, map};
ghost use Rattle.fx_port.specs.Causes.{HasCause};
ghost use Rattle.fx_port.specs.Files.{Files};
ghost use Rattle.fx_load_parts.specs.Faults.{fault_at, whole_fault};
ghost use Rattle.fx_load_parts.specs.Files as spec;
ghost use Rattle.fx_load_parts.specs.Files.{bytes_of, fetched};
ghost use Rattle.fx_load_parts.specs.Says.{LoadSays};
ghost use Rattle.fx_load_parts.specs.Views.{fault_of};
ghost use Rattle.fx_load_parts.specs.declared.files.LoadError.TheVariants.{Failed};

use fx_base::{Position, Str};
use fx_port::{FetchError, Fetched, Shelf};
use fx_scene_flaws::{FaultKind, Flaw};
use std::alloc::{AllocError, AllocFailed, Global};

/// The most files that are fetched behind the script.
pub const MOST_FETCHES: usize = 63;

/// The most bytes of a file.
pub const FILE_LIMIT: usize = 4_194_304;

/// A run over files, by their names.
#[derive(Clone, Copy)]
pub struct Run<'a> {
    pub scene: &'a str,
    pub script: &'a str,
    pub sheets: &'a [Str],
}

/// Why a file is refused, and where: a position in it, or line 0 and column 0 for the whole file.
#[derive(Clone, Copy)]
pub struct FileFault<'a> {
    pub kind: FaultKind,
    pub file: &'a str,
    pub position: Position,
}

impl<'a> FileFault<'a> {
    /// The whole file is refused.
    pub fn whole(kind: FaultKind, file: &'a str) -> FileFault<'a>
        ensures { fault_of result ≡ whole_fault kind file.now }
    {
        FileFault {
            kind,
            file,
            position: Position { line: 0, column: 0 },
        }
    }

    /// The file is refused at a position.
    pub fn at(kind: FaultKind, file: &'a str, position: Position) -> FileFault<'a>
        ensures { fault_of result ≡ fault_at kind file.now position }
    {
        FileFault {
            kind,
            file,
            position,
        }
    }
}

/// Why nothing can be played.
pub enum LoadError<'a> {
    Fault(FileFault<'a>),
    /// The shelf failed.
    Failed,
    Memory,
}

impl<'a> From<AllocError> for LoadError<'a> {
    ghost use Rattle.std.specs.Prelude.{◌≡◌};
    ghost use Rattle.fx_load_parts.specs.declared.files.LoadError.TheVariants.{Memory};

    ghost from_gives = { λ _ e. e ≡ Memory };

    fn from(_e: AllocError) -> LoadError<'a> {
        LoadError::Memory
    }
}

impl<'a, T: Drop> From<AllocFailed<T>> for LoadError<'a> {
    ghost use Rattle.std.specs.Prelude.{◌≡◌};
    ghost use Rattle.fx_load_parts.specs.declared.files.LoadError.TheVariants.{Memory};

    ghost from_gives = { λ _ e. e ≡ Memory };

    fn from(_e: AllocFailed<T>) -> LoadError<'a> {
        LoadError::Memory
    }
}

impl<'a> From<FetchError> for LoadError<'a> {
    ghost use Rattle.std.specs.Prelude.{◌≡◌};
    ghost use Rattle.fx_load_parts.specs.Says.{load_error};

    ghost from_gives = { λ error e. e ≡ load_error error };

    fn from(error: FetchError) -> LoadError<'a> {
        match error {
            FetchError::Failed => LoadError::Failed,
            FetchError::Memory => LoadError::Memory,
        }
    }
}

/// The bytes of a file, or why it is refused.
pub fn read_file<'a, F: Shelf>(
    alloc: Global,
    shelf: &mut F,
    name: &'a str,
) -> Result<Vec<u8>, LoadError<'a>>
    ensures held { F.held shelf.new ≡ F.held shelf.old }
    ensures cause { HasCause Failed (F.faults shelf.old) (F.faults shelf.new) result }
    ensures within { IfOk result (λ bytes. length bytes.items ≤ 4194304) }
    ensures says { (files : Files) → F.held shelf.old ≡ Some files → LoadSays (λ bytes. bytes.items) result
        (bytes_of files name.now) }
{
    match shelf.fetch(alloc, name, FILE_LIMIT) {
        Ok(Fetched::Whole(bytes)) => Ok(bytes),
        Ok(Fetched::Absent) => Err(LoadError::Fault(FileFault::whole(FaultKind::Missing, name))),
        Ok(Fetched::Longer) => Err(LoadError::Fault(FileFault::whole(FaultKind::TooLarge, name))),
        Err(FetchError::Failed) => Err(LoadError::Failed),
        Err(FetchError::Memory) => Err(LoadError::Memory),
    }
}

/// The bytes of a file, the one of this number behind the script; at most 63 are fetched there.
pub fn fetch_file<'a, F: Shelf>(
    alloc: Global,
    shelf: &mut F,
    file: usize,
    name: &'a str,
) -> Result<Vec<u8>, LoadError<'a>>
    ensures held { F.held shelf.new ≡ F.held shelf.old }
    ensures cause { HasCause Failed (F.faults shelf.old) (F.faults shelf.new) result }
    ensures within { IfOk result (λ bytes. (file < 63) × (length bytes.items ≤ 4194304)) }
    ensures says { (files : Files) → F.held shelf.old ≡ Some files → LoadSays (λ bytes. bytes.items) result
        (fetched files file name.now) }
{
    if file >= MOST_FETCHES {
        return Err(LoadError::Fault(FileFault::whole(FaultKind::Flawed(Flaw::Limit), name)));
    }
    read_file(alloc, shelf, name)
}

/// The name of the file of this number among those that were fetched.
#[tactic(auto, unfolding(crate::specs::Files::name_in))]
pub fn name_in(files: &[Str], file: u32) -> &str
    ensures { result.now ≡ spec.name_in files.now file }
{
    match files.get(file as usize) {
        Some(name) => name.as_str(),
        None => "",
    }
}
