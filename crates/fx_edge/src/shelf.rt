//! The shelf of real files: a name is a path, seen from the folder that the program was started in.
//! It is the program's edge: no contract says what the files hold.
ghost use Rattle.std.specs.Prelude.{◌≡◌, None, IfOk, IfSome, Ok, Some, Err};
ghost use Rattle.std.specs.IoError.{error_kind};
ghost use Rattle.fx_port.specs.Causes.{HasCause, next_count};
ghost use Rattle.fx_port.specs.Files.{IsWithin, found_by, found_of_bytes};

use fx_port::{FetchError, Fetched, Shelf};
use std::alloc::Global;
use std::io::{ErrorKind, Read};
use std::rt::Files;
use std::{fs, io};

/// How many bytes one read asks for at most.
const WINDOW: usize = 16_384;

/// Files of the file system. The count of faults stays at its last value, 2^64 - 1.
#[derive(Drop)]
pub struct FileShelf<'a, R: Files> {
    files: &'a R,
    faults: u64,
}

impl<'a, R: Files> FileShelf<'a, R> {
    pub fn new(files: &'a R) -> FileShelf<'a, R>
        ensures { result.faults ≡ 0 }
    {
        FileShelf { files, faults: 0 }
    }

    /// Fetches a file, and counts a fault exactly where that failed.
    fn fetch_counted(
        &mut self,
        alloc: Global,
        name: &str,
        most: usize,
    ) -> Result<Fetched, FetchError>
        ensures cause { HasCause FetchError.Failed self.old.faults self.new.faults result }
        ensures within { IfOk result (λ fetched. IsWithin most (found_by fetched)) }
        ensures failed { result ≡ Err FetchError.Failed → self.new.faults ≡ next_count self.old.faults }
        ensures answered { ¬ (result ≡ Err FetchError.Failed) → self.new.faults ≡ self.old.faults }
    {
        let fetched = fetch_from(self.files, alloc, name, most);
        if let Err(FetchError::Failed) = &fetched {
            self.faults = self.faults.saturating_add(1);
        }
        fetched
    }
}

impl<R: Files> Shelf for FileShelf<'_, R> {
    ghost held = { λ _. None };

    ghost faults = { λ shelf. shelf.faults };

    fn fetch(&mut self, alloc: Global, name: &str, most: usize) -> Result<Fetched, FetchError> {
        self.fetch_counted(alloc, name, most)
    }
}

fn fetch_from<R: Files>(
    files: &R,
    alloc: Global,
    name: &str,
    most: usize,
) -> Result<Fetched, FetchError>
    ensures { IfOk result (λ fetched. IsWithin most (found_by fetched)) }
{
    match fs::open(files, name) {
        Ok(file) => {
            let mut file = file;
            read_within(alloc, &mut file, most)
        }
        Err(e) => unopened(&e),
    }
}

/// What is answered for a file that could not be opened: it is absent only if it was not found.
fn unopened(error: &io::Error) -> Result<Fetched, FetchError>
    ensures absent { error_kind error.now ≡ ErrorKind.NotFound → result ≡ Ok Fetched.Absent }
    ensures failed { ¬ (error_kind error.now ≡ ErrorKind.NotFound) → result ≡ Err FetchError.Failed }
{
    if error.kind() == ErrorKind::NotFound {
        Ok(Fetched::Absent)
    } else {
        Err(FetchError::Failed)
    }
}

/// All the bytes that a reader has left, if there are no more than `most`; it takes one byte more at most.
fn read_within<R: Read>(alloc: Global, reader: &mut R, most: usize) -> Result<Fetched, FetchError>
    ensures within { IfOk result (λ fetched. IsWithin most (found_by fetched)) }

    // of a reader whose bytes are known: all of them, and `Longer` exactly where there are more
    ensures content { IfOk result (λ fetched. IfSome (R.remaining reader.old) (λ bytes. found_by fetched ≡
        found_of_bytes (Some bytes) most)) }
{
    let mut bytes = Vec::new(alloc);
    let mut window = [0u8; WINDOW];
    loop {
        let room = most - bytes.len();
        let asked = room.min(WINDOW - 1) + 1;
        let Ok(count) = reader.read(&mut window[..asked]) else {
            return Err(FetchError::Failed);
        };
        if count == 0 {
            return Ok(Fetched::Whole(bytes));
        }
        if count > room {
            return Ok(Fetched::Longer);
        }
        bytes.extend_from_slice(&window[..count])?;
    }
}
