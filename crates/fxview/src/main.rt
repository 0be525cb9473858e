//! The program: shows a stream of changed rows as text frames, over real files and standard output, and ends with the
//! run's exit status. What is shown is decided by `fx_delta`; here stand the words, the faults and the statuses.
#![tactic(auto)]

mod answers;
mod streams;
#[cfg(test)]
mod tests;
mod top;

use answers::{ViewStatus, exit_code};
use fx_edge::{FileShelf, OutSink};
use std::alloc::AllocError;
use std::process::ExitCode;
use std::rt::Env;
use std::{env, io};
use top::show;

fn main(rt: HostRuntime) -> ExitCode {
    let Ok(words) = words_of(&rt) else {
        return exit_code(ViewStatus::NoMemory);
    };
    let mut shelf = FileShelf::new(&rt);
    let mut out = OutSink::new(rt.stdout());
    exit_code(show(rt.alloc(), words.as_slice(), &mut shelf, &mut out))
}

/// The words after the program's name; none where one of them isn't UTF-8, which asks for no stream.
fn words_of<R: Env + AllocGlobal>(rt: &R) -> Result<Vec<String>, AllocError> {
    match env::args(rt) {
        Ok(words) => words.skip(1).collect(rt.alloc()),
        Err(e) if e.kind() == io::ErrorKind::OutOfMemory => Err(AllocError),
        Err(_) => Ok(Vec::new(rt.alloc())),
    }
}
