//! The program: plays a script on a scene over real files and standard output, and ends with the run's exit
//! status. What it decides is decided by `fx_play`; here stand the words and the statuses.
#![tactic(auto)]

mod exits;
mod start;

use fx_edge::{FileShelf, OutSink};
use start::{Ending, start};
use std::alloc::AllocError;
use std::marker::Brand;
use std::rt::Env;
use std::sync::ledger::Blank;
use std::{env, io};

fn main(rt: HostRuntime) -> Ending {
    let Ok(words) = words_of(&rt) else {
        return Ending::without_memory();
    };
    let mut shelf = FileShelf::new(&rt);
    let mut out = OutSink::new(rt.stdout());
    start::<FileShelf<'_, HostRuntime>, _, Brand>(
        rt.alloc(),
        words.as_slice(),
        &mut shelf,
        &mut out,
        Blank::new(1),
        Blank::new(1),
        Blank::new(1),
        Blank::new(1),
    )
}

/// The words after the program's name; none where one of them isn't UTF-8, which asks for no run.
fn words_of<R: Env + AllocGlobal>(rt: &R) -> Result<Vec<String>, AllocError> {
    match env::args(rt) {
        Ok(words) => words.skip(1).collect(rt.alloc()),
        Err(e) if e.kind() == io::ErrorKind::OutOfMemory => Err(AllocError),
        Err(_) => Ok(Vec::new(rt.alloc())),
    }
}
