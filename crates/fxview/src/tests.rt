//! A stream that is shown whole, and up to a write that fails; stream_cases has streams with a bad line each.
use crate::answers::ViewStatus;
use crate::top::show;
use fx_port::{MemoryShelf, MemorySink};
use std::alloc::{AllocError, Global};
use std::test::Fail;

const STREAM: &str = "a\nframe 1 2 2 damage 0\nrow 1 1 0000FF\nendframe\nb\n";

const SHOWN: &str = "a\nframe 1 2 2 damage 0\nffffff ffffff\nffffff 0000ff\nb\n";

fn word(alloc: Global) -> Result<Vec<String>, AllocError> {
    let mut words = Vec::new(alloc);
    words.push(String::from_str(alloc, "d")?)?;
    Ok(words)
}

/// A shelf with the stream under that word.
fn shelf(alloc: Global) -> Result<MemoryShelf, AllocError> {
    let mut files = Vec::new(alloc);
    files.push((
        String::from_str(alloc, "d")?,
        Vec::from_slice(alloc, STREAM.as_bytes())?,
    ))?;
    Ok(MemoryShelf::new(files, Vec::new(alloc)))
}

/// Whether the stream is shown so.
fn shows(alloc: Global, sink: &mut MemorySink, status: ViewStatus, text: &str) -> bool {
    let Ok(mut shelf) = shelf(alloc) else {
        return false;
    };
    let Ok(words) = word(alloc) else {
        return false;
    };
    show(alloc, words.as_slice(), &mut shelf, sink) == status && sink.written() == text.as_bytes()
}

#[test]
fn shows_a_stream(rt: HostRuntime) {
    let alloc = rt.alloc();
    let mut sink = MemorySink::new(alloc, Vec::new(alloc));
    assert!(rt; shows(alloc, &mut sink, ViewStatus::Done, SHOWN));
}

#[test]
fn ends_at_a_write_that_fails(rt: HostRuntime) -> Result<(), Fail> {
    let alloc = rt.alloc();
    let mut sink = MemorySink::new(alloc, vec![in alloc; (2, 6)]?);
    assert!(rt; shows(alloc, &mut sink, ViewStatus::WriteFault, "a\nframe "));
    Ok(())
}
