//! The shelf of real files, and the sink of a writer that fails. The shelf and the sink in memory are called by the
//! runs of fx_play_tests.
use fx_edge::{FileShelf, OutSink};
use fx_port::{FetchError, Fetched, Shelf, Sink};
use std::alloc::Global;
use std::io::{ErrorKind, Write};
use std::test::Fail;
use std::{fs, io};

/// What a shelf answers for a file, in a word.
fn answer<S: Shelf>(shelf: &mut S, alloc: Global, name: &str, most: usize) -> &'static str {
    match shelf.fetch(alloc, name, most) {
        Ok(Fetched::Whole(bytes)) => {
            if bytes.as_slice() == b"abc".as_slice() {
                "abc"
            } else {
                "other"
            }
        }
        Ok(Fetched::Absent) => "absent",
        Ok(Fetched::Longer) => "longer",
        Err(FetchError::Failed) => "failed",
        Err(FetchError::Memory) => "memory",
    }
}

#[test]
fn fetches_real_files(rt: HostRuntime) -> Result<(), Fail> {
    fs::write(&rt, "held.bin", "abc")?;
    let alloc = rt.alloc();
    let mut shelf = FileShelf::new(&rt);
    assert!(rt; answer(&mut shelf, alloc, "held.bin", 3) == "abc");
    assert!(rt; answer(&mut shelf, alloc, "held.bin", 2) == "longer");
    assert!(rt; answer(&mut shelf, alloc, "absent.bin", 9) == "absent");
    assert!(rt; answer(&mut shelf, alloc, ".", 9) == "failed");
    fs::remove_file(&rt, "held.bin")?;
    Ok(())
}

/// Takes three bytes at a time while it has room; its flush may fail.
#[derive(Drop)]
struct Narrow {
    taken: usize,
    room: usize,
    flushes: bool,
}

impl Write for Narrow {
    fn write(&mut self, buf: &[u8]) -> io::Result<usize> {
        let count = buf.len().min(3).min(self.room);
        self.room -= count;
        self.taken = self.taken.saturating_add(count);
        Ok(count)
    }

    fn flush(&mut self) -> io::Result<()> {
        if self.flushes {
            Ok(())
        } else {
            Err(io::Error::from(ErrorKind::BrokenPipe))
        }
    }
}

/// How many of ten bytes a writer with this room takes, and whether the sink fails.
fn put_ten(room: usize, flushes: bool) -> (usize, bool) {
    let mut narrow = Narrow {
        taken: 0,
        room,
        flushes,
    };
    let failed = OutSink::new(&mut narrow).put(b"0123456789").is_err();
    (narrow.taken, failed)
}

#[test]
fn puts_all_or_fails(rt: HostRuntime) {
    assert!(rt; put_ten(10, true) == (10, false));
    assert!(rt; put_ten(7, true) == (7, true));
    assert!(rt; put_ten(99, false) == (10, true));
}
