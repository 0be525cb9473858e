//! The sink that is standard output, or any other writer.
//! It is the program's edge: the sink itself tells nothing of what was written.
ghost use Rattle.std.specs.Prelude.{◌≡◌, None, Err};
ghost use Rattle.fx_port.specs.Causes.{HasCause, next_count};
ghost use Rattle.fx_edge.specs.Taken.{Takes};

use fx_port::{PutError, Sink};
use std::io;
use std::io::{ErrorKind, Write};

/// A writer, flushed after each piece. The count of faults stays at its last value, 2^64 - 1.
#[derive(Drop)]
pub struct OutSink<W: Write> {
    writer: W,
    faults: u64,
}

impl<W: Write> OutSink<W> {
    pub fn new(writer: W) -> OutSink<W>
        ensures { result ≡ record { writer = writer; faults = 0 } }
    {
        OutSink { writer, faults: 0 }
    }

    /// Writes a piece, and counts a fault exactly where that failed.
    fn put_counted(&mut self, piece: &[u8]) -> Result<(), PutError>
        ensures cause { HasCause PutError.Failed self.old.faults self.new.faults result }
        ensures takes { Takes (W.contents self.old.writer) (W.contents self.new.writer) result piece.now }
        ensures failed { result ≡ Err PutError.Failed → self.new.faults ≡ next_count self.old.faults }
        ensures answered { ¬ (result ≡ Err PutError.Failed) → self.new.faults ≡ self.old.faults }
        ensures memory { ¬ (result ≡ Err PutError.Memory) }
    {
        match write_whole(&mut self.writer, piece) {
            Ok(()) => Ok(()),
            Err(_) => {
                self.faults = self.faults.saturating_add(1);
                Err(PutError::Failed)
            }
        }
    }
}

impl<W: Write> Sink for OutSink<W> {
    ghost written = { λ _. None };

    ghost faults = { λ sink. sink.faults };

    fn put(&mut self, piece: &[u8]) -> Result<(), PutError> {
        self.put_counted(piece)
    }
}

/// Writes the whole piece, and flushes. A writer that takes nothing of it fails.
fn write_whole<W: Write>(writer: &mut W, piece: &[u8]) -> io::Result<()>
    // of a writer whose bytes are known: they grew by the piece, or at an error by a prefix of it
    ensures { Takes (W.contents writer.old) (W.contents writer.new) result piece.now }
{
    let mut rest = piece;
    while !rest.is_empty() {
        let count = writer.write(rest)?;
        if count == 0 {
            return Err(io::Error::from(ErrorKind::WriteZero));
        }
        rest = &rest[count..];
    }
    writer.flush()
}
