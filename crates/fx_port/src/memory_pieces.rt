//! A sink that lives in memory, with a list of calls that fail.

ghost use Rattle.std.specs.Prelude.{◌≡◌, ◌↔◌, ℕ, ◌++◌, Some, None, [], take, OnOk, IsSomeAnd, IsNone, List, Option};
ghost use Rattle.fx_port.specs.Causes.{HasCause, next_count};
ghost use Rattle.fx_port.specs.MemoryPieces.{bytes_before_failure};
ghost use Rattle.fx_port.specs.Pieces.{Writes};

use crate::pieces::{PutError, Sink};
use std::alloc::Global;
use std::marker::Model;

/// Bytes in memory. Calls of `put` are numbered from 1; one that was listed takes its number of bytes,
/// or all where there are fewer, and answers `Failed`, and no other does. The counts of calls and of
/// faults stay at their last value, 2^64 - 1.
#[derive(Drop)]
pub struct MemorySink {
    written: Vec<u8>,
    failing: Vec<(u64, usize)>,
    calls: u64,
    faults: u64,
}

impl Model for MemorySink {
    ghost use Rattle.fx_port.specs.MemoryPieces.{SinkState};

    ghost Value = { SinkState };

    ghost view = { λ sink. record {
      written = sink.written.items;
      failing = sink.failing.items;
      calls = sink.calls;
      faults = sink.faults;
    } };
}

impl MemorySink {
    /// A sink that has taken nothing, with the numbers of the calls that are to fail and how many bytes
    /// each takes; the first entry of a call counts.
    pub fn new(alloc: Global, failing: Vec<(u64, usize)>) -> MemorySink
        ensures { result ≡ record { written = []; failing = failing.items; calls = 0; faults = 0 } }
    {
        MemorySink {
            written: Vec::new(alloc),
            failing,
            calls: 0,
            faults: 0,
        }
    }

    /// The bytes taken so far.
    pub fn written(&self) -> &[u8]
        ensures { result.now ≡ self.now.written }
    {
        self.written.as_slice()
    }
}

impl Sink for MemorySink {
    ghost written = { λ sink. Some sink.written };

    ghost faults = { λ sink. sink.faults };

    fn put(&mut self, piece: &[u8]) -> Result<(), PutError>
        ensures cause { HasCause PutError.Failed self.old.faults self.new.faults result }
        ensures writes { Writes (Some self.old.written) (Some self.new.written) result piece.now }
        ensures kept { self.new.failing ≡ self.old.failing }
        ensures numbered { self.new.calls ≡ next_count self.old.calls }

        // at each answer: whether the call was listed, which bytes were taken and what the count of faults is
        ensures ok { OnOk result (bytes_before_failure self.old.failing self.new.calls ≡ None) }
        ensures listed { result ≡ Err PutError.Failed →
            IsSomeAnd (bytes_before_failure self.old.failing self.new.calls)
            (λ count. self.new.written ≡ self.old.written ++ take count piece.now) }
        ensures memory { result ≡ Err PutError.Memory → self.new.written ≡ self.old.written }
        ensures failed { result ≡ Err PutError.Failed → self.new.faults ≡ next_count self.old.faults }
        ensures answered { ¬ (result ≡ Err PutError.Failed) → self.new.faults ≡ self.old.faults }
    {
        self.calls = self.calls.saturating_add(1);
        let Some(count) = count_before_failure(&self.failing, self.calls) else {
            return Ok(self.written.extend_from_slice(piece)?);
        };
        self.written
            .extend_from_slice(&piece[..count.min(piece.len())])?;
        self.faults = self.faults.saturating_add(1);
        Err(PutError::Failed)
    }
}

/// How many bytes this call takes before it fails, if it is one that fails.
fn count_before_failure(failing: &[(u64, usize)], call: u64) -> Option<usize>
    ensures { result ≡ bytes_before_failure failing.now call }
{
    failing
        .iter()
        .find(|entry| entry.0 == call)
        .map(|entry| entry.1)
}
