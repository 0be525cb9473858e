//! A shelf that lives in memory, with a list of calls that fail.

ghost use Rattle.std.specs.Prelude.{◌≡◌, ◌↔◌, ℕ, ◌+◌, ◌-◌, ◌^◌, min, IfOk, IfSome, Some, None, Option, [], map, Contains, List};
ghost use Rattle.std.specs.Option.{option_copied};
ghost use Rattle.fx_port.specs.Causes.{HasCause, next_count};
ghost use Rattle.fx_port.specs.Files.{Files, IsWithin, file_at, files_of, found_by, found_in, found_of_bytes};
ghost use Rattle.fx_port.specs.MemoryFiles.{entries_of};

use crate::files::{FetchError, Fetched, Shelf};
use std::alloc::Global;
use std::marker::Model;

/// Files in memory. Calls of `fetch` are numbered from 1; those that were listed answer `Failed`, and
/// no other does. The counts of calls and of faults stay at their last value, 2^64 - 1.
#[derive(Drop)]
pub struct MemoryShelf {
    files: Vec<(String, Vec<u8>)>,
    failing: Vec<u64>,
    calls: u64,
    faults: u64,
}

impl Model for MemoryShelf {
    ghost use Rattle.fx_port.specs.MemoryFiles.{ShelfState, entries_of};

    ghost Value = { ShelfState };

    ghost view = { λ shelf. record {
      entries = entries_of shelf.files.items;
      failing = shelf.failing.items;
      calls = shelf.calls;
      faults = shelf.faults;
    } };
}

impl MemoryShelf {
    /// A shelf of these files, of which the first of a name counts, with the numbers of the calls that
    /// are to fail.
    pub fn new(files: Vec<(String, Vec<u8>)>, failing: Vec<u64>) -> MemoryShelf
        ensures { result ≡ record {
          entries = entries_of files.items;
          failing = failing.items;
          calls = 0;
          faults = 0;
        } }
    {
        MemoryShelf {
            files,
            failing,
            calls: 0,
            faults: 0,
        }
    }
}

impl Shelf for MemoryShelf {
    ghost held = { λ shelf. Some (files_of shelf.entries) };

    ghost faults = { λ shelf. shelf.faults };

    fn fetch(&mut self, alloc: Global, name: &str, most: usize) -> Result<Fetched, FetchError>
        ensures cause { HasCause FetchError.Failed self.old.faults self.new.faults result }
        ensures held { Some (files_of self.new.entries) ≡ Some (files_of self.old.entries) }
        ensures within { IfOk result (λ fetched. IsWithin most (found_by fetched)) }
        ensures content { IfOk result (λ fetched.
            IfSome (Some (files_of self.old.entries)) (λ files. found_by fetched ≡ found_in files name.now most)) }
        ensures kept { (self.new.entries ≡ self.old.entries) × (self.new.failing ≡ self.old.failing) }
        ensures numbered { self.new.calls ≡ next_count self.old.calls }
        ensures listed { (result ≡ Err FetchError.Failed) ↔ Contains self.old.failing self.new.calls }
        ensures failed { result ≡ Err FetchError.Failed → self.new.faults ≡ next_count self.old.faults }
        ensures answered { ¬ (result ≡ Err FetchError.Failed) → self.new.faults ≡ self.old.faults }
    {
        self.calls = self.calls.saturating_add(1);
        if self.failing.contains(&self.calls) {
            self.faults = self.faults.saturating_add(1);
            return Err(FetchError::Failed);
        }
        answer(alloc, first_named(&self.files, name), most)
    }
}

/// The bytes of the first file of this name.
fn first_named<'a>(files: &'a [(String, Vec<u8>)], name: &str) -> Option<&'a [u8]>
    ensures { option_copied result ≡ file_at (files_of (entries_of files.now)) name.now }
{
    for (key, bytes) in files {
        if name == key.as_str() {
            return Some(bytes.as_slice());
        }
    }
    None
}

/// A copy of the bytes, if there are any, and no more than `most`.
fn answer(alloc: Global, bytes: Option<&[u8]>, most: usize) -> Result<Fetched, FetchError>
    ensures found { IfOk result (λ fetched. found_by fetched ≡ found_of_bytes (option_copied bytes.entry) most) }
    ensures within { IfOk result (λ fetched. IsWithin most (found_by fetched)) }
    ensures memory { ¬ (result ≡ Err FetchError.Failed) }
{
    match bytes {
        None => Ok(Fetched::Absent),
        Some(bytes) if bytes.len() <= most => Ok(Fetched::Whole(Vec::from_slice(alloc, bytes)?)),
        Some(_) => Ok(Fetched::Longer),
    }
}
