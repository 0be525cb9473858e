//! The shelf of a demo: its three files, made from the number of its labels and kept in memory.
//! It stands in place of the shelf that a run over files has.
ghost use Rattle.std.specs.Prelude.{◌≡◌, ◌≤◌, [], IfOk};
ghost use Rattle.fx_plain.specs.Demos.{demo_entries};
ghost use Rattle.fx_port.specs.MemoryFiles.{entries_of};

use fx_gen::make;
use fx_port::{FetchError, Fetched, MemoryShelf, Shelf};
use std::alloc::{AllocError, Global};

pub(crate) const DEMO_SCENE: &str = "demo.fxml";

pub(crate) const DEMO_SHEET: &str = "demo.css";

pub(crate) const DEMO_SCRIPT: &str = "demo.txt";

/// The files of a demo. No call fails, so there is nothing to count.
#[derive(Drop)]
pub(crate) struct DemoShelf {
    files: MemoryShelf,
    ghost calm: { files.failing ≡ [] },
}

impl DemoShelf {
    /// The shelf of the demo of so many labels.
    pub(crate) fn new(alloc: Global, number: u32) -> Result<DemoShelf, AllocError>
        requires some { 1 ≤ number }
        requires most { number ≤ 3600 }
        ensures { IfOk result (λ shelf. shelf.files.entries ≡ demo_entries number) }
    {
        let files = made(alloc, number)?;
        Ok(DemoShelf {
            files: MemoryShelf::new(files, Vec::new(alloc)),
        })
    }
}

impl Shelf for DemoShelf {
    ghost use Rattle.std.specs.Prelude.{Some};
    ghost use Rattle.fx_port.specs.Files.{files_of};

    ghost held = { λ shelf. Some (files_of shelf.files.entries) };

    ghost faults = { λ _. 0 };

    fn fetch(&mut self, alloc: Global, name: &str, most: usize) -> Result<Fetched, FetchError> {
        self.files.fetch(alloc, name, most)
    }
}

#[tactic(auto, unfolding(fx_plain::specs::Demos::demo_entries))]
fn made(alloc: Global, number: u32) -> Result<Vec<(String, Vec<u8>)>, AllocError>
    requires some { 1 ≤ number }
    requires most { number ≤ 3600 }
    ensures { IfOk result (λ files. entries_of files.items ≡ demo_entries number) }
{
    let (scene, sheet, script) = make(alloc, number)?;
    let mut files = Vec::with_capacity(alloc, 3)?;
    files.push((String::from_str(alloc, DEMO_SCENE)?, scene))?;
    files.push((String::from_str(alloc, DEMO_SHEET)?, sheet))?;
    files.push((String::from_str(alloc, DEMO_SCRIPT)?, script))?;
    Ok(files)
}
