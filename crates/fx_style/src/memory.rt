//! Memory that serves again, within an update and from one to the next.
ghost use Rattle.std.specs.Prelude.{◌≡◌, []};

use crate::entries::Entries;
use fx_cascade::Winners;
use fx_css_types::Candidate;
use fx_node_style::{NodeStyle, Room};
use std::alloc::Global;
use std::mem;

/// The list of the rules that match a node, the table of its winners, its style while it is made, and entries that are
/// gone. What stands in them doesn't matter.
#[derive(Drop)]
pub(crate) struct Memory {
    pub found: Vec<Candidate>,
    pub winners: Winners,
    pub draft: NodeStyle,
    pub gone: Entries,
}

impl Memory {
    /// No memory yet.
    pub fn new(alloc: Global) -> Memory {
        Memory {
            found: Vec::new(alloc),
            winners: Winners::new(alloc),
            draft: Room::new(alloc).into_style(),
            gone: Entries::new(alloc),
        }
    }
}

/// The entries that are gone, as memory for at most so many new ones.
pub(crate) fn taken_entries(memory: &mut Memory, alloc: Global, most: usize) -> Entries
    ensures { result ≡ [] }
{
    let mut entries = mem::replace(&mut memory.gone, Entries::new(alloc));
    entries.restart(most);
    entries
}
