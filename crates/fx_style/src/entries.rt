//! The entries that an update makes, each in the memory of one that is gone.
ghost use Rattle.std.specs.Prelude.{◌≡◌, ◌++◌, ◌∷◌, ◌+◌, ◌<◌, ◌≤◌, [], OnOk, length, take};
ghost use Rattle.fx_style.specs.Kept.{entry, put_looks, put_rest};

use crate::kept::{Entry, Fresh, Rest};
use crate::putting::put_all;
use fx_base::NodeKey;
use fx_look::Look;
use fx_node_style::{NodeStyle, Room};
use std::alloc::{AllocError, Global};
use std::marker::Model;
use std::mem;

/// The entries that were made so far. Those behind them are gone, and only their memory serves again: contracts don't
/// see them.
#[derive(Drop)]
pub(crate) struct Entries {
    all: Vec<Fresh>,
    count: usize,
}

impl Model for Entries {
    ghost use Rattle.std.specs.Prelude.{◌≤◌, List as Items, length, take};
    ghost use Rattle.fx_style.specs.declared.kept.Fresh.{Fresh as Made};

    ghost Value = { Items Made };

    ghost view = { λ e. take e.count e.all.items };

    ghost invariant = { λ e. e.count ≤ length e.all.items };
}

impl Entries {
    /// None, and no memory.
    pub fn new(alloc: Global) -> Entries
        ensures { result ≡ [] }
    {
        Entries {
            all: Vec::new(alloc),
            count: 0,
        }
    }

    /// Lets go of all of them, and keeps the memory of at most so many.
    pub fn restart(&mut self, most: usize)
        ensures { self.new ≡ [] }
    {
        self.count = 0;
        self.all.truncate(most);
    }

    /// Makes room for so many entries, and no more.
    pub fn reserve(&mut self, count: usize) -> Result<(), AllocError>
        ensures { self.new ≡ self.old }
    {
        let more = count.saturating_sub(self.all.len());
        self.all.reserve_exact(more)
    }

    pub fn len(&self) -> usize
        ensures { result ≡ length self.now }
    {
        self.count
    }

    pub fn as_slice(&self) -> &[Fresh]
        ensures { result.now ≡ self.now }
    {
        &self.all.as_slice()[..self.count]
    }

    /// Puts an entry of this style behind the others. Another style is left in its place.
    pub fn push(
        &mut self,
        alloc: Global,
        at: usize,
        key: NodeKey,
        style: &mut NodeStyle,
    ) -> Result<(), AllocError>
        ensures { OnOk result (self.new ≡ self.old ++ record { at = at; entry = entry key style.old } ∷ []) }
    {
        make_room(&mut self.all, self.count, alloc)?;
        write_at(self.all.as_mut_slice(), self.count, at, key, style);
        self.count += 1;
        Ok(())
    }

    /// Puts the entries in their places, and takes what stood there.
    pub fn put(&mut self, looks: &mut [Look], rest: &mut [Rest])
        ensures looks { looks.new ≡ put_looks looks.old self.old }
        ensures rest { rest.new ≡ put_rest rest.old self.old }
    {
        put_all(looks, rest, self.all.as_mut_slice(), self.count);
    }
}

/// Makes room for an entry behind so many, if there is none.
fn make_room(all: &mut Vec<Fresh>, count: usize, alloc: Global) -> Result<(), AllocError>
    requires { count ≤ length all.old.items }
    ensures same { take count all.new.items ≡ take count all.old.items }
    ensures within { count ≤ length all.new.items }
    ensures room { OnOk result (count < length all.new.items) }
{
    if count < all.len() {
        return Ok(());
    }
    all.push(blank(alloc))?;
    Ok(())
}

fn blank(alloc: Global) -> Fresh {
    Fresh {
        at: 0,
        entry: Entry {
            key: NodeKey { slot: 0, birth: 0 },
            style: Room::new(alloc).into_style(),
        },
    }
}

fn write_at(all: &mut [Fresh], count: usize, at: usize, key: NodeKey, style: &mut NodeStyle)
    requires { count < length all.old }
    ensures { take (count + 1) all.new
        ≡ take count all.old ++ record { at = at; entry = entry key style.old } ∷ [] }
{
    let one = &mut all[count];
    one.at = at;
    one.entry.key = key;
    mem::swap(&mut one.entry.style, style);
}
