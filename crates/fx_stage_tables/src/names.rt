//! Names with what they stand for, in the order in which they were given.
ghost use Rattle.std.specs.Prelude.{◌≡◌, ◌<◌, ◌++◌, ◌∷◌, [], None, IsOk, OnOk, OnErr, length};
ghost use Rattle.std.specs.Map.{lookup};
ghost use Rattle.std.specs.Option.{option_copied};
ghost use Rattle.std.specs.Str.{bytes_eq};
ghost use Rattle.indexmap.specs.IndexMap.{insert_entry};

use fx_base::Text;
use indexmap::IndexMap;
use std::alloc::{AllocError, Global};
use std::marker::Model;

/// A map from names. Contracts see its entries in the order in which the names were given, and for how many more there
/// is room.
#[derive(Drop)]
pub struct NameMap<T> {
    given: IndexMap<Text, T>,
}

impl<T> Model for NameMap<T> {
    ghost use Rattle.fx_stage_tables.specs.Roomy.{Named};
    ghost use Rattle.indexmap.specs.IndexMap.{spare};

    ghost Value = { Named T };

    ghost view = { λ m. record { entries = m.given.entries; room = spare m.given } };
}

impl<T: Drop> NameMap<T> {
    /// No name was given.
    pub fn new(alloc: Global) -> NameMap<T>
        ensures { result.entries ≡ [] }
    {
        NameMap {
            given: IndexMap::new(alloc),
        }
    }

    /// How many names there are.
    pub fn len(&self) -> usize
        ensures { result ≡ length self.now.entries }
    {
        self.given.len()
    }

    /// What the name stands for.
    pub fn get(&self, name: &Text) -> Option<&T>
        ensures { option_copied result ≡ lookup (bytes_eq name.now) self.now.entries }
    {
        self.given.get(name)
    }

    /// Makes room for one name more.
    pub fn reserve(&mut self) -> Result<(), AllocError>
        ensures same { self.new.entries ≡ self.old.entries }
        ensures room { OnOk result (0 < self.new.room) }
    {
        self.given.reserve(1)
    }

    /// The name, which may be new, stands for this.
    pub fn put(&mut self, name: Text, item: T) -> Result<(), AllocError>
        ensures ok { OnOk result (self.new.entries ≡ insert_entry bytes_eq self.old.entries name item) }
        ensures err { OnErr result (self.new.entries ≡ self.old.entries) }
        ensures room { 0 < self.old.room → IsOk result }
    {
        match self.given.insert(name, item) {
            Ok(_) => Ok(()),
            Err(_) => Err(AllocError),
        }
    }

    /// The name, which is new, stands for this.
    pub fn add(&mut self, name: Text, item: T) -> Result<(), AllocError>
        requires { lookup (bytes_eq name) self.old.entries ≡ None }
        ensures ok { OnOk result (self.new.entries ≡ self.old.entries ++ (name, item) ∷ []) }
        ensures err { OnErr result (self.new.entries ≡ self.old.entries) }
    {
        match self.given.insert(name, item) {
            Ok(_) => Ok(()),
            Err(_) => Err(AllocError),
        }
    }
}
