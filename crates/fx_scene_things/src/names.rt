//! The names of a document that are known so far.
ghost use Rattle.std.specs.Prelude.{◌≡◌, IfOk, OnOk, string_bytes};
ghost use Rattle.std.specs.Option.{option_copied};
ghost use Rattle.fx_scene_things.specs.Known.{known};
ghost use Rattle.fx_scene_things.specs.Names as spec;

use crate::things::{Named, Thing};
use indexmap::IndexMap;
use std::alloc::{AllocError, Global};

/// Names with what they stand for.
#[derive(Drop)]
pub struct Names {
    things: IndexMap<String, Thing>,
}

impl Names {
    /// No name is known.
    pub fn new(alloc: Global) -> Names
        ensures { known result ≡ spec.nothing }
    {
        Names {
            things: IndexMap::new(alloc),
        }
    }

    /// What the name stands for.
    pub fn get(&self, name: &str) -> Option<&Thing>
        ensures { option_copied result ≡ known self.now name.now }
    {
        self.things.get(name)
    }

    /// The node of this name.
    pub fn node(&self, name: &str) -> Option<Named>
        ensures { result ≡ spec.node_called (known self.now) name.now }
    {
        match self.get(name) {
            Some(thing) => node_in(thing),
            None => None,
        }
    }

    /// Has anything the name?
    pub fn has(&self, name: &str) -> bool
        ensures { result ≡ spec.has_name (known self.now) name.now }
    {
        self.get(name).is_some()
    }

    /// The name stands for this from now on.
    pub fn put(&mut self, alloc: Global, name: &str, thing: Thing) -> Result<(), AllocError>
        ensures ok { OnOk result (known self.new ≡ spec.with_name (known self.old) name.now thing) }
    {
        self.keep(String::from_str(alloc, name)?, thing)
    }

    /// The same names.
    pub fn copy(&self, alloc: Global) -> Result<Names, AllocError>
        ensures { IfOk result (λ names. known names ≡ known self.now) }
    {
        let mut names = Names::new(alloc);
        let mut left = self.things.len();
        while left > 0 {
            left -= 1;
            if let Some((name, thing)) = self.things.get_index(left) {
                names.put(alloc, name.as_str(), thing.copy(alloc)?)?;
            }
        }
        Ok(names)
    }

    fn keep(&mut self, name: String, thing: Thing) -> Result<(), AllocError>
        ensures ok { OnOk result (known self.new ≡ spec.with_name (known self.old) (string_bytes name) thing) }
    {
        match self.things.insert(name, thing) {
            Ok(_) => Ok(()),
            Err(_) => Err(AllocError),
        }
    }
}

fn node_in(thing: &Thing) -> Option<Named>
    ensures { result ≡ spec.node_in thing.now }
{
    match thing {
        Thing::Node(named) => Some(*named),
        _ => None,
    }
}
