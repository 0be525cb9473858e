//! The members of a group as they are found.
ghost use Rattle.std.specs.Prelude.{◌≡◌, ◌++◌, ◌∷◌, [], ℕ, IfOk, OnOk};
ghost use Rattle.fx_base.specs.Names.{numbers};
ghost use Rattle.fx_store_pairs.specs.Pairs.{is_among as stands_among};
ghost use Rattle.fx_store_pairs.specs.Gathering.{HasJust, KnowsItsNames, with_name, with_names};

use crate::searching::is_among;
use fx_base::Name;
use std::alloc::{AllocError, Global};
use std::collections::HashSet;

/// So many names are looked through faster than a set is made.
const FEW: usize = 32;

/// Names in the order in which they are found, each once. Where they are more than a few, a set knows them too.
#[derive(Drop)]
pub struct Members {
    pub names: Vec<Name>,
    known: Option<HashSet<u32>>,
}

impl Members {
    /// The one name alone.
    pub fn new(alloc: Global, name: Name) -> Result<Members, AllocError>
        ensures names { IfOk result (λ members. numbers members.names.items ≡ name.0 ∷ []) }
        ensures known { IfOk result KnowsItsNames }
    {
        Ok(Members {
            names: vec![in alloc; name]?,
            known: None,
        })
    }

    fn has(&self, name: Name) -> bool
        requires { KnowsItsNames self.now }
        ensures { result ≡ stands_among (numbers self.now.names.items) name.0 }
    {
        match &self.known {
            Some(known) => known.contains(&name.0),
            None => is_among(self.names.as_slice(), name),
        }
    }

    fn push(&mut self, alloc: Global, name: Name) -> Result<(), AllocError>
        requires { KnowsItsNames self.old }
        ensures names { OnOk result (numbers self.new.names.items ≡ numbers self.old.names.items ++ name.0 ∷ []) }
        ensures known { OnOk result (KnowsItsNames self.new) }
    {
        self.names.push(name)?;
        if let Some(known) = &mut self.known {
            known.insert(name.0)?;
            return Ok(());
        }
        if self.names.len() > FEW {
            self.known = Some(set_of(alloc, self.names.as_slice())?);
        }
        Ok(())
    }

    /// Adds the name where it is missing.
    fn add(&mut self, alloc: Global, name: Name) -> Result<(), AllocError>
        requires { KnowsItsNames self.old }
        ensures names { OnOk result (numbers self.new.names.items
            ≡ with_name name.0 (numbers self.old.names.items)) }
        ensures known { OnOk result (KnowsItsNames self.new) }
    {
        if self.has(name) {
            return Ok(());
        }
        self.push(alloc, name)
    }

    /// Adds those of the names that are missing.
    pub fn add_all(&mut self, alloc: Global, names: &[Name]) -> Result<(), AllocError>
        requires { KnowsItsNames self.old }
        ensures names { OnOk result (numbers self.new.names.items
            ≡ with_names (numbers names.now) (numbers self.old.names.items)) }
        ensures known { OnOk result (KnowsItsNames self.new) }
    {
        for name in names {
            self.add(alloc, *name)?;
        }
        Ok(())
    }
}

fn set_of(alloc: Global, names: &[Name]) -> Result<HashSet<u32>, AllocError>
    ensures { IfOk result (λ set. HasJust set (numbers names.now)) }
{
    let mut set = HashSet::new(alloc);
    for name in names {
        set.insert(name.0)?;
    }
    Ok(set)
}
