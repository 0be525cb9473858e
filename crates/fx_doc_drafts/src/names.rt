//! The names of a tag's attributes, to be found again in few steps however many there are.
//! A tag with few attributes is looked through; this is for the others.
ghost use Rattle.std.specs.Prelude.{◌≡◌, ◌∷◌, ◌++◌, [], List, ℕ, OnOk};
ghost use Rattle.std.specs.String.{string_bytes};
ghost use Rattle.fx_doc_grammar.specs.Grammar.{is_among};
ghost use Rattle.fx_doc_drafts.specs.Names.{HasNames};

use crate::drafts::Word;
use std::alloc::{AllocError, Global};
use std::collections::BTreeSet;

/// A set of names.
#[derive(Drop)]
pub struct Names {
    names: BTreeSet<String>,
}

impl Names {
    pub fn new(alloc: Global) -> Names
        ensures { HasNames result [] }
    {
        Names {
            names: BTreeSet::new(alloc),
        }
    }

    /// Is the name among these?
    pub fn has(&self, name: &Word) -> bool
        ensures { (names : List (List ℕ)) → HasNames self.now names
            → result ≡ is_among (string_bytes name.now.text) names }
    {
        self.names.contains(&name.text)
    }

    /// Adds a name.
    pub fn add(&mut self, alloc: Global, name: &str) -> Result<(), AllocError>
        ensures { OnOk result ((names : List (List ℕ)) → HasNames self.old names
            → HasNames self.new (names ++ name.now ∷ [])) }
    {
        let name = String::from_str(alloc, name)?;
        self.names.insert(name)?;
        Ok(())
    }
}
