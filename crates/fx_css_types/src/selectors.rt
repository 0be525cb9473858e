//! Selectors (Selectors Level 3), as a rule has them.
//! Readers make them, matching reads them.
ghost use Rattle.std.specs.Prelude.{◌≡◌, IfOk};

use crate::names::NameList;
use fx_base::{Duplicate, List, Text};
use std::alloc::{AllocError, Global};

/// How a compound stands to the one before it.
#[derive(Clone, Copy, PartialEq, Eq, Debug)]
pub enum Combinator {
    /// White: somewhere below it.
    Descendant,
    /// `>`: a child of it.
    Child,
}

/// What is written without a combinator in it: a type, classes, ids and pseudo-classes, all of which a node has to
/// have. The first compound of a selector and no other has no combinator. `*` and no type are both `kind` None.
#[derive(Drop)]
pub struct Compound {
    pub combinator: Option<Combinator>,
    pub kind: Option<Text>,
    pub classes: NameList,
    pub ids: NameList,
    pub pseudos: NameList,
}

/// Compounds from the outermost ancestor to the node itself.
#[derive(Drop)]
pub struct Selector {
    pub compounds: List<Compound>,
}

impl Compound {
    /// A compound of the same contents.
    pub fn copy(&self, alloc: Global) -> Result<Compound, AllocError>
        ensures { IfOk result (λ copy. copy ≡ self.now) }
    {
        Ok(Compound {
            combinator: self.combinator,
            kind: copied_kind(alloc, &self.kind)?,
            classes: self.classes.copy(alloc)?,
            ids: self.ids.copy(alloc)?,
            pseudos: self.pseudos.copy(alloc)?,
        })
    }
}

impl Duplicate for Compound {
    fn duplicate(&self, alloc: Global) -> Result<Self, AllocError> {
        self.copy(alloc)
    }
}

impl Selector {
    /// A selector of the same contents.
    pub fn copy(&self, alloc: Global) -> Result<Selector, AllocError>
        ensures { IfOk result (λ copy. copy ≡ self.now) }
    {
        Ok(Selector {
            compounds: self.compounds.copy(alloc)?,
        })
    }
}

impl Duplicate for Selector {
    fn duplicate(&self, alloc: Global) -> Result<Self, AllocError> {
        self.copy(alloc)
    }
}

fn copied_kind(alloc: Global, kind: &Option<Text>) -> Result<Option<Text>, AllocError>
    ensures { IfOk result (λ copy. copy ≡ kind.now) }
{
    match kind {
        Some(name) => Ok(Some(name.copy(alloc)?)),
        None => Ok(None),
    }
}
