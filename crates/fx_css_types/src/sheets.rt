//! Rules, sheets, and where a sheet stands in the cascade.
//! Readers make sheets, a scene lists them with their origins, and matching names rules by their places.
ghost use Rattle.std.specs.Prelude.{◌≡◌, IfOk};

use crate::declarations::Declaration;
use crate::selectors::Selector;
use fx_base::{Duplicate, List, Place};
use std::alloc::{AllocError, Global};

/// A rule: its declarations hold for the nodes that one of its selectors matches.
#[derive(Drop)]
pub struct Rule {
    pub selectors: List<Selector>,
    pub declarations: List<Declaration>,
}

/// The rules of a sheet in their order, and the places of what was dropped while it was read.
#[derive(Drop)]
pub struct Sheet {
    pub rules: List<Rule>,
    pub warnings: List<Place>,
}

/// Who gave a sheet (JavaFX CSS Reference Guide, "Understanding Parsing" and "Inheritance"): the user agent, the scene,
/// a parent by the depth of the node that lists it, or the node itself by its `style`.
#[derive(Clone, Copy, PartialEq, Eq, Debug)]
pub enum SheetOrigin {
    Agent,
    Scene,
    Parent(u32),
    Inline,
}

/// A sheet with its origin.
#[derive(Drop)]
pub struct SheetAt {
    pub sheet: Sheet,
    pub origin: SheetOrigin,
}

/// A rule that matches a node, by the place of its sheet and its own place there, with the greatest specificity of the
/// selectors by which it matches: ids; classes and pseudo-classes; types (Selectors Level 3, "Calculating a selector's
/// specificity").
#[derive(Clone, Copy, PartialEq, Eq, Debug)]
pub struct Candidate {
    pub sheet: usize,
    pub rule: usize,
    pub specificity: (u32, u32, u32),
    pub origin: SheetOrigin,
}

impl Rule {
    /// A rule of the same contents.
    pub fn copy(&self, alloc: Global) -> Result<Rule, AllocError>
        ensures { IfOk result (λ copy. copy ≡ self.now) }
    {
        Ok(Rule {
            selectors: self.selectors.copy(alloc)?,
            declarations: self.declarations.copy(alloc)?,
        })
    }
}

impl Duplicate for Rule {
    fn duplicate(&self, alloc: Global) -> Result<Self, AllocError> {
        self.copy(alloc)
    }
}

impl Sheet {
    /// A sheet of the same contents.
    pub fn copy(&self, alloc: Global) -> Result<Sheet, AllocError>
        ensures { IfOk result (λ copy. copy ≡ self.now) }
    {
        Ok(Sheet {
            rules: self.rules.copy(alloc)?,
            warnings: copied_places(alloc, &self.warnings)?,
        })
    }
}

impl Duplicate for Sheet {
    fn duplicate(&self, alloc: Global) -> Result<Self, AllocError> {
        self.copy(alloc)
    }
}

impl SheetAt {
    /// A sheet of the same contents and origin.
    pub fn copy(&self, alloc: Global) -> Result<SheetAt, AllocError>
        ensures { IfOk result (λ copy. copy ≡ self.now) }
    {
        Ok(SheetAt {
            sheet: self.sheet.copy(alloc)?,
            origin: self.origin,
        })
    }
}

impl Duplicate for SheetAt {
    fn duplicate(&self, alloc: Global) -> Result<Self, AllocError> {
        self.copy(alloc)
    }
}

fn copied_places(alloc: Global, places: &List<Place>) -> Result<List<Place>, AllocError>
    ensures { IfOk result (λ copy. copy ≡ places.now) }
{
    Ok(List::from_vec(Vec::from_slice(alloc, places.as_slice())?))
}
