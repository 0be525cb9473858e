//! Declarations and their values (JavaFX CSS Reference Guide), and the winners that the cascade finds among them.
//! Readers make declarations; the cascade and the look-up of colours read them.
ghost use Rattle.std.specs.Prelude.{◌≡◌, IfOk};

use fx_base::{Color, Duplicate, List, Sides, Text, Value};
use fx_look::StyleName;
use std::alloc::{AllocError, Global};

/// A colour, or a name that is looked up among the declarations of the node and its ancestors.
#[derive(Drop)]
pub enum Paint {
    Color(Color),
    Named(Text),
}

/// The value of a declaration, as it is read: one value, one paint, paints or sides one a layer, or `inherit`.
#[derive(Drop)]
pub enum Declared {
    Plain(Value),
    Paint(Paint),
    Paints(List<Paint>),
    SidesList(List<Sides>),
    Inherit,
}

/// A name with its value, as in `-fx-spacing: 4`, and the row of the style table that the name has there, if it is a
/// style declaration's.
#[derive(Drop)]
pub struct Declaration {
    pub name: Text,
    pub row: Option<StyleName>,
    pub value: Declared,
}

/// Where a winning value comes from: code that set or bound the property, or a declaration.
#[derive(Drop)]
pub enum FoundValue {
    Code(Value),
    Declared(Declared),
}

/// The winner of a declaration's name on a node.
#[derive(Drop)]
pub struct Found {
    pub name: Text,
    pub value: FoundValue,
}

impl Paint {
    /// A paint of the same contents.
    pub fn copy(&self, alloc: Global) -> Result<Paint, AllocError>
        ensures { IfOk result (λ copy. copy ≡ self.now) }
    {
        match self {
            Paint::Color(color) => Ok(Paint::Color(*color)),
            Paint::Named(name) => Ok(Paint::Named(name.copy(alloc)?)),
        }
    }
}

impl Duplicate for Paint {
    fn duplicate(&self, alloc: Global) -> Result<Self, AllocError> {
        self.copy(alloc)
    }
}

impl Declared {
    /// A value of the same contents.
    pub fn copy(&self, alloc: Global) -> Result<Declared, AllocError>
        ensures { IfOk result (λ copy. copy ≡ self.now) }
    {
        match self {
            Declared::Plain(value) => Ok(Declared::Plain(value.copy(alloc)?)),
            Declared::Paint(paint) => Ok(Declared::Paint(paint.copy(alloc)?)),
            Declared::Paints(paints) => Ok(Declared::Paints(paints.copy(alloc)?)),
            Declared::SidesList(layers) => Ok(Declared::SidesList(copied_sides(alloc, layers)?)),
            Declared::Inherit => Ok(Declared::Inherit),
        }
    }
}

impl Duplicate for Declared {
    fn duplicate(&self, alloc: Global) -> Result<Self, AllocError> {
        self.copy(alloc)
    }
}

impl Declaration {
    /// A declaration of the same contents.
    pub fn copy(&self, alloc: Global) -> Result<Declaration, AllocError>
        ensures { IfOk result (λ copy. copy ≡ self.now) }
    {
        Ok(Declaration {
            name: self.name.copy(alloc)?,
            row: self.row,
            value: self.value.copy(alloc)?,
        })
    }
}

impl Duplicate for Declaration {
    fn duplicate(&self, alloc: Global) -> Result<Self, AllocError> {
        self.copy(alloc)
    }
}

impl FoundValue {
    /// A value of the same contents.
    pub fn copy(&self, alloc: Global) -> Result<FoundValue, AllocError>
        ensures { IfOk result (λ copy. copy ≡ self.now) }
    {
        match self {
            FoundValue::Code(value) => Ok(FoundValue::Code(value.copy(alloc)?)),
            FoundValue::Declared(value) => Ok(FoundValue::Declared(value.copy(alloc)?)),
        }
    }
}

impl Duplicate for FoundValue {
    fn duplicate(&self, alloc: Global) -> Result<Self, AllocError> {
        self.copy(alloc)
    }
}

impl Found {
    /// A winner of the same contents.
    pub fn copy(&self, alloc: Global) -> Result<Found, AllocError>
        ensures { IfOk result (λ copy. copy ≡ self.now) }
    {
        Ok(Found {
            name: self.name.copy(alloc)?,
            value: self.value.copy(alloc)?,
        })
    }
}

impl Duplicate for Found {
    fn duplicate(&self, alloc: Global) -> Result<Self, AllocError> {
        self.copy(alloc)
    }
}

fn copied_sides(alloc: Global, layers: &List<Sides>) -> Result<List<Sides>, AllocError>
    ensures { IfOk result (λ copy. copy ≡ layers.now) }
{
    Ok(List::from_vec(Vec::from_slice(alloc, layers.as_slice())?))
}
