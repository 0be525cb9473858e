//! What names of a document stand for.
ghost use Rattle.std.specs.Prelude.{◌≡◌, IfOk};

use fx_base::{Text, Track, Value};
use fx_kinds::Class;
use std::alloc::{AllocError, Global};

/// The node of an ordinal, and its class.
#[derive(Clone, Copy, Debug, PartialEq, Eq)]
pub struct Named {
    pub node: usize,
    pub class: Class,
    /// The number of the file whose names stand behind this one, where the node is the root of an included document.
    pub inside: Option<u32>,
}

/// What a name of a document stands for.
#[derive(Drop)]
pub enum Thing {
    /// A node.
    Node(Named),
    /// A value, and whether it stands right in a definition.
    Value(Value, bool),
    /// The constraint of a column.
    Column(Track),
    /// The constraint of a row.
    Row(Track),
    /// The name of a file.
    Location(Text),
    /// Something that isn't whole yet.
    Open,
}

impl Thing {
    /// The same thing.
    pub(crate) fn copy(&self, alloc: Global) -> Result<Thing, AllocError>
        ensures { IfOk result (λ copy. copy ≡ self.now) }
    {
        match self {
            Thing::Node(named) => Ok(Thing::Node(*named)),
            Thing::Value(value, defined) => Ok(Thing::Value(value.copy(alloc)?, *defined)),
            Thing::Column(track) => Ok(Thing::Column(*track)),
            Thing::Row(track) => Ok(Thing::Row(*track)),
            Thing::Location(name) => Ok(Thing::Location(name.copy(alloc)?)),
            Thing::Open => Ok(Thing::Open),
        }
    }
}
