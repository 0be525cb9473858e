//! The picture: an entry for each node that shows.
ghost use Rattle.std.specs.Prelude.{◌≡◌, [], IfOk};

use crate::shapes::Shape;
use fx_base::{Duplicate, List, NodeKey, Rect};
use std::alloc::{AllocError, Global};

/// A node that shows: its key, the places among the children from the root down to it, its rectangle in the window,
/// what is painted of it, whether it is disabled, and whether it can take the focus.
#[derive(Drop)]
pub struct Entry {
    pub key: NodeKey,
    pub path: List<u32>,
    pub rect: Rect,
    pub shapes: List<Shape>,
    pub disabled: bool,
    pub focusable: bool,
}

/// The nodes that show, in pre-order: each is visible, and so are its ancestors.
#[derive(Drop)]
pub struct Picture {
    pub entries: List<Entry>,
}

impl Entry {
    /// An entry of the same contents.
    pub fn copy(&self, alloc: Global) -> Result<Entry, AllocError>
        ensures { IfOk result (λ copy. copy ≡ self.now) }
    {
        Ok(Entry {
            key: self.key,
            path: List::from_vec(Vec::from_slice(alloc, self.path.as_slice())?),
            rect: self.rect,
            shapes: self.shapes.copy(alloc)?,
            disabled: self.disabled,
            focusable: self.focusable,
        })
    }
}

impl Duplicate for Entry {
    fn duplicate(&self, alloc: Global) -> Result<Self, AllocError> {
        self.copy(alloc)
    }
}

impl Picture {
    /// The picture in which nothing shows.
    pub fn new(alloc: Global) -> Picture
        ensures { result.entries ≡ [] }
    {
        Picture {
            entries: List::new(alloc),
        }
    }

    /// A picture of the same contents.
    pub fn copy(&self, alloc: Global) -> Result<Picture, AllocError>
        ensures { IfOk result (λ copy. copy ≡ self.now) }
    {
        Ok(Picture {
            entries: self.entries.copy(alloc)?,
        })
    }
}
