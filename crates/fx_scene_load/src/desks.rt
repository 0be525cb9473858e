//! What is known in a document so far.
ghost use Rattle.std.specs.Prelude.{◌≡◌, [], IfOk, List};
ghost use Rattle.fx_scene_load.specs.Reading as spec;
ghost use Rattle.fx_scene_load.specs.Views.{desk_view};
ghost use Rattle.fx_scene_outline.specs.Pieces.{Piece as PlainPiece};
ghost use Rattle.fx_scene_things.specs.Known.{known};

use fx_scene_elements::Lane;
use fx_scene_things::Names;
use std::alloc::{AllocError, Global};

/// The names of a document, the constraints of its grids, and for each of its pieces the ordinal of the next node in
/// front of it.
#[derive(Drop)]
pub struct Desk {
    pub names: Names,
    pub lanes: Vec<Lane>,
    pub nodes: Vec<usize>,
}

/// Nothing is known.
pub(crate) fn empty_desk(alloc: Global) -> Desk
    ensures { desk_view [] result ≡ spec.empty_desk }
{
    Desk {
        names: Names::new(alloc),
        lanes: Vec::new(alloc),
        nodes: Vec::new(alloc),
    }
}

/// These names are known.
pub(crate) fn desk_with(alloc: Global, names: Names) -> Desk
    ensures { desk_view [] result ≡ spec.desk_with (known names) }
{
    Desk {
        names,
        lanes: Vec::new(alloc),
        nodes: Vec::new(alloc),
    }
}

/// The same is known.
pub(crate) fn copy_desk(alloc: Global, desk: &Desk) -> Result<Desk, AllocError>
    ensures { IfOk result (λ copy. (before : List PlainPiece) → desk_view before copy ≡ desk_view before desk.now) }
{
    let names = desk.names.copy(alloc)?;
    let mut lanes = Vec::new(alloc);
    lanes.extend_from_slice(desk.lanes.as_slice())?;
    let mut nodes = Vec::new(alloc);
    nodes.extend_from_slice(desk.nodes.as_slice())?;
    Ok(Desk {
        names,
        lanes,
        nodes,
    })
}
