//! The constraints that grids have so far.
ghost use Rattle.std.specs.Prelude.{◌≡◌, ◌++◌, IfOk, OnOk, filter, map};
ghost use Rattle.fx_scene_elements.specs.Tracks as spec;

use fx_base::Track;
use std::alloc::{AllocError, Global};

/// The constraint of a column or a row of the grid at the place `owner`.
#[derive(Clone, Copy, Debug, PartialEq, Eq)]
pub struct Lane {
    pub owner: usize,
    pub is_row: bool,
    pub track: Track,
}

/// The constraints of the columns or the rows of a grid.
pub(crate) fn tracks_of(
    alloc: Global,
    lanes: &[Lane],
    owner: usize,
    is_row: bool,
) -> Result<Vec<Track>, AllocError>
    ensures { IfOk result (λ tracks. tracks.items ≡ spec.tracks_of lanes.now owner is_row) }
{
    lanes
        .iter()
        .filter(|lane| is_lane(owner, is_row, lane))
        .map(|lane| lane.track)
        .collect(alloc)
}

fn is_lane(owner: usize, is_row: bool, lane: &Lane) -> bool
    ensures { result ≡ spec.is_lane owner is_row lane.now }
{
    lane.owner == owner && lane.is_row == is_row
}

/// Adds further constraints of a grid.
pub(crate) fn add_lanes(
    lanes: &mut Vec<Lane>,
    owner: usize,
    is_row: bool,
    tracks: &[Track],
) -> Result<(), AllocError>
    ensures ok { OnOk result (lanes.new.items ≡ lanes.old.items ++ spec.lanes_of owner is_row tracks.now) }
{
    for track in tracks {
        lanes.push(Lane {
            owner,
            is_row,
            track: *track,
        })?;
    }
    Ok(())
}
