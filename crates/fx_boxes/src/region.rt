//! Region (JavaFX `Region`): it has no children, and its computed sizes are its insets.
ghost use Rattle.std.specs.Prelude.{◌≡◌, ◌+◌, [], IfOk, Ok, length};
ghost use Rattle.fx_boxes.specs.Regions.{region_extent, region_sizes};
ghost use Rattle.fx_panes_parts.specs.Axes.{IsPaneAxis, pane_axis};

use fx_base::{ChildSize, Ledgers, PaneFacts, Rect, Sizes, Work};
use fx_panes_parts::{Axis, Extent, PaneAxis, insets, joined, pane_axis, pane_extent};
use std::alloc::{AllocError, Global};

/// The sizes of a region. It takes no memory.
pub fn measure<L: Ledgers>(
    _alloc: Global,
    pane: &PaneFacts,
    _children: &[ChildSize],
    work: &mut Work<L>,
) -> Result<Sizes, AllocError>
    ensures sizes { result ≡ Ok (region_sizes pane.now) }
    ensures work { work.new ≡ record work.old { laid = work.old.laid + 1 } }
{
    work.laid.tick();
    Ok(joined(extent(Axis::Across, pane), extent(Axis::Down, pane)))
}

/// A region has no children to place.
pub fn place<L: Ledgers>(
    alloc: Global,
    _pane: &PaneFacts,
    _children: &[ChildSize],
    _w: i64,
    _h: i64,
    work: &mut Work<L>,
) -> Result<Vec<Rect>, AllocError>
    ensures rects { IfOk result (λ rects. rects.items ≡ []) }
    ensures work { work.new ≡ record work.old { laid = work.old.laid + 1 } }
{
    work.laid.tick();
    Ok(Vec::new(alloc))
}

/// The lengths of a region along one axis.
#[tactic(auto, unfolding(crate::specs::Regions::region_extent))]
pub fn extent_along(region: &PaneAxis) -> Extent
    requires { IsPaneAxis region.now }
    ensures { result ≡ region_extent region.now [] }
{
    let around = insets(region);
    pane_extent(region.own, around, around)
}

fn extent(axis: Axis, pane: &PaneFacts) -> Extent
    ensures { result ≡ region_extent (pane_axis axis pane.now) [] }
{
    extent_along(&pane_axis(axis, pane))
}
