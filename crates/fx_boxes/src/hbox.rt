//! HBox (JavaFX `HBox`): its children stand side by side in one row.
ghost use Rattle.std.specs.Prelude.{◌≡◌, ◌+◌, ◌≤◌, IfOk, Ok, length};
ghost use Rattle.fx_boxes.specs.Rows.{hbox_rects, hbox_sizes};
ghost use Rattle.fx_panes_parts.specs.Lengths.{length_of};
ghost use Rattle.fx_panes_parts.specs.Panes.{IsAcrossFirst};

use crate::rows::{beside_extent, row_extent, row_rects};
use fx_base::{ChildSize, Ledgers, PaneFacts, Rect, Sizes, Work};
use fx_panes_parts::{Axis, joined, length_of};
use std::alloc::{AllocError, Global};

/// The sizes of the pane. It takes no memory.
pub fn measure<L: Ledgers>(
    _alloc: Global,
    pane: &PaneFacts,
    children: &[ChildSize],
    work: &mut Work<L>,
) -> Result<Sizes, AllocError>
    requires { length children.now ≤ 4096 }
    ensures sizes { result ≡ Ok (hbox_sizes pane.now children.now) }
    ensures work { work.new ≡ record work.old { laid = work.old.laid + 1 } }
{
    work.laid.tick();
    Ok(joined(
        row_extent(Axis::Across, pane, children),
        beside_extent(Axis::Down, pane, children),
    ))
}

/// The places of its children in this width and height.
pub fn place<L: Ledgers>(
    alloc: Global,
    pane: &PaneFacts,
    children: &[ChildSize],
    w: i64,
    h: i64,
    work: &mut Work<L>,
) -> Result<Vec<Rect>, AllocError>
    requires { length children.now ≤ 4096 }
    ensures rects { IfOk result (λ rects. rects.items ≡ hbox_rects pane.now children.now (length_of w) (length_of h)) }
    ensures each { IfOk result (λ rects. length rects.items ≡ length children.now) }
    ensures work { work.new ≡ record work.old { laid = work.old.laid + 1 } }
{
    work.laid.tick();
    rects(alloc, pane, children, length_of(w), length_of(h))
}

/// What is across depends on nothing vertical.
pub fn across_first()
    ensures { IsAcrossFirst hbox_sizes hbox_rects }
{}

fn rects(
    alloc: Global,
    pane: &PaneFacts,
    children: &[ChildSize],
    w: u64,
    h: u64,
) -> Result<Vec<Rect>, AllocError>
    requires few { length children.now ≤ 4096 }
    requires width { w ≤ 100000 }
    requires height { h ≤ 100000 }
    ensures rects { IfOk result (λ rects. rects.items ≡ hbox_rects pane.now children.now w h) }
    ensures each { IfOk result (λ rects. length rects.items ≡ length children.now) }
{
    row_rects(alloc, Axis::Across, pane, children, w, h)
}
