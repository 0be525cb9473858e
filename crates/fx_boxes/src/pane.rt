//! Pane (JavaFX `Pane`): its children stand where they ask to be, in their preferred sizes.
ghost use Rattle.std.specs.Prelude.{◌≡◌, ◌+◌, ◌^◌, ◌<◌, IfOk, Ok, length, map};
ghost use Rattle.fx_boxes.specs.Panes.{farthest_end, free_extent, free_rect, free_span, pane_rects, pane_sizes};
ghost use Rattle.fx_panes_parts.specs.Axes.{IsChildAxis, along, pane_axis};
ghost use Rattle.fx_panes_parts.specs.Lengths.{end_of, length_of};
ghost use Rattle.fx_panes_parts.specs.Panes.{IsAcrossFirst};

use fx_base::{ChildSize, Ledgers, PaneFacts, Rect, Sizes, Work};
use fx_panes_parts::{
    Axis, ChildAxis, Extent, Span, child_axis, end_of, insets, joined, pane_axis, pane_extent,
    place_of, rect_of,
};
use std::alloc::{AllocError, Global};

/// The sizes of a pane. It takes no memory.
pub fn measure<L: Ledgers>(
    _alloc: Global,
    pane: &PaneFacts,
    children: &[ChildSize],
    work: &mut Work<L>,
) -> Result<Sizes, AllocError>
    ensures sizes { result ≡ Ok (pane_sizes pane.now children.now) }
    ensures work { work.new ≡ record work.old { laid = work.old.laid + 1 } }
{
    work.laid.tick();
    Ok(joined(
        extent(Axis::Across, pane, children),
        extent(Axis::Down, pane, children),
    ))
}

/// The places of its children, which don't depend on its size.
pub fn place<L: Ledgers>(
    alloc: Global,
    pane: &PaneFacts,
    children: &[ChildSize],
    w: i64,
    h: i64,
    work: &mut Work<L>,
) -> Result<Vec<Rect>, AllocError>
    ensures rects { IfOk result (λ rects. rects.items ≡ pane_rects pane.now children.now (length_of w) (length_of h)) }
    ensures each { IfOk result (λ rects. length rects.items ≡ length children.now) }
    ensures work { work.new ≡ record work.old { laid = work.old.laid + 1 } }
{
    work.laid.tick();
    rects(alloc, children)
}

/// What is across depends on nothing vertical.
pub fn across_first()
    ensures { IsAcrossFirst pane_sizes pane_rects }
{}

#[tactic(auto, unfolding(crate::specs::Panes::free_extent))]
fn extent(axis: Axis, pane: &PaneFacts, children: &[ChildSize]) -> Extent
    ensures { result ≡ free_extent (pane_axis axis pane.now) (along axis children.now) }
{
    let facts = pane_axis(axis, pane);
    let around = insets(&facts);
    pane_extent(
        facts.own,
        around,
        (farthest_end(axis, children) + facts.after).max(around),
    )
}

fn farthest_end(axis: Axis, children: &[ChildSize]) -> u64
    ensures value { result ≡ farthest_end (along axis children.now) }
    ensures most { result < 2 ^ 63 + 2 ^ 17 }
{
    let mut most = 0;
    for child in children {
        most = end(&child_axis(axis, child)).max(most);
    }
    most
}

/// Where a child ends, or 0 where that is before the pane.
fn end(child: &ChildAxis) -> u64
    requires { IsChildAxis child.now }
    ensures value { result ≡ end_of child.now.layout child.now.extent.pref }
    ensures most { result < 2 ^ 63 + 2 ^ 17 }
{
    end_of(child.layout, child.extent.pref)
}

#[tactic(auto, unfolding(crate::specs::Panes::free_span))]
fn free_span(child: &ChildAxis) -> Span
    ensures { result ≡ free_span child.now }
{
    Span {
        start: place_of(child.layout),
        length: child.extent.pref,
    }
}

fn rects(alloc: Global, children: &[ChildSize]) -> Result<Vec<Rect>, AllocError>
    ensures { IfOk result (λ rects. rects.items ≡ map free_rect children.now) }
{
    children.iter().map(|child| free_rect(child)).collect(alloc)
}

fn free_rect(child: &ChildSize) -> Rect
    ensures { result ≡ free_rect child.now }
{
    rect_of(
        free_span(&child_axis(Axis::Across, child)),
        free_span(&child_axis(Axis::Down, child)),
    )
}
