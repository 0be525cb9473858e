//! StackPane: every child fills the content.
//! It stands on the rules that panes share, below the layout of the whole tree.
ghost use Rattle.std.specs.Prelude.{◌≡◌, ◌+◌, ◌≤◌, IfOk, length};
ghost use Rattle.fx_panes_parts.specs.Axes.{IsChildAxis, IsPaneAxis, along, pane_axis};
ghost use Rattle.fx_panes_parts.specs.Lengths.{length_of};
ghost use Rattle.fx_panes_parts.specs.Panes.{IsAcrossFirst};
ghost use Rattle.fx_panes.specs.Stack.{stack_extent, stack_rects, stack_sizes, stack_span};

use crate::rules::inner;
use fx_base::{ChildSize, Ledgers, PaneFacts, Rect, Sizes, Work};
use fx_panes_parts::{
    Axis, ChildAxis, Extent, PaneAxis, Span, child_axis, content, greatest_min, greatest_pref,
    held, in_area, insets, joined, length_of, pane_axis, pane_extent, rect_of,
};
use std::alloc::{AllocError, Global};

/// The sizes of a StackPane with these children.
pub fn measure<L: Ledgers>(
    _alloc: Global,
    pane: &PaneFacts,
    children: &[ChildSize],
    work: &mut Work<L>,
) -> Result<Sizes, AllocError>
    ensures sizes { result ≡ Ok (stack_sizes pane.now children.now) }
    ensures work { work.new ≡ record work.old { laid = work.old.laid + 1 } }
{
    work.laid.tick();
    Ok(joined(
        extent(Axis::Across, pane, children),
        extent(Axis::Down, pane, children),
    ))
}

/// Where the children of a StackPane of this size stand.
pub fn place<L: Ledgers>(
    alloc: Global,
    pane: &PaneFacts,
    children: &[ChildSize],
    w: i64,
    h: i64,
    work: &mut Work<L>,
) -> Result<Vec<Rect>, AllocError>
    ensures rects { IfOk result (λ rects. rects.items ≡ stack_rects pane.now children.now (length_of w) (length_of h)) }
    ensures each { IfOk result (λ rects. length rects.items ≡ length children.now) }
    ensures work { work.new ≡ record work.old { laid = work.old.laid + 1 } }
{
    work.laid.tick();
    rects(alloc, pane, children, length_of(w), length_of(h))
}

/// What is across depends on nothing vertical.
pub fn across_first()
    ensures { IsAcrossFirst stack_sizes stack_rects }
{}

fn rects(
    alloc: Global,
    pane: &PaneFacts,
    children: &[ChildSize],
    width: u64,
    height: u64,
) -> Result<Vec<Rect>, AllocError>
    requires width { width ≤ 100000 }
    requires height { height ≤ 100000 }
    ensures { IfOk result (λ rects. rects.items ≡ stack_rects pane.now children.now width height) }
{
    let across = pane_axis(Axis::Across, pane);
    let down = pane_axis(Axis::Down, pane);
    let mut rects = Vec::with_capacity(alloc, children.len())?;
    for child in children {
        let x = span(&across, width, &child_axis(Axis::Across, child));
        let y = span(&down, height, &child_axis(Axis::Down, child));
        rects.push(rect_of(x, y))?;
    }
    Ok(rects)
}

#[tactic(auto, unfolding(crate::specs::Stack::stack_extent))]
fn extent(axis: Axis, pane: &PaneFacts, children: &[ChildSize]) -> Extent
    ensures { result ≡ stack_extent (pane_axis axis pane.now) (along axis children.now) }
{
    let facts = pane_axis(axis, pane);
    let insets = insets(&facts);
    pane_extent(
        facts.own,
        insets + greatest_min(axis, children),
        insets + greatest_pref(axis, children),
    )
}

#[tactic(auto, unfolding(crate::specs::Stack::stack_span))]
fn span(pane: &PaneAxis, n: u64, child: &ChildAxis) -> Span
    requires pane { IsPaneAxis pane.now }
    requires child { IsChildAxis child.now }
    requires length { n ≤ 100000 }
    ensures { result ≡ stack_span pane.now n child.now }
{
    let area = content(pane, n);
    let how = child.alignment.unwrap_or(pane.alignment);
    in_area(
        how,
        pane.before,
        area,
        child,
        held(child.extent, inner(child, area)),
    )
}
