//! Nodes that need nothing of their children: regions, and controls whose text stands on one line. Their lengths come
//! of their looks and texts as they stand, with nothing copied.
ghost use Rattle.std.specs.Prelude.{◌≡◌, ℕ, List, [], IfSome, false};
ghost use Rattle.fx_base.specs.declared.facts.ChildSize.{ChildSize as Child};
ghost use Rattle.fx_boxes.specs.Controls.{control_heights, control_widths};
ghost use Rattle.fx_boxes.specs.Regions.{region_extent};
ghost use Rattle.fx_kinds.specs.declared.facts.BoxFacts.{BoxFacts as Facts};
ghost use Rattle.fx_panes_parts.specs.Axes.{pane_axis};
ghost use Rattle.fx_layout_parts.specs.Boxes.{box_of, pane_facts};
ghost use Rattle.fx_layout_parts.specs.Rules.{IsHigh, IsWide, in_pixels};

use crate::boxes::look_axis;
use crate::rules::{Rule, rule_of};
use fx_boxes::{control, region};
use fx_kinds::BoxFacts;
use fx_look::Look;
use fx_panes_parts::{Axis, Extent, length_of, pixels};

/// The widths of a node that needs nothing of its children, if it is such a node.
pub fn leaf_widths(node: &BoxFacts, look: &Look) -> Option<Extent>
    ensures { IfSome result (λ widths. (children : List Child) → IsWide (box_of node.now look.now) children widths) }
{
    match rule_of(node.class) {
        Rule::Region => Some(region_widths(look)),
        Rule::Control => label_widths(node, look),
        _ => None,
    }
}

/// The heights of a node that needs nothing of its children, if it is such a node. They are the same in each width.
pub fn leaf_heights(node: &BoxFacts, look: &Look) -> Option<Extent>
    ensures { IfSome result (λ heights. (children : List Child) (w : ℕ)
        → IsHigh (box_of node.now look.now) children w heights) }
{
    match rule_of(node.class) {
        Rule::Region => Some(region_heights(look)),
        Rule::Control => label_heights(look),
        _ => None,
    }
}

fn region_widths(look: &Look) -> Extent
    ensures { (node : Facts)
        → result ≡ in_pixels (region_extent (pane_axis Axis.Across (pane_facts node look.now)) []) }
{
    in_pixels(region::extent_along(&look_axis(Axis::Across, look)))
}

fn region_heights(look: &Look) -> Extent
    ensures { (node : Facts)
        → result ≡ in_pixels (region_extent (pane_axis Axis.Down (pane_facts node look.now)) []) }
{
    in_pixels(region::extent_along(&look_axis(Axis::Down, look)))
}

/// The widths of a control, unless its text wraps.
fn label_widths(node: &BoxFacts, look: &Look) -> Option<Extent>
    ensures { IfSome result (λ widths. (look.now.wrap_text ≡ false)
        × (widths ≡ in_pixels (control_widths (pane_facts node.now look.now)))) }
{
    if look.wrap_text {
        return None;
    }
    let axis = look_axis(Axis::Across, look);
    let widths = control::text_widths(&axis, look.font_size, node.text.as_str());
    Some(in_pixels(widths))
}

/// The heights of a control, unless its text wraps.
fn label_heights(look: &Look) -> Option<Extent>
    ensures { IfSome result (λ heights. (look.now.wrap_text ≡ false)
        × ((node : Facts) → heights ≡ in_pixels (control_heights (pane_facts node look.now) 1))) }
{
    if look.wrap_text {
        return None;
    }
    let axis = look_axis(Axis::Down, look);
    Some(in_pixels(control::line_heights(&axis, look.font_size, 1)))
}

/// Lengths as they are where they are told in pixels.
pub fn in_pixels(extent: Extent) -> Extent
    ensures { result ≡ in_pixels extent }
{
    Extent {
        min: length_of(pixels(extent.min)),
        pref: length_of(pixels(extent.pref)),
        max: length_of(pixels(extent.max)),
    }
}
