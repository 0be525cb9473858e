//! A node's box: the rule of its class, and the facts that it is asked with.
ghost use Rattle.std.specs.Prelude.{◌≡◌, ◌≤◌, IfOk};
ghost use Rattle.fx_kinds.specs.declared.facts.BoxFacts.{BoxFacts as Facts};
ghost use Rattle.fx_insets.specs.Insets.{inset_on, on};
ghost use Rattle.fx_panes_parts.specs.Axes.{IsPaneAxis, pane_axis};
ghost use Rattle.fx_panes_parts.specs.Lengths.{length_of, pixels};
ghost use Rattle.fx_layout_parts.specs.Boxes.{box_of, own_sizes, pane_facts};

use crate::rules::{NodeBox, rule_of};
use fx_base::{List, PaneFacts, Sizes, Track};
use fx_insets::{Side, inset_on, insets_of, on};
use fx_kinds::BoxFacts;
use fx_look::Look;
use fx_panes_parts::{Axis, OwnLengths, PaneAxis, length_of, pixels};
use std::alloc::{AllocError, Global};

/// The box of a node. Its text and its tracks are copied.
pub fn box_of(alloc: Global, node: &BoxFacts, look: &Look) -> Result<NodeBox, AllocError>
    ensures { IfOk result (λ made. made ≡ box_of node.now look.now) }
{
    Ok(NodeBox {
        rule: rule_of(node.class),
        facts: pane_facts(alloc, node, look)?,
    })
}

fn pane_facts(alloc: Global, node: &BoxFacts, look: &Look) -> Result<PaneFacts, AllocError>
    ensures { IfOk result (λ facts. facts ≡ pane_facts node.now look.now) }
{
    Ok(PaneFacts {
        own: own_sizes(look),
        insets: insets_of(look),
        alignment: look.alignment,
        spacing: look.spacing,
        hgap: look.hgap,
        vgap: look.vgap,
        fill_width: look.fill_width,
        fill_height: look.fill_height,
        font_size: look.font_size,
        text: node.text.copy(alloc)?,
        wrap: look.wrap_text,
        columns: copied(alloc, &node.columns)?,
        rows: copied(alloc, &node.rows)?,
    })
}

/// A node as a pane along an axis, which its look alone tells.
#[tactic(auto, unfolding(fx_panes_parts::specs::Axes::pane_axis))]
pub fn look_axis(axis: Axis, look: &Look) -> PaneAxis
    ensures value { (node : Facts) → result ≡ pane_axis axis (pane_facts node look.now) }
    ensures bounds { IsPaneAxis result }
{
    match axis {
        Axis::Across => look_across(look),
        Axis::Down => look_down(look),
    }
}

#[tactic(auto, unfolding(fx_panes_parts::specs::Axes::pane_axis))]
fn look_across(look: &Look) -> PaneAxis
    ensures value { (node : Facts) → result ≡ pane_axis Axis.Across (pane_facts node look.now) }
    ensures bounds { IsPaneAxis result }
{
    PaneAxis {
        own: OwnLengths {
            min: look.min_width,
            pref: look.pref_width,
            max: look.max_width,
        },
        before: inset(Side::Left, look),
        after: inset(Side::Right, look),
        alignment: look.alignment % 3,
        spacing: length_of(look.spacing),
        gap: length_of(look.hgap),
        fill: look.fill_width,
    }
}

#[tactic(auto, unfolding(fx_panes_parts::specs::Axes::pane_axis))]
fn look_down(look: &Look) -> PaneAxis
    ensures value { (node : Facts) → result ≡ pane_axis Axis.Down (pane_facts node look.now) }
    ensures bounds { IsPaneAxis result }
{
    PaneAxis {
        own: OwnLengths {
            min: look.min_height,
            pref: look.pref_height,
            max: look.max_height,
        },
        before: inset(Side::Top, look),
        after: inset(Side::Bottom, look),
        alignment: look.alignment / 3,
        spacing: length_of(look.spacing),
        gap: length_of(look.vgap),
        fill: look.fill_height,
    }
}

/// The inset on a side as panes take it. Where there is no border it is the padding.
fn inset(side: Side, look: &Look) -> u64
    ensures value { result ≡ length_of (pixels (inset_on side look.now)) }
    ensures most { result ≤ 100000 }
{
    if look.border_color.as_slice().is_empty() {
        padding(side, look)
    } else {
        length_of(pixels(inset_on(side, look)))
    }
}

fn padding(side: Side, look: &Look) -> u64
    ensures value { result ≡ length_of (on side look.now.padding) }
    ensures most { result ≤ 100000 }
{
    length_of(on(side, look.padding))
}

fn own_sizes(look: &Look) -> Sizes
    ensures { result ≡ own_sizes look.now }
{
    Sizes {
        min_w: look.min_width,
        pref_w: look.pref_width,
        max_w: look.max_width,
        min_h: look.min_height,
        pref_h: look.pref_height,
        max_h: look.max_height,
    }
}

fn copied(alloc: Global, tracks: &List<Track>) -> Result<List<Track>, AllocError>
    ensures { IfOk result (λ copy. copy ≡ tracks.now) }
{
    Ok(List::from_vec(Vec::from_slice(alloc, tracks.as_slice())?))
}
