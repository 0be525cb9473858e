//! A child as its pane sees it.
ghost use Rattle.std.specs.Prelude.{◌≡◌};
ghost use Rattle.fx_panes_parts.specs.declared.axes.Extent.{Extent as Lengths};
ghost use Rattle.fx_panes_parts.specs.Axes.{child_axis};
ghost use Rattle.fx_layout_parts.specs.Children.{anchor_child, border_child, child_of, grid_child, hbox_child, plain_child, stack_child, vbox_child, with_constraints};

use crate::constraints::{NO_SIDES, choice_of, index_of, number_of, sides_of, span_of, truth_of};
use crate::leaves::in_pixels;
use crate::rules::Rule;
use fx_base::ChildSize;
use fx_kinds::{BoxFacts, Constraint};
use fx_panes_parts::{Axis, ChildAxis, Extent, child_axis, joined};

/// A child of these lengths, in pixels, in a pane of this rule. Constraints that are another pane's say nothing.
#[tactic(auto, unfolding(crate::specs::Children::child_of))]
pub fn child_of(pane: Rule, node: &BoxFacts, across: Extent, down: Extent) -> ChildSize
    ensures value { result ≡ child_of pane node.now across down }
{
    let said = node.constraints.as_slice();
    if said.is_empty() {
        return plain_child(node, across, down);
    }
    with_constraints(pane, said, plain_child(node, across, down))
}

/// The same child along one axis alone.
pub fn child_along(
    axis: Axis,
    pane: Rule,
    node: &BoxFacts,
    across: Extent,
    down: Extent,
) -> ChildAxis
    ensures { result ≡ child_axis axis (child_of pane node.now across down) }
{
    let said = node.constraints.as_slice();
    if said.is_empty() {
        return plain_along(axis, node, across, down);
    }
    child_axis(axis, &child_of(pane, node, across, down))
}

/// A child of which nothing is said, along one axis alone.
fn plain_along(axis: Axis, node: &BoxFacts, across: Extent, down: Extent) -> ChildAxis
    ensures { result ≡ child_axis axis (plain_child node.now across down) }
{
    match axis {
        Axis::Across => plain_across(node, across),
        Axis::Down => plain_down(node, down),
    }
}

#[tactic(auto, unfolding(fx_panes_parts::specs::Axes::child_axis))]
fn plain_across(node: &BoxFacts, across: Extent) -> ChildAxis
    ensures { (down : Lengths) → result ≡ child_axis Axis.Across (plain_child node.now across down) }
{
    ChildAxis {
        extent: in_pixels(across),
        before: 0,
        after: 0,
        grow: None,
        alignment: None,
        align: None,
        low: None,
        high: None,
        index: 0,
        span: 1,
        fill: true,
        edge: node.edge,
        layout: node.layout_x,
    }
}

#[tactic(auto, unfolding(fx_panes_parts::specs::Axes::child_axis))]
fn plain_down(node: &BoxFacts, down: Extent) -> ChildAxis
    ensures { (across : Lengths) → result ≡ child_axis Axis.Down (plain_child node.now across down) }
{
    ChildAxis {
        extent: in_pixels(down),
        before: 0,
        after: 0,
        grow: None,
        alignment: None,
        align: None,
        low: None,
        high: None,
        index: 0,
        span: 1,
        fill: true,
        edge: node.edge,
        layout: node.layout_y,
    }
}

fn with_constraints(pane: Rule, said: &[Constraint], child: ChildSize) -> ChildSize
    ensures { result ≡ with_constraints pane said.now child }
{
    match pane {
        Rule::Region => child,
        Rule::Control => child,
        Rule::Free => child,
        Rule::HBox => hbox_child(said, child),
        Rule::VBox => vbox_child(said, child),
        Rule::Border => border_child(said, child),
        Rule::Stack => stack_child(said, child),
        Rule::Anchor => anchor_child(said, child),
        Rule::Grid => grid_child(said, child),
    }
}

fn plain_child(node: &BoxFacts, across: Extent, down: Extent) -> ChildSize
    ensures { result ≡ plain_child node.now across down }
{
    ChildSize {
        sizes: joined(across, down),
        margin: NO_SIDES,
        hgrow: None,
        vgrow: None,
        alignment: None,
        halign: None,
        valign: None,
        top: None,
        right: None,
        bottom: None,
        left: None,
        column: 0,
        row: 0,
        column_span: 1,
        row_span: 1,
        fill_width: true,
        fill_height: true,
        edge: node.edge,
        layout_x: node.layout_x,
        layout_y: node.layout_y,
    }
}

fn hbox_child(said: &[Constraint], child: ChildSize) -> ChildSize
    ensures { result ≡ hbox_child said.now child }
{
    ChildSize {
        margin: sides_of(said, "HBox.margin"),
        hgrow: choice_of(said, "HBox.hgrow"),
        ..child
    }
}

fn vbox_child(said: &[Constraint], child: ChildSize) -> ChildSize
    ensures { result ≡ vbox_child said.now child }
{
    ChildSize {
        margin: sides_of(said, "VBox.margin"),
        vgrow: choice_of(said, "VBox.vgrow"),
        ..child
    }
}

fn border_child(said: &[Constraint], child: ChildSize) -> ChildSize
    ensures { result ≡ border_child said.now child }
{
    ChildSize {
        margin: sides_of(said, "BorderPane.margin"),
        alignment: choice_of(said, "BorderPane.alignment"),
        ..child
    }
}

fn stack_child(said: &[Constraint], child: ChildSize) -> ChildSize
    ensures { result ≡ stack_child said.now child }
{
    ChildSize {
        margin: sides_of(said, "StackPane.margin"),
        alignment: choice_of(said, "StackPane.alignment"),
        ..child
    }
}

fn anchor_child(said: &[Constraint], child: ChildSize) -> ChildSize
    ensures { result ≡ anchor_child said.now child }
{
    ChildSize {
        top: number_of(said, "AnchorPane.topAnchor"),
        right: number_of(said, "AnchorPane.rightAnchor"),
        bottom: number_of(said, "AnchorPane.bottomAnchor"),
        left: number_of(said, "AnchorPane.leftAnchor"),
        ..child
    }
}

fn grid_child(said: &[Constraint], child: ChildSize) -> ChildSize
    ensures { result ≡ grid_child said.now child }
{
    ChildSize {
        margin: sides_of(said, "GridPane.margin"),
        hgrow: choice_of(said, "GridPane.hgrow"),
        vgrow: choice_of(said, "GridPane.vgrow"),
        halign: choice_of(said, "GridPane.halignment"),
        valign: choice_of(said, "GridPane.valignment"),
        column: index_of(said, "GridPane.columnIndex"),
        row: index_of(said, "GridPane.rowIndex"),
        column_span: span_of(said, "GridPane.columnSpan"),
        row_span: span_of(said, "GridPane.rowSpan"),
        fill_width: truth_of(said, "GridPane.fillWidth"),
        fill_height: truth_of(said, "GridPane.fillHeight"),
        ..child
    }
}
