//! The rules of the classes: what is asked of a node, by its class.
ghost use Rattle.std.specs.Prelude.{◌≡◌, ℕ, ◌+◌, ◌≤◌, IfOk, length};
ghost use Rattle.fx_layout_parts.specs.Rules as spec;
ghost use Rattle.fx_panes_parts.specs.Lengths.{length_of};

use fx_base::{ChildSize, Ledgers, PaneFacts, Rect, Sizes, Work};
use fx_boxes::sides::RowSide;
use fx_boxes::{control, hbox, pane, region, vbox};
use fx_grid::grid;
use fx_kinds::Class;
use fx_panes::{anchor, border, stack};
use fx_panes_parts::{Axis, Extent, Span, length_of, place_of};
use std::alloc::{AllocError, Global};

/// How a node is laid out.
#[derive(Clone, Copy, PartialEq, Eq, Debug)]
pub enum Rule {
    Region,
    Control,
    /// As a `Pane`, which leaves its children where they ask to be.
    Free,
    HBox,
    VBox,
    Border,
    Stack,
    Anchor,
    Grid,
}

/// A node as it is laid out: by a rule, and by what the rule asks of it.
#[derive(Drop)]
pub struct NodeBox {
    pub rule: Rule,
    pub facts: PaneFacts,
}

/// The rule of a class.
#[tactic(auto, unfolding(crate::specs::Rules::rule_of))]
pub fn rule_of(class: Class) -> Rule
    ensures { result ≡ spec.rule_of class }
{
    match class {
        Class::Pane => Rule::Free,
        Class::HBox => Rule::HBox,
        Class::VBox => Rule::VBox,
        Class::BorderPane => Rule::Border,
        Class::StackPane => Rule::Stack,
        Class::AnchorPane => Rule::Anchor,
        Class::GridPane => Rule::Grid,
        Class::Label => Rule::Control,
        Class::Button => Rule::Control,
        _ => Rule::Region,
    }
}

/// Have a node's children places?
pub fn is_pane(rule: Rule) -> bool
    ensures { result ≡ spec.is_pane rule }
{
    match rule {
        Rule::Region => false,
        Rule::Control => false,
        _ => true,
    }
}

/// What an axis is to the row of a pane of this rule, if it puts its children in a row.
pub fn row_side(rule: Rule, axis: Axis) -> Option<RowSide>
    ensures { result ≡ spec.row_side rule axis }
{
    match rule {
        Rule::HBox => Some(hbox_side(axis)),
        Rule::VBox => Some(vbox_side(axis)),
        _ => None,
    }
}

fn hbox_side(axis: Axis) -> RowSide
    ensures { result ≡ spec.hbox_side axis }
{
    match axis {
        Axis::Across => RowSide::Along,
        Axis::Down => RowSide::Beside,
    }
}

fn vbox_side(axis: Axis) -> RowSide
    ensures { result ≡ spec.vbox_side axis }
{
    match axis {
        Axis::Across => RowSide::Beside,
        Axis::Down => RowSide::Along,
    }
}

/// The sizes of a node over those of its children. A control has the heights of its preferred width.
pub fn measure<L: Ledgers>(
    alloc: Global,
    node: &NodeBox,
    children: &[ChildSize],
    work: &mut Work<L>,
) -> Result<Sizes, AllocError>
    requires { spec.CanBeAsked node.now children.now }
    ensures sizes { IfOk result (λ sizes. (w : ℕ) × spec.AreSizes node.now children.now w sizes) }
    ensures work { work.new ≡ record work.old { laid = work.old.laid + 1 } }
{
    let facts = &node.facts;
    match node.rule {
        Rule::Region => region::measure(alloc, facts, children, work),
        Rule::Control => control::measure(alloc, facts, children, work),
        Rule::Free => pane::measure(alloc, facts, children, work),
        Rule::HBox => hbox::measure(alloc, facts, children, work),
        Rule::VBox => vbox::measure(alloc, facts, children, work),
        Rule::Border => border::measure(alloc, facts, children, work),
        Rule::Stack => stack::measure(alloc, facts, children, work),
        Rule::Anchor => anchor::measure(alloc, facts, children, work),
        Rule::Grid => grid::measure(alloc, facts, children, work),
    }
}

/// The sizes of a node over those of its children, with the heights that it has in this width.
pub fn measure_in<L: Ledgers>(
    alloc: Global,
    node: &NodeBox,
    children: &[ChildSize],
    w: i64,
    work: &mut Work<L>,
) -> Result<Sizes, AllocError>
    requires { spec.CanBeAsked node.now children.now }
    ensures sizes { IfOk result (spec.AreSizes node.now children.now (length_of w)) }
    ensures work { work.new ≡ record work.old { laid = work.old.laid + 1 } }
{
    let facts = &node.facts;
    match node.rule {
        Rule::Region => region::measure(alloc, facts, children, work),
        Rule::Control => control::wrapped(alloc, facts, w, work),
        Rule::Free => pane::measure(alloc, facts, children, work),
        Rule::HBox => hbox::measure(alloc, facts, children, work),
        Rule::VBox => vbox::measure(alloc, facts, children, work),
        Rule::Border => border::measure(alloc, facts, children, work),
        Rule::Stack => stack::measure(alloc, facts, children, work),
        Rule::Anchor => anchor::measure(alloc, facts, children, work),
        Rule::Grid => grid::measure(alloc, facts, children, work),
    }
}

/// Where the children of a node stand in this width and height.
#[tactic(auto, unfolding(crate::specs::Rules::rects_by))]
pub fn place<L: Ledgers>(
    alloc: Global,
    node: &NodeBox,
    children: &[ChildSize],
    w: i64,
    h: i64,
    work: &mut Work<L>,
) -> Result<Vec<Rect>, AllocError>
    requires { spec.CanBeAsked node.now children.now }
    ensures rects { IfOk result (λ rects. rects.items
        ≡ spec.rects_in node.now children.now (length_of w) (length_of h)) }
    ensures work { work.new ≡ record work.old { laid = work.old.laid + 1 } }
{
    let facts = &node.facts;
    match node.rule {
        Rule::Region => region::place(alloc, facts, children, w, h, work),
        Rule::Control => control::place(alloc, facts, children, w, h, work),
        Rule::Free => pane::place(alloc, facts, children, w, h, work),
        Rule::HBox => hbox::place(alloc, facts, children, w, h, work),
        Rule::VBox => vbox::place(alloc, facts, children, w, h, work),
        Rule::Border => border::place(alloc, facts, children, w, h, work),
        Rule::Stack => stack::place(alloc, facts, children, w, h, work),
        Rule::Anchor => anchor::place(alloc, facts, children, w, h, work),
        Rule::Grid => grid::place(alloc, facts, children, w, h, work),
    }
}

/// The horizontal half of sizes.
pub fn across_half(sizes: Sizes) -> Extent
    ensures { result ≡ spec.across_half sizes }
{
    Extent {
        min: length_of(sizes.min_w),
        pref: length_of(sizes.pref_w),
        max: length_of(sizes.max_w),
    }
}

/// The vertical half of sizes.
pub fn down_half(sizes: Sizes) -> Extent
    ensures { result ≡ spec.down_half sizes }
{
    Extent {
        min: length_of(sizes.min_h),
        pref: length_of(sizes.pref_h),
        max: length_of(sizes.max_h),
    }
}

/// The horizontal half of a rectangle.
pub fn across_span(rect: Rect) -> Span
    ensures { result ≡ spec.across_span rect }
{
    Span {
        start: place_of(rect.x),
        length: length_of(rect.w),
    }
}

/// The vertical half of a rectangle.
pub fn down_span(rect: Rect) -> Span
    ensures { result ≡ spec.down_span rect }
{
    Span {
        start: place_of(rect.y),
        length: length_of(rect.h),
    }
}
