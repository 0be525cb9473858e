//! The controls (JavaFX `Label` and `Button`): a text on one line, or wrapped at the width that the control has.
//! They stand on the cells of texts.
ghost use Rattle.std.specs.Prelude.{◌≡◌, ◌+◌, ◌*◌, ◌^◌, ◌≤◌, [], IfOk, IsTrue, OnErr, chars, length};
ghost use Rattle.fx_boxes.specs.Controls as spec;
ghost use Rattle.fx_panes_parts.specs.Axes.{IsPaneAxis};
ghost use Rattle.fx_panes_parts.specs.Lengths.{length_of};

use fx_base::{ChildSize, Ledgers, PaneFacts, Rect, Sizes, Work};
use fx_cells::{cells, lines};
use fx_panes_parts::{
    Axis, Extent, OwnLengths, PaneAxis, content, control_extent, insets, joined, length_of,
    pane_axis,
};
use std::alloc::{AllocError, Global};

/// How wide a cell of text is, in pixels, at the smallest scale.
const CELL_WIDTH: u64 = 4;

/// How high a line of text is, in pixels, at the smallest scale.
const LINE_HEIGHT: u64 = 6;

/// The sizes of a control, with the heights that it has in its preferred width. Memory is taken only for the lines
/// of a text that wraps.
pub fn measure<L: Ledgers>(
    alloc: Global,
    pane: &PaneFacts,
    _children: &[ChildSize],
    work: &mut Work<L>,
) -> Result<Sizes, AllocError>
    ensures sizes { IfOk result (spec.IsControl pane.now (spec.control_widths pane.now).pref) }
    ensures memory { OnErr result (IsTrue pane.now.wrap) }
    ensures work { work.new ≡ record work.old { laid = work.old.laid + 1 } }
{
    work.laid.tick();
    sizes_in(alloc, pane, widths(pane).pref)
}

/// The sizes of a control, with the heights that it has in this width.
pub fn wrapped<L: Ledgers>(
    alloc: Global,
    control: &PaneFacts,
    w: i64,
    work: &mut Work<L>,
) -> Result<Sizes, AllocError>
    ensures sizes { IfOk result (spec.IsControl control.now (length_of w)) }
    ensures memory { OnErr result (IsTrue control.now.wrap) }
    ensures work { work.new ≡ record work.old { laid = work.old.laid + 1 } }
{
    work.laid.tick();
    sizes_in(alloc, control, length_of(w))
}

/// A control has no children to place.
pub fn place<L: Ledgers>(
    alloc: Global,
    _pane: &PaneFacts,
    _children: &[ChildSize],
    _w: i64,
    _h: i64,
    work: &mut Work<L>,
) -> Result<Vec<Rect>, AllocError>
    ensures rects { IfOk result (λ rects. rects.items ≡ []) }
    ensures work { work.new ≡ record work.old { laid = work.old.laid + 1 } }
{
    work.laid.tick();
    Ok(Vec::new(alloc))
}

/// The sizes of a control are one list in each width, with the same widths in all.
pub fn one_control()
    ensures one { spec.OneControl }
    ensures widths { spec.SameWidths }
{}

fn sizes_in(alloc: Global, control: &PaneFacts, w: u64) -> Result<Sizes, AllocError>
    ensures sizes { IfOk result (spec.IsControl control.now w) }
    ensures memory { OnErr result (IsTrue control.now.wrap) }
{
    let count = line_count(alloc, control, w)?;
    Ok(joined(widths(control), heights(control, count)))
}

fn line_count(alloc: Global, control: &PaneFacts, w: u64) -> Result<u64, AllocError>
    ensures count { IfOk result (spec.IsLineCount control.now w) }
    ensures memory { OnErr result (IsTrue control.now.wrap) }
{
    if !control.wrap {
        return Ok(1);
    }
    let ranges = lines(alloc, control.text.as_str(), columns_in(control, w))?;
    Ok(ranges.len() as u64)
}

#[tactic(auto, unfolding(crate::specs::Controls::columns_in))]
fn columns_in(control: &PaneFacts, w: u64) -> u64
    ensures value { result ≡ spec.columns_in control.now w }
    ensures some { 1 ≤ result }
{
    let room = content(&pane_axis(Axis::Across, control), w);
    (room / (CELL_WIDTH * scale_of(control.font_size))).max(1)
}

/// How much larger than the smallest the letters of a font size are.
fn scale_of(size: i64) -> u64
    ensures value { result ≡ spec.scale_of size }
    ensures some { 1 ≤ result }
    ensures most { result ≤ 2 ^ 61 }
{
    if size < 0 {
        1
    } else {
        (size as u64 / 6).max(1)
    }
}

/// The widths of a control of this text in letters of this size. Where it has a preferred width of its own, the text
/// isn't looked at.
pub fn text_widths(across: &PaneAxis, font_size: i64, text: &str) -> Extent
    requires { IsPaneAxis across.now }
    ensures { result ≡ spec.text_widths across.now font_size (chars text.now) }
{
    let around = insets(across);
    if is_given(across.own) {
        return control_extent(across.own, around, around);
    }
    let letters = (CELL_WIDTH * scale_of(font_size)).saturating_mul(cells(text));
    control_extent(across.own, around, around.saturating_add(letters))
}

/// Is a preferred length given, so that none is to be computed?
fn is_given(own: OwnLengths) -> bool
    ensures { result ≡ spec.is_given own.pref }
{
    own.pref >= 0
}

/// The heights of a control of so many lines in letters of this size.
pub fn line_heights(down: &PaneAxis, font_size: i64, lines: u64) -> Extent
    requires { IsPaneAxis down.now }
    ensures { result ≡ spec.line_heights down.now font_size lines }
{
    let letters = (LINE_HEIGHT * scale_of(font_size)).saturating_mul(lines);
    let height = insets(down).saturating_add(letters);
    control_extent(down.own, height, height)
}

#[tactic(auto, unfolding(crate::specs::Controls::control_widths))]
fn widths(control: &PaneFacts) -> Extent
    ensures { result ≡ spec.control_widths control.now }
{
    text_widths(
        &pane_axis(Axis::Across, control),
        control.font_size,
        control.text.as_str(),
    )
}

#[tactic(auto, unfolding(crate::specs::Controls::control_heights))]
fn heights(control: &PaneFacts, lines: u64) -> Extent
    ensures { result ≡ spec.control_heights control.now lines }
{
    line_heights(&pane_axis(Axis::Down, control), control.font_size, lines)
}
