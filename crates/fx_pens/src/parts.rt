//! The row of a glyph of which the edges of the pen's columns may cut a part off.
ghost use Rattle.std.specs.Prelude.{◌≡◌, ◌≤◌, ◌<◌, ◌&&◌, ◌*◌, ◌/◌, ◌^◌, ◌≤ℤ◌, ◌+ℤ◌, ℤ, pos, negsuc, true, IfSome};
ghost use Rattle.fx_picture.specs.Bounds.{in_range};
ghost use Rattle.fx_pens.specs.Dots.{AreEdges, DoRise, IsInk, IsLaid, IsPen, char_dots, row_dots};

use crate::characters::{bits_of, width_of};
use crate::runs::Bits;
use crate::spans::{Pen, lay_span};
use fx_base::Steps;
use fx_cells::glyph;
use std::sync::ledger::Ledger;

/// Paints this row of the glyph of a character whose first cell begins at this column.
#[inline(always)]
pub(crate) fn lay_cut<P: Ledger>(
    row: &mut [u32],
    pen: &Pen,
    ink: Option<u32>,
    line: u64,
    start: i64,
    c: char,
    painted: &mut Steps<P>,
)
    requires pen { IsPen pen.now row.old }
    requires ink { IfSome ink (IsInk pen.now.color) }
    requires scale { pen.now.scale ≤ 65536 }
    requires line { line ≡ pen.now.below / pen.now.scale }
    requires low { line < 5 }
    requires least { negsuc (2 ^ 40) ≤ℤ start }
    requires most { start ≤ℤ pos 65536 }
    ensures { IsLaid pen.now (char_dots pen.now start c) row.old row.new painted.old painted.new }
{
    if width_of(c) == 0 {
        return;
    }
    lay_edges(
        row,
        pen,
        ink,
        edges_from(pen, start),
        bits_of(glyph(c), line),
        painted,
    );
}

/// Where a row of a glyph is cut into its three bits.
#[derive(Clone, Copy)]
pub(crate) struct Edges {
    pub(crate) first: i64,
    pub(crate) second: i64,
    pub(crate) third: i64,
    pub(crate) end: i64,
}

/// The edges of the bits that begin at this column.
#[inline(always)]
fn edges_from(pen: &Pen, start: i64) -> Edges
    requires scale { pen.now.scale ≤ 65536 }
    requires least { negsuc (2 ^ 40) ≤ℤ start }
    requires most { start ≤ℤ pos 65536 }
    ensures rises { DoRise result }
    ensures edges { AreEdges pen.now start result }
{
    let second = further(start, pen.scale, 1);
    let third = further(start, pen.scale, 2);
    let end = further(start, pen.scale, 3);
    Edges {
        first: start,
        second,
        third,
        end,
    }
}

/// Paints the bits of a row of a glyph, each cut to the pen's columns.
#[inline(always)]
pub(crate) fn lay_edges<P: Ledger>(
    row: &mut [u32],
    pen: &Pen,
    ink: Option<u32>,
    edges: Edges,
    bits: Bits,
    painted: &mut Steps<P>,
)
    requires pen { IsPen pen.now row.old }
    requires ink { IfSome ink (IsInk pen.now.color) }
    requires rises { DoRise edges }
    ensures { (start : ℤ) → AreEdges pen.now start edges
        → IsLaid pen.now (row_dots pen.now start bits) row.old row.new painted.old painted.new }
{
    if edges.end <= pen.left as i64 {
        return;
    }
    let Edges {
        first,
        second,
        third,
        end,
    } = edges;
    lay_part(row, pen, ink, first, second, bits.left, painted);
    lay_part(row, pen, ink, second, third, bits.middle, painted);
    lay_part(row, pen, ink, third, end, bits.right, painted);
}

/// Paints one bit of a glyph, from one edge on and before another, if the bit is set.
#[inline(always)]
fn lay_part<P: Ledger>(
    row: &mut [u32],
    pen: &Pen,
    ink: Option<u32>,
    start: i64,
    end: i64,
    set: bool,
    painted: &mut Steps<P>,
)
    requires pen { IsPen pen.now row.old }
    requires ink { IfSome ink (IsInk pen.now.color) }
    requires rises { start ≤ℤ end }
    ensures { IsLaid pen.now (λ x. set && in_range start end x) row.old row.new painted.old painted.new }
{
    if set {
        let from = cut(pen, start);
        let to = cut(pen, end);
        lay_span(row, pen, ink, from, to, painted);
    }
}

/// A column, cut to the pen's.
#[inline(always)]
pub(crate) fn cut(pen: &Pen, at: i64) -> usize
    requires rises { pen.now.left ≤ pen.now.right }
    requires near { pen.now.right ≤ 65536 }
    ensures low { at ≤ℤ pos pen.now.left → result ≡ pen.now.left }
    ensures among { pos pen.now.left ≤ℤ at → at ≤ℤ pos pen.now.right → pos result ≡ at }
    ensures high { pos pen.now.right ≤ℤ at → result ≡ pen.now.right }
{
    if at <= pen.left as i64 {
        return pen.left;
    }
    if at >= pen.right as i64 {
        return pen.right;
    }
    at as usize
}

/// So many scales behind a column.
#[inline(always)]
pub(crate) fn further(start: i64, scale: u64, count: u64) -> i64
    requires least { negsuc (2 ^ 41) ≤ℤ start }
    requires most { start ≤ℤ pos (2 ^ 20) }
    requires scale { scale ≤ 65536 }
    requires count { count ≤ 3 }
    ensures value { result ≡ start +ℤ pos (count * scale) }
    ensures low { start ≤ℤ result }
    ensures high { result ≤ℤ (start +ℤ pos (3 * 65536)) }
{
    start + (count * scale) as i64
}
