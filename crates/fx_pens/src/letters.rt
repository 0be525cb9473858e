//! One row of letters. Where they begin far off or are huge, each bit is cut to the row by itself.
ghost use Rattle.std.specs.Prelude.{◌≡◌, ◌≤◌, ◌^◌, ◌+ℤ◌, ◌≤ℤ◌, ◌<◌, ◌*◌, ◌/◌, pos, negsuc, chars, true, IfSome};
ghost use Rattle.std.specs.Int.{int_max, int_min};
ghost use Rattle.fx_pens.specs.Dots.{AreEdges, DoRise, IsInk, IsLaid, IsPen, char_dots, line_dots};

use crate::characters::{bits_of, width_of};
use crate::near::lay_near;
use crate::parts::{Edges, lay_edges};
use crate::spans::Pen;
use fx_base::Steps;
use fx_cells::glyph;
use std::sync::ledger::Ledger;

/// Paints the row of a text whose first cell begins at this column.
pub(crate) fn lay_line<P: Ledger>(
    row: &mut [u32],
    pen: &Pen,
    ink: Option<u32>,
    is_near: bool,
    first: i64,
    text: &str,
    painted: &mut Steps<P>,
)
    requires pen { IsPen pen.now row.old }
    requires ink { IfSome ink (IsInk pen.now.color) }
    requires scale { is_near ≡ true → pen.now.scale ≤ 65536 }
    requires near { is_near ≡ true → negsuc (2 ^ 40) ≤ℤ first }
    ensures { IsLaid pen.now (line_dots pen.now first (chars text.now)) row.old row.new painted.old painted.new }
{
    let line = pen.below / pen.scale;
    if line >= 5 {
        return;
    }
    if is_near {
        lay_near(row, pen, ink, line, first, text, painted);
    } else {
        lay_far(row, pen, ink, line, first, text, painted);
    }
}

/// The same where the columns of the first cell, or of a bit, may be any.
#[inline(never)]
fn lay_far<P: Ledger>(
    row: &mut [u32],
    pen: &Pen,
    ink: Option<u32>,
    line: u64,
    first: i64,
    text: &str,
    painted: &mut Steps<P>,
)
    requires pen { IsPen pen.now row.old }
    requires ink { IfSome ink (IsInk pen.now.color) }
    requires line { line ≡ pen.now.below / pen.now.scale }
    requires low { line < 5 }
    ensures { IsLaid pen.now (line_dots pen.now first (chars text.now)) row.old row.new painted.old painted.new }
{
    let mut start = i128::from(first);
    for c in text.chars() {
        if start >= pen.right as i128 {
            return;
        }
        lay_character(row, pen, ink, line, start, c, painted);
        start = behind(start, pen.scale, 4 * width_of(c));
    }
}

/// Paints this row of the glyph of a character whose first cell begins at this column.
fn lay_character<P: Ledger>(
    row: &mut [u32],
    pen: &Pen,
    ink: Option<u32>,
    line: u64,
    start: i128,
    c: char,
    painted: &mut Steps<P>,
)
    requires pen { IsPen pen.now row.old }
    requires ink { IfSome ink (IsInk pen.now.color) }
    requires line { line ≡ pen.now.below / pen.now.scale }
    requires low { line < 5 }
    requires least { negsuc (2 ^ 70) ≤ℤ start }
    requires most { start ≤ℤ pos (2 ^ 70) }
    ensures { IsLaid pen.now (char_dots pen.now start c) row.old row.new painted.old painted.new }
{
    if width_of(c) == 0 {
        return;
    }
    let bits = bits_of(glyph(c), line);
    lay_edges(row, pen, ink, edges_from(pen, start), bits, painted);
}

/// The edges of the bits that begin at this column, as far as a window shows them.
fn edges_from(pen: &Pen, start: i128) -> Edges
    requires near { pen.now.right ≤ 65536 }
    requires scale { pen.now.scale ≤ 9223372036854775807 }
    requires least { negsuc (2 ^ 70) ≤ℤ start }
    requires most { start ≤ℤ pos (2 ^ 70) }
    ensures rises { DoRise result }
    ensures edges { AreEdges pen.now start result }
{
    let first = clamped(start);
    let second = clamped(behind(start, pen.scale, 1));
    let third = clamped(behind(start, pen.scale, 2));
    let end = clamped(behind(start, pen.scale, 3));
    Edges {
        first,
        second,
        third,
        end,
    }
}

/// A column, or the nearest one to it of a window and beside it.
fn clamped(at: i128) -> i64
    ensures { result ≡ int_min (int_max at (negsuc 0)) (pos 65536) }
{
    if at < -1 {
        return -1;
    }
    if at > 65536 {
        return 65536;
    }
    at as i64
}

/// So many scales behind a column.
fn behind(start: i128, scale: u64, count: u64) -> i128
    requires least { negsuc (2 ^ 70) ≤ℤ start }
    requires most { start ≤ℤ pos (2 ^ 70) }
    requires scale { scale ≤ 9223372036854775807 }
    requires count { count ≤ 12 }
    ensures value { result ≡ start +ℤ pos (count * scale) }
    ensures low { negsuc (2 ^ 100) ≤ℤ result }
    ensures high { result ≤ℤ pos (2 ^ 100) }
{
    start + i128::from(count) * i128::from(scale)
}
