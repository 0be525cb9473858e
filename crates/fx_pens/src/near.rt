//! One row of letters that begin at a small number and are not huge, so that small integers tell where a bit lies.
ghost use Rattle.std.specs.Prelude.{◌≡◌, ◌≤◌, ◌<◌, ◌+◌, ◌*◌, ◌/◌, ◌^◌, ◌≤ℤ◌, ◌+ℤ◌, pos, negsuc, chars, true, IfSome};
ghost use Rattle.fx_cells.specs.Columns.{cell_width};
ghost use Rattle.fx_pens.specs.Dots.{IsInk, IsLaid, IsPen, char_dots, line_dots};

use crate::characters::{bits_of, is_plain, width_of};
use crate::parts::lay_cut;
use crate::pixels::lay_three;
use crate::runs::lay_runs;
use crate::spans::Pen;
use fx_base::Steps;
use fx_cells::glyph;
use std::sync::ledger::Ledger;

/// Whether the first column and the scale are small numbers.
pub(crate) fn is_near(scale: u64, first: i64) -> bool
    ensures scale { result ≡ true → scale ≤ 65536 }
    ensures near { result ≡ true → negsuc (2 ^ 40) ≤ℤ first }
{
    scale <= 65536 && first >= -1_099_511_627_776
}

/// Paints the row of a text whose first cell begins at this column.
pub(crate) fn lay_near<P: Ledger>(
    row: &mut [u32],
    pen: &Pen,
    ink: Option<u32>,
    line: u64,
    first: i64,
    text: &str,
    painted: &mut Steps<P>,
)
    requires pen { IsPen pen.now row.old }
    requires ink { IfSome ink (IsInk pen.now.color) }
    requires scale { pen.now.scale ≤ 65536 }
    requires line { line ≡ pen.now.below / pen.now.scale }
    requires low { line < 5 }
    requires near { negsuc (2 ^ 40) ≤ℤ first }
    ensures { IsLaid pen.now (line_dots pen.now first (chars text.now)) row.old row.new painted.old painted.new }
{
    match ink {
        Some(color) if pen.scale == 1 => lay_fine(row, pen, color, line, first, text, painted),
        _ => lay_wide(row, pen, ink, line, first, text, painted),
    }
}

/// The same where each bit is one opaque pixel.
fn lay_fine<P: Ledger>(
    row: &mut [u32],
    pen: &Pen,
    color: u32,
    line: u64,
    first: i64,
    text: &str,
    painted: &mut Steps<P>,
)
    requires pen { IsPen pen.now row.old }
    requires color { IsInk pen.now.color color }
    requires scale { pen.now.scale ≡ 1 }
    requires line { line ≡ pen.now.below / pen.now.scale }
    requires low { line < 5 }
    requires near { negsuc (2 ^ 40) ≤ℤ first }
    ensures { IsLaid pen.now (line_dots pen.now first (chars text.now)) row.old row.new painted.old painted.new }
{
    let mut start = first;
    for c in text.chars() {
        if start >= pen.right as i64 {
            return;
        }
        lay_fine_glyph(row, pen, color, line, start, c, painted);
        start = behind(start, 1, c);
    }
}

/// The same where a bit may be many columns wide.
fn lay_wide<P: Ledger>(
    row: &mut [u32],
    pen: &Pen,
    ink: Option<u32>,
    line: u64,
    first: i64,
    text: &str,
    painted: &mut Steps<P>,
)
    requires pen { IsPen pen.now row.old }
    requires ink { IfSome ink (IsInk pen.now.color) }
    requires scale { pen.now.scale ≤ 65536 }
    requires line { line ≡ pen.now.below / pen.now.scale }
    requires low { line < 5 }
    requires near { negsuc (2 ^ 40) ≤ℤ first }
    ensures { IsLaid pen.now (line_dots pen.now first (chars text.now)) row.old row.new painted.old painted.new }
{
    let mut start = first;
    for c in text.chars() {
        if start >= pen.right as i64 {
            return;
        }
        lay_wide_glyph(row, pen, ink, line, start, c, painted);
        start = behind(start, pen.scale, c);
    }
}

/// The column behind the cells of a character that begin at this one.
#[inline(always)]
pub fn behind(start: i64, scale: u64, c: char) -> i64
    requires least { negsuc (2 ^ 40) ≤ℤ start }
    requires most { start ≤ℤ pos 65536 }
    requires scale { scale ≤ 65536 }
    ensures { result ≡ start +ℤ pos (4 * cell_width c * scale) }
{
    start + (4 * width_of(c) * scale) as i64
}

/// Paints this row of the glyph of a character whose first cell begins at this column.
#[inline(always)]
fn lay_fine_glyph<P: Ledger>(
    row: &mut [u32],
    pen: &Pen,
    color: u32,
    line: u64,
    start: i64,
    c: char,
    painted: &mut Steps<P>,
)
    requires pen { IsPen pen.now row.old }
    requires color { IsInk pen.now.color color }
    requires scale { pen.now.scale ≡ 1 }
    requires line { line ≡ pen.now.below / pen.now.scale }
    requires low { line < 5 }
    requires least { negsuc (2 ^ 40) ≤ℤ start }
    requires most { start ≤ℤ pos 65536 }
    ensures { IsLaid pen.now (char_dots pen.now start c) row.old row.new painted.old painted.new }
{
    if fits(pen, 1, start, c) {
        lay_three(
            row,
            pen,
            color,
            start as usize,
            bits_of(glyph(c), line),
            painted,
        );
    } else {
        lay_cut(row, pen, Some(color), line, start, c, painted);
    }
}

/// The same where a bit may be many columns wide.
#[inline(always)]
fn lay_wide_glyph<P: Ledger>(
    row: &mut [u32],
    pen: &Pen,
    ink: Option<u32>,
    line: u64,
    start: i64,
    c: char,
    painted: &mut Steps<P>,
)
    requires pen { IsPen pen.now row.old }
    requires ink { IfSome ink (IsInk pen.now.color) }
    requires scale { pen.now.scale ≤ 65536 }
    requires line { line ≡ pen.now.below / pen.now.scale }
    requires low { line < 5 }
    requires least { negsuc (2 ^ 40) ≤ℤ start }
    requires most { start ≤ℤ pos 65536 }
    ensures { IsLaid pen.now (char_dots pen.now start c) row.old row.new painted.old painted.new }
{
    if fits(pen, pen.scale, start, c) {
        lay_runs(
            row,
            pen,
            ink,
            start as usize,
            bits_of(glyph(c), line),
            painted,
        );
    } else {
        lay_cut(row, pen, ink, line, start, c, painted);
    }
}

/// Whether a printable character of ASCII begins at this column, and all three bits lie in the pen's columns.
#[inline(always)]
fn fits(pen: &Pen, scale: u64, start: i64, c: char) -> bool
    requires near { pen.now.right ≤ 65536 }
    requires rises { pen.now.left ≤ pen.now.right }
    requires scale { scale ≤ 65536 }
    requires most { start ≤ℤ pos 65536 }
    ensures plain { result ≡ true → cell_width c ≡ 1 }
    ensures left { result ≡ true → pos pen.now.left ≤ℤ start }
    ensures right { result ≡ true → (start +ℤ pos (3 * scale)) ≤ℤ pos pen.now.right }
{
    is_plain(c) && pen.left as i64 <= start && start + (3 * scale) as i64 <= pen.right as i64
}
