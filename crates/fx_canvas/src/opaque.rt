//! Fills and letters of an opaque colour over some rows. A line of a glyph is decoded once for all of its rows.
ghost use Rattle.std.specs.Prelude.{◌≡◌, ◌≤◌, ◌+◌, ◌-◌, ◌/◌, ◌^◌, ◌≤ℤ◌, chars, negsuc, pos};
ghost use Rattle.fx_canvas.specs.Painting.{AreDotted, HasRows, line_top};
ghost use Rattle.fx_pens.specs.Dots.{AreApart, IsInk, IsStamp, char_dots, is_in, line_dots, lowered, runs_dots, stamp_dots};

use crate::blocks::Block;
use crate::rows::Row;
use fx_base::Steps;
use fx_pens::{Columns, Pen, Runs, Stamp, behind, runs_of, stamp_of};
use std::sync::ledger::Ledger;

/// Fills the pen's columns in the rows of a block.
pub(crate) fn fill_rows<P: Ledger>(
    rows: &mut [Row],
    block: Block,
    pen: &Pen,
    pixel: u32,
    painted: &mut Steps<P>,
)
    requires rows { HasRows pen.now block.top block.bottom rows.old }
    requires ink { IsInk pen.now.color pixel }
    ensures { AreDotted pen.now block.top block.bottom block.bottom (λ x y. is_in pen.now.left pen.now.right x)
        rows.old rows.new painted.old painted.new }
{
    let run = Columns {
        left: pen.left,
        right: pen.right,
    };
    fill_run(rows, block.top, block.bottom, pen, pixel, run, painted);
}

/// Lays the rows of a block of a line of letters whose first cell begins at this column. The pen stands in the first of
/// the rows.
pub(crate) fn lay_letters<P: Ledger>(
    rows: &mut [Row],
    block: Block,
    pen: &Pen,
    pixel: u32,
    first: i64,
    text: &str,
    painted: &mut Steps<P>,
)
    requires rows { HasRows pen.now block.top block.bottom rows.old }
    requires ink { IsInk pen.now.color pixel }
    requires below { pen.now.below ≤ 393216 }
    requires bottom { block.bottom ≤ 2048 }
    requires near { negsuc (2 ^ 40) ≤ℤ first }
    ensures { AreDotted pen.now block.top block.bottom block.bottom
        (λ x y. line_dots (lowered pen.now (y - block.top)) first (chars text.now) x) rows.old rows.new
        painted.old painted.new }
{
    let mut start = first;
    for c in text.chars() {
        if start >= pen.right as i64 {
            return;
        }
        lay_character(rows, block, pen, pixel, start, c, painted);
        start = behind(start, pen.scale, c);
    }
}

/// Lays the glyph of a character whose first cell begins at this column.
#[inline(always)]
fn lay_character<P: Ledger>(
    rows: &mut [Row],
    block: Block,
    pen: &Pen,
    pixel: u32,
    start: i64,
    c: char,
    painted: &mut Steps<P>,
)
    requires rows { HasRows pen.now block.top block.bottom rows.old }
    requires ink { IsInk pen.now.color pixel }
    requires below { pen.now.below ≤ 393216 }
    requires bottom { block.bottom ≤ 2048 }
    requires least { negsuc (2 ^ 40) ≤ℤ start }
    requires most { start ≤ℤ pos 65536 }
    ensures { AreDotted pen.now block.top block.bottom block.bottom
        (λ x y. char_dots (lowered pen.now (y - block.top)) start c x) rows.old rows.new painted.old painted.new }
{
    let stamp = stamp_of(pen, start, c);
    stamp_rows(rows, block, pen, pixel, &stamp, painted);
}

/// Lays a stamp's glyph, one of its lines after another.
#[inline(always)]
fn stamp_rows<P: Ledger>(
    rows: &mut [Row],
    block: Block,
    pen: &Pen,
    pixel: u32,
    stamp: &Stamp,
    painted: &mut Steps<P>,
)
    requires rows { HasRows pen.now block.top block.bottom rows.old }
    requires ink { IsInk pen.now.color pixel }
    requires below { pen.now.below ≤ 393216 }
    requires bottom { block.bottom ≤ 2048 }
    requires stamp { IsStamp pen.now.left pen.now.right stamp.now }
    ensures { AreDotted pen.now block.top block.bottom block.bottom
        (λ x y. stamp_dots stamp.now ((pen.now.below + (y - block.top)) / pen.now.scale) x) rows.old rows.new
        painted.old painted.new }
{
    let mut top = block.top;
    for line in 0..5 {
        let bottom = line_top(block, pen, line + 1);
        lay_runs(rows, top, bottom, pen, pixel, runs_of(stamp, line), painted);
        top = bottom;
    }
}

/// The first row of a line of the glyphs, or the one behind the block, if the line lies below it.
#[inline(always)]
fn line_top(block: Block, pen: &Pen, line: u64) -> usize
    requires line { line ≤ 5 }
    requires narrow { pen.now.scale ≤ 65536 }
    requires falls { block.top ≤ block.bottom }
    requires bottom { block.bottom ≤ 2048 }
    ensures { result ≡ line_top pen.now block.top block.bottom line }
{
    let rows = (line * pen.scale).saturating_sub(pen.below) as usize;
    block.bottom.min(block.top + rows)
}

/// Lays two runs over the rows from one on and before another.
#[inline(always)]
fn lay_runs<P: Ledger>(
    rows: &mut [Row],
    top: usize,
    bottom: usize,
    pen: &Pen,
    pixel: u32,
    runs: Runs,
    painted: &mut Steps<P>,
)
    requires rows { HasRows pen.now top bottom rows.old }
    requires ink { IsInk pen.now.color pixel }
    requires runs { AreApart pen.now.left pen.now.right runs }
    ensures { AreDotted pen.now top bottom bottom (λ x y. runs_dots runs x) rows.old rows.new
        painted.old painted.new }
{
    lay_run(rows, top, bottom, pen, pixel, runs.left, painted);
    lay_run(rows, top, bottom, pen, pixel, runs.right, painted);
}

/// Lays a run, if it isn't empty. Half of the runs of letters are.
#[inline(always)]
fn lay_run<P: Ledger>(
    rows: &mut [Row],
    top: usize,
    bottom: usize,
    pen: &Pen,
    pixel: u32,
    run: Columns,
    painted: &mut Steps<P>,
)
    requires rows { HasRows pen.now top bottom rows.old }
    requires ink { IsInk pen.now.color pixel }
    requires left { pen.now.left ≤ run.left }
    requires rises { run.left ≤ run.right }
    requires right { run.right ≤ pen.now.right }
    ensures { AreDotted pen.now top bottom bottom (λ x y. is_in run.left run.right x)
        rows.old rows.new painted.old painted.new }
{
    if run.left < run.right {
        fill_run(rows, top, bottom, pen, pixel, run, painted);
    }
}

/// Fills some of the pen's columns in the rows from one on and before another.
#[inline(never)]
fn fill_run<P: Ledger>(
    rows: &mut [Row],
    top: usize,
    bottom: usize,
    pen: &Pen,
    pixel: u32,
    run: Columns,
    painted: &mut Steps<P>,
)
    requires rows { HasRows pen.now top bottom rows.old }
    requires ink { IsInk pen.now.color pixel }
    requires left { pen.now.left ≤ run.left }
    requires rises { run.left ≤ run.right }
    requires right { run.right ≤ pen.now.right }
    ensures { AreDotted pen.now top bottom bottom (λ x y. is_in run.left run.right x)
        rows.old rows.new painted.old painted.new }
{
    for y in top..bottom {
        rows[y].fill(pen, pixel, run, painted);
    }
}
