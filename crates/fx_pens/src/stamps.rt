//! A glyph at its place: where the columns of its bits lie is worked out once for all of its rows.
ghost use Rattle.std.specs.Prelude.{◌≡◌, ◌≤◌, ◌<◌, ◌*◌, ◌/◌, ◌^◌, ◌≤ℤ◌, ◌+ℤ◌, ℕ, pos, negsuc};
ghost use Rattle.std.specs.Int.{int_max, int_min};
ghost use Rattle.fx_pens.specs.Dots.{AreApart, IsStamp, bits_between, char_dots, joined_runs, runs_beside, runs_dots, stamp_dots};

use crate::characters::{bits_of, width_of};
use crate::parts::{cut, further};
use crate::runs::{Bits, choose};
use crate::spans::{Columns, Pen};
use fx_cells::glyph;

/// A glyph, and the edges of its three columns of bits, cut to the columns that are painted.
#[derive(Clone, Copy)]
pub struct Stamp {
    pub(crate) glyph: u16,
    pub(crate) first: usize,
    pub(crate) second: usize,
    pub(crate) third: usize,
    pub(crate) end: usize,
}

/// The stamp of a character whose first cell begins at this column.
#[inline(always)]
pub fn stamp_of(pen: &Pen, start: i64, c: char) -> Stamp
    requires rises { pen.now.left ≤ pen.now.right }
    requires near { pen.now.right ≤ 65536 }
    requires some { 0 < pen.now.scale }
    requires scale { pen.now.scale ≤ 65536 }
    requires least { negsuc (2 ^ 40) ≤ℤ start }
    requires most { start ≤ℤ pos 65536 }
    ensures edges { IsStamp pen.now.left pen.now.right result }
    ensures dots { (below x : ℕ) → pen.now.left ≤ x → x < pen.now.right
        → stamp_dots result (below / pen.now.scale) x ≡ char_dots (record pen.now { below = below }) start c x }
{
    if width_of(c) == 0 {
        return blank(pen.left);
    }
    let first = column(pen, start, 0);
    let second = column(pen, start, 1);
    let third = column(pen, start, 2);
    let end = column(pen, start, 3);
    Stamp {
        glyph: glyph(c),
        first,
        second,
        third,
        end,
    }
}

/// A stamp that shows nothing.
fn blank(at: usize) -> Stamp
    ensures { result ≡ record { glyph = 0; first = at; second = at; third = at; end = at } }
{
    Stamp {
        glyph: 0,
        first: at,
        second: at,
        third: at,
        end: at,
    }
}

/// The column so many scales behind another one, cut to the pen's.
#[inline(always)]
fn column(pen: &Pen, start: i64, count: u64) -> usize
    requires rises { pen.now.left ≤ pen.now.right }
    requires near { pen.now.right ≤ 65536 }
    requires scale { pen.now.scale ≤ 65536 }
    requires least { negsuc (2 ^ 40) ≤ℤ start }
    requires most { start ≤ℤ pos 65536 }
    requires count { count ≤ 3 }
    ensures { pos result
        ≡ int_max (pos pen.now.left) (int_min (start +ℤ pos (count * pen.now.scale)) (pos pen.now.right)) }
{
    cut(pen, further(start, pen.scale, count))
}

/// The columns of the bits of a line of a glyph: bits that stand side by side are one run. Where there are no two runs,
/// one is empty, or both are.
#[derive(Clone, Copy)]
pub struct Runs {
    pub left: Columns,
    pub right: Columns,
}

/// The runs of a line of a stamp's glyph.
#[inline(always)]
pub fn runs_of(stamp: &Stamp, line: u64) -> Runs
    requires { line < 5 }
    ensures edges { (low high : ℕ) → IsStamp low high stamp.now → AreApart low high result }
    ensures dots { (low high x : ℕ) → IsStamp low high stamp.now → runs_dots result x ≡ stamp_dots stamp.now line x }
{
    runs_between(stamp, bits_of(stamp.glyph, line))
}

/// The runs of three bits between the edges of a stamp.
#[inline(always)]
fn runs_between(stamp: &Stamp, bits: Bits) -> Runs
    ensures edges { (low high : ℕ) → IsStamp low high stamp.now → AreApart low high result }
    ensures dots { (low high x : ℕ) → IsStamp low high stamp.now → runs_dots result x ≡ bits_between stamp.now bits x }
{
    if bits.middle {
        joined(stamp, bits)
    } else {
        beside(stamp, bits)
    }
}

/// The one run that goes over the middle bit, which is set.
#[inline(always)]
fn joined(stamp: &Stamp, bits: Bits) -> Runs
    ensures { result ≡ joined_runs stamp.now bits }
{
    Runs {
        left: Columns {
            left: choose(bits.left, stamp.first, stamp.second),
            right: choose(bits.right, stamp.end, stamp.third),
        },
        right: Columns {
            left: stamp.end,
            right: stamp.end,
        },
    }
}

/// The bits beside the middle one, which isn't set.
#[inline(always)]
fn beside(stamp: &Stamp, bits: Bits) -> Runs
    ensures { result ≡ runs_beside stamp.now bits }
{
    Runs {
        left: Columns {
            left: stamp.first,
            right: choose(bits.left, stamp.second, stamp.first),
        },
        right: Columns {
            left: stamp.third,
            right: choose(bits.right, stamp.end, stamp.third),
        },
    }
}
