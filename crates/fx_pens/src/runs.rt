//! The bits of one row of a glyph, painted by runs: bits that stand side by side are one span.
ghost use Rattle.std.specs.Prelude.{◌≡◌, IfSome, ◌≤◌, ◌&&◌, ◌+◌, ◌*◌, pos, true, if◌then◌else◌};
ghost use Rattle.fx_pens.specs.Dots.{IsInk, IsLaid, IsPen, bit_dots, row_dots};

use crate::spans::{Pen, lay_span};
use fx_base::Steps;
use std::sync::ledger::Ledger;

/// Which bits of a row of a glyph are set.
#[derive(Clone, Copy)]
pub(crate) struct Bits {
    pub(crate) left: bool,
    pub(crate) middle: bool,
    pub(crate) right: bool,
}

/// Paints the bits of a row that begins at this column. All three columns of bits lie in the pen's.
#[inline(always)]
pub(crate) fn lay_runs<P: Ledger>(
    row: &mut [u32],
    pen: &Pen,
    ink: Option<u32>,
    start: usize,
    bits: Bits,
    painted: &mut Steps<P>,
)
    requires pen { IsPen pen.now row.old }
    requires ink { IfSome ink (IsInk pen.now.color) }
    requires left { pen.now.left ≤ start }
    requires right { start + 3 * pen.now.scale ≤ pen.now.right }
    ensures { IsLaid pen.now (row_dots pen.now (pos start) bits) row.old row.new painted.old painted.new }
{
    if bits.middle {
        lay_joined(row, pen, ink, start, bits, painted);
    } else {
        lay_alone(row, pen, ink, start, bits.left, painted);
        lay_alone(
            row,
            pen,
            ink,
            start + 2 * pen.scale as usize,
            bits.right,
            painted,
        );
    }
}

/// Paints the one run that goes over the middle bit, which is set.
#[inline(always)]
fn lay_joined<P: Ledger>(
    row: &mut [u32],
    pen: &Pen,
    ink: Option<u32>,
    start: usize,
    bits: Bits,
    painted: &mut Steps<P>,
)
    requires pen { IsPen pen.now row.old }
    requires ink { IfSome ink (IsInk pen.now.color) }
    requires middle { bits.middle ≡ true }
    requires left { pen.now.left ≤ start }
    requires right { start + 3 * pen.now.scale ≤ pen.now.right }
    ensures { IsLaid pen.now (row_dots pen.now (pos start) bits) row.old row.new painted.old painted.new }
{
    let scale = pen.scale as usize;
    let from = choose(bits.left, start, start + scale);
    let to = choose(bits.right, start + 3 * scale, start + 2 * scale);
    lay_span(row, pen, ink, from, to, painted);
}

/// Paints the bit that begins at this column, if it is set.
#[inline(always)]
fn lay_alone<P: Ledger>(
    row: &mut [u32],
    pen: &Pen,
    ink: Option<u32>,
    start: usize,
    set: bool,
    painted: &mut Steps<P>,
)
    requires pen { IsPen pen.now row.old }
    requires ink { IfSome ink (IsInk pen.now.color) }
    requires left { pen.now.left ≤ start }
    requires right { start + pen.now.scale ≤ pen.now.right }
    ensures { IsLaid pen.now (λ x. set && bit_dots pen.now (pos start) x) row.old row.new painted.old painted.new }
{
    if set {
        lay_span(row, pen, ink, start, start + pen.scale as usize, painted);
    }
}

pub(crate) fn choose(first: bool, one: usize, other: usize) -> usize
    ensures { result ≡ (if first then one else other) }
{
    if first { one } else { other }
}
