//! The bits of one row of a glyph, painted pixel by pixel, which is cheaper than spans so short.
ghost use Rattle.std.specs.Prelude.{◌≡◌, ◌≤◌, ◌<◌, ◌+◌, pos, length, slice_set, if◌then◌else◌};
ghost use Rattle.fx_pens.specs.Dots.{IsInk, IsLaid, IsPen, row_dots};

use crate::runs::Bits;
use crate::spans::Pen;
use fx_base::Steps;
use std::sync::ledger::Ledger;

/// Paints three bits, each of one opaque pixel, of which the first lies at this column.
#[inline(always)]
pub(crate) fn lay_three<P: Ledger>(
    row: &mut [u32],
    pen: &Pen,
    color: u32,
    start: usize,
    bits: Bits,
    painted: &mut Steps<P>,
)
    requires pen { IsPen pen.now row.old }
    requires color { IsInk pen.now.color color }
    requires scale { pen.now.scale ≡ 1 }
    requires left { pen.now.left ≤ start }
    requires right { start + 3 ≤ pen.now.right }
    ensures { IsLaid pen.now (row_dots pen.now (pos start) bits) row.old row.new painted.old painted.new }
{
    lay_pixel(row, start, bits.left, color, painted);
    lay_pixel(row, start + 1, bits.middle, color, painted);
    lay_pixel(row, start + 2, bits.right, color, painted);
}

/// Writes one pixel, if the bit is set.
#[inline(always)]
fn lay_pixel<P: Ledger>(row: &mut [u32], at: usize, set: bool, color: u32, painted: &mut Steps<P>)
    requires { at < length row.old }
    ensures row { row.new ≡ (if set then slice_set row.old at color else row.old) }
    ensures count { painted.new ≡ painted.old + (if set then 1 else 0) }
{
    if set {
        row[at] = color;
        painted.add(1);
    }
}
