//! What painting asks of a character: its cells, and the bits of a row of its glyph.
ghost use Rattle.std.specs.Prelude.{◌≡◌, ◌≤◌, ◌<◌, true};
ghost use Rattle.fx_cells.specs.Columns.{cell_width};
ghost use Rattle.fx_pens.specs.Dots.{bits_of};

use crate::runs::Bits;
use unicode_width::UnicodeWidthChar;

/// Whether a character is a printable one of ASCII.
#[inline(always)]
pub(crate) fn is_plain(c: char) -> bool
    ensures { result ≡ true → cell_width c ≡ 1 }
{
    ' ' <= c && c <= '~'
}

/// The cells of one character.
#[inline(always)]
pub(crate) fn width_of(c: char) -> u64
    ensures width { result ≡ cell_width c }
    ensures bound { result ≤ 3 }
{
    if is_plain(c) { 1 } else { found_width(c) }
}

/// The cells of one character, from the tables.
fn found_width(c: char) -> u64
    ensures width { result ≡ cell_width c }
    ensures bound { result ≤ 3 }
{
    c.width().unwrap_or(0) as u64
}

/// The bits of a row of a glyph.
#[inline(always)]
#[tactic(auto, using(crate::proofs::RunLemmas::three_bits))]
pub(crate) fn bits_of(glyph: u16, row: u64) -> Bits
    requires { row < 5 }
    ensures { result ≡ bits_of glyph row }
{
    let three = u64::from(glyph) >> (12 - 3 * row);
    Bits {
        left: three / 4 % 2 == 1,
        middle: three / 2 % 2 == 1,
        right: three % 2 == 1,
    }
}
