//! The columns of a text: how many cells it takes.
//! It stands below the wrapping of lines.
ghost use Rattle.std.specs.Prelude.{◌≡◌, ℕ, ◌<◌, ◌≤◌, chars};
ghost use Rattle.fx_cells.specs.Columns.{cell_width, cells_of};

use unicode_width::UnicodeWidthChar;

/// The cells that a text takes: the sum of the widths of its characters, each by itself, as terminals
/// count them (Unicode Standard Annex 11). Nothing joins: a family of emoji counts each of its members.
pub fn cells(text: &str) -> u64
    ensures { result ≡ cells_of (chars text.now) }
{
    let mut total = 0;
    for c in text.chars() {
        total += width_of(c);
    }
    total
}

/// The cells that one character takes: 0 for a control character and for a mark that combines, else 1 to 3.
pub(crate) fn width_of(c: char) -> u64
    ensures width { result ≡ cell_width c }
    ensures bound { result ≤ 3 }
{
    c.width().unwrap_or(0) as u64
}

/// A control character takes no cell.
pub fn control_characters_take_no_cell()
    ensures low { (c : ℕ) → c < 32 → cell_width c ≡ 0 }
    ensures high { (c : ℕ) → 127 ≤ c → c < 160 → cell_width c ≡ 0 }
{}

/// A printable character of ASCII takes one cell.
pub fn printable_characters_take_one_cell()
    ensures { (c : ℕ) → 32 ≤ c → c < 127 → cell_width c ≡ 1 }
{}
