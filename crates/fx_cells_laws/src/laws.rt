//! The laws of texts that wrap.
ghost use Rattle.std.specs.Prelude.{◌≡◌, ◌≤◌, ℕ, List, length};
ghost use Rattle.fx_cells.specs.Columns.{cells_of};
ghost use Rattle.fx_cells.specs.Wrapping.{IsWrapping};
ghost use Rattle.fx_cells_laws.specs.Lines.{HasLines};

/// Each text wraps at each number of columns.
pub fn each_text_wraps()
    ensures { (columns : ℕ) (text : List ℕ) → (ranges : List (ℕ × ℕ)) × IsWrapping columns text ranges }
{}

/// So it has a number of lines there, and only one.
pub fn lines_are_counted()
    ensures some { (columns : ℕ) (text : List ℕ) → (lines : ℕ) × HasLines columns text lines }
    ensures one { (columns : ℕ) (text : List ℕ) (a b : ℕ) → HasLines columns text a → HasLines columns text b → a ≡ b }
{}

/// A text has a line at least, and no more lines than characters; a text that fits is one line.
pub fn lines_are_few()
    ensures least { (columns : ℕ) (text : List ℕ) (lines : ℕ) → HasLines columns text lines → 1 ≤ lines }
    ensures most { (columns : ℕ) (text : List ℕ) (lines : ℕ) → HasLines columns text lines → 1 ≤ length text
        → lines ≤ length text }
    ensures fits { (columns : ℕ) (text : List ℕ) (lines : ℕ) → HasLines columns text lines
        → cells_of text ≤ columns → lines ≡ 1 }
{}
