//! The law of marks: each text has marks, and only one list of them.
//! The layers above may take the marks as a function of the text.
ghost use Rattle.std.specs.Prelude.{◌≡◌, ℕ, List};
ghost use Rattle.fx_base.specs.declared.positions.Position.{Position};
ghost use Rattle.fx_css_marks.specs.declared.marks.Mark.{Mark};
ghost use Rattle.fx_css_marks.specs.Marks.{Marked};

/// A text has marks, wherever it begins, and no other marks than these.
pub fn texts_are_marked_in_one_way()
    ensures one { (p : Position) (text : List ℕ) (a b : List Mark) → Marked p text a → Marked p text b → a ≡ b }
    ensures some { (p : Position) (text : List ℕ) → (ms : List Mark) × Marked p text ms }
{}
