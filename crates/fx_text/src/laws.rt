//! Laws of the words on texts, each the contract of a function with nothing in it.
ghost use Rattle.std.specs.Prelude.{◌≡◌, ℕ, List};
ghost use Rattle.fx_text.specs.Trimming.{IsTrimmed, trimmed};

/// What stands between the white at the ends of a text is `trimmed`, and nothing else is.
pub fn texts_are_trimmed_in_one_way()
    ensures is { (text : List ℕ) → IsTrimmed text (trimmed text) }
    ensures alone { (text inner : List ℕ) → IsTrimmed text inner → trimmed text ≡ inner }
{}
