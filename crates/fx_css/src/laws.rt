//! Laws of reading: each text is read in one way, and in no other.
//! The layers above may take what is read as a function of the text.
ghost use Rattle.std.specs.Prelude.{◌≡◌, ℕ, List};
ghost use Rattle.fx_base.specs.declared.positions.Place.{Place};
ghost use Rattle.fx_css_types.specs.declared.sheets.Rule.{Rule};
ghost use Rattle.fx_css.specs.Sheets.{IsSheetText};

/// A text is read as one list of rules, with one list of what is dropped and one of what is past a limit.
pub fn texts_are_read_in_one_way()
    ensures { (file : ℕ) (text : List ℕ) (rules others : List Rule) (warnings more past beyond : List Place)
        → IsSheetText file text rules warnings past → IsSheetText file text others more beyond
        → (rules ≡ others) × (warnings ≡ more) × (past ≡ beyond) }
{}

/// Every text is read: no text is without rules, if only the empty list of them.
pub fn every_text_is_read()
    ensures { (file : ℕ) (text : List ℕ)
        → (rules : List Rule) × (warnings : List Place) × (past : List Place)
        × IsSheetText file text rules warnings past }
{}
