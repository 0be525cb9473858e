//! The laws of texts of sheets and of a `style`.
ghost use Rattle.std.specs.Prelude.{◌≡◌, ◌⊎◌, ℕ, List, []};
ghost use Rattle.fx_base.specs.declared.positions.Place.{Place};
ghost use Rattle.fx_base.specs.declared.positions.Position.{Position};
ghost use Rattle.fx_css_types.specs.declared.sheets.Rule.{Rule};
ghost use Rattle.fx_css.specs.Sheets.{IsPastLimit, IsSheetText, IsStyleText};
ghost use Rattle.fx_css_laws.specs.Styles.{IsPastStyle, IsSheet, IsStyle};

/// The text of a `style` is read as one rule, with one list of what is dropped and one of what is past a limit.
pub fn styles_are_read_in_one_way()
    ensures { (text : List ℕ) (rules others : List Rule) (warnings more past beyond : List Place)
        → IsStyleText text rules warnings past → IsStyleText text others more beyond
        → (rules ≡ others) × (warnings ≡ more) × (past ≡ beyond) }
{}

/// Every text of a `style` is read.
pub fn every_style_is_read()
    ensures { (text : List ℕ) → (rules : List Rule) × (warnings : List Place) × (past : List Place)
        × IsStyleText text rules warnings past }
{}

/// The text of a `style` is within its limits or has a place where it is past one, and not both; and it has one such
/// place.
pub fn styles_are_kept_or_past()
    ensures some { (text : List ℕ) → IsStyle text ⊎ ((position : Position) × IsPastStyle text position) }
    ensures apart { (text : List ℕ) (position : Position) → IsStyle text → IsPastStyle text position → ⊥ }
    ensures one { (text : List ℕ) (p q : Position) → IsPastStyle text p → IsPastStyle text q → p ≡ q }
{}

/// So it is with the text of a sheet.
pub fn texts_are_kept_or_past()
    ensures some { (file : ℕ) (text : List ℕ)
        → IsSheet file text ⊎ ((position : Position) × IsPastLimit file text position) }
    ensures apart { (file : ℕ) (text : List ℕ) (position : Position) → IsSheet file text
        → IsPastLimit file text position → ⊥ }
    ensures one { (file : ℕ) (text : List ℕ) (p q : Position) → IsPastLimit file text p → IsPastLimit file text q
        → p ≡ q }
{}
