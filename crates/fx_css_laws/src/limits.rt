//! The laws of the places that are told of what is past a limit.
ghost use Rattle.std.specs.Prelude.{◌≡◌, ℕ, List, Some};
ghost use Rattle.fx_base.specs.declared.positions.Position.{Position};
ghost use Rattle.fx_css_parts.specs.declared.ReadDeclaration.{ReadDeclaration as ReadEntry};
ghost use Rattle.fx_css_parts.specs.declared.Selectors.{Selectors as ReadChains};
ghost use Rattle.fx_css_parts.specs.Parts.{declaration_at, selectors_at};
ghost use Rattle.fx_css.specs.declared.declarations.Kept.{Kept as KeptEntry};
ghost use Rattle.fx_css.specs.Pieces.{past_declarations};
ghost use Rattle.fx_css.specs.Rules.{Reading, past_rules};
ghost use Rattle.fx_css.specs.Sheets.{IsFirstNumber, IsPastLimit};
ghost use Rattle.fx_css_laws.specs.Counts.{IsPastDeclaration, IsPastRule};
ghost use Rattle.fx_css_laws.specs.Layers.{IsNinthLayer};
ghost use Rattle.fx_css_laws.specs.Places.{IsSheetPlace, IsStylePlace};
ghost use Rattle.fx_css_laws.specs.Selectors.{IsFirstPast};
ghost use Rattle.fx_css_laws.specs.Styles.{IsPastStyle};

/// Where a declaration is read that tells a place past its limit, its ninth layer begins there: the text before the
/// place spells just eight layers, and behind them a comma.
pub fn ninth_layers_are_told()
    ensures { (text : List ℕ) (r : ReadEntry) (at : ℕ) → declaration_at text ≡ Some r → r.past ≡ Some at
        → IsNinthLayer text r.declaration at }
{}

/// Where selectors are read that tell a place past a limit, the text before the place spells either just 64 selectors
/// and a comma, or selectors of which the last has just 16 compounds, and a combinator, all of them within both limits.
pub fn first_selectors_past_are_told()
    ensures { (text : List ℕ) (r : ReadChains) (at : ℕ) → selectors_at text ≡ Some r → r.past ≡ Some at
        → IsFirstPast 64 text r.selectors at }
{}

/// The first number that is told of the declarations of a body is that of the 257th one, or of the ninth layer of one
/// before it, and no declaration before that one has a ninth layer.
pub fn first_declarations_past_are_told()
    ensures { (all : List KeptEntry) (number : ℕ) → IsFirstNumber (past_declarations 0 all) number
        → IsPastDeclaration 256 all number }
{}

/// The first number that is told of the rules of a sheet is that of the 4,097th one, or the first one within a rule
/// before it, and nothing is told of the rules before that one.
pub fn first_rules_past_are_told()
    ensures { (all : List Reading) (number : ℕ) → IsFirstNumber (past_rules 0 all) number
        → IsPastRule 4096 all number }
{}

/// The position where a text is first past a limit is that of this declaration or rule, or of a part of it.
pub fn positions_past_are_told()
    ensures style { (text : List ℕ) (position : Position) → IsPastStyle text position → IsStylePlace text position }
    ensures sheet { (file : ℕ) (text : List ℕ) (position : Position) → IsPastLimit file text position
        → IsSheetPlace text position }
{}
