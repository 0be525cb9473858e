//! What the winner of a property is among all that speaks for it.
ghost use Rattle.std.specs.Prelude.{◌≡◌, ◌⊎◌, ℕ, List, Some, None};
ghost use Rattle.fx_look.specs.declared.styles.CodeValue.{CodeValue as CodeGiven};
ghost use Rattle.fx_css_types.specs.declared.sheets.SheetAt.{SheetAt as Sheet};
ghost use Rattle.fx_css_types.specs.declared.sheets.Candidate.{Candidate as Match};
ghost use Rattle.fx_cascade.specs.declared.sources.Source.{Source as Speaker};
ghost use Rattle.fx_cascade.specs.Sources.{IsBest, NameEachRuleOnce, Speaks, best_source};

/// What wins is the greatest of all that speaks.
pub fn best_wins()
    ensures { (sheets : List Sheet) (matched : List Match) (codes : List CodeGiven) (name : List ℕ)
        (best : Speaker) → best_source sheets matched codes name ≡ Some best → IsBest sheets matched codes name best }
{}

/// Where nothing wins, nothing speaks.
pub fn none_speaks()
    ensures { (sheets : List Sheet) (matched : List Match) (codes : List CodeGiven) (name : List ℕ)
        (other : Speaker) → best_source sheets matched codes name ≡ None → Speaks sheets matched codes name other → ⊥ }
{}

/// There is one greatest: no two declarations of rules that are named once have equal keys, and no code value has the
/// key of a declaration.
pub fn one_best()
    ensures { (sheets : List Sheet) (matched : List Match) (codes : List CodeGiven) (name : List ℕ)
        (one other : Speaker) → NameEachRuleOnce matched → IsBest sheets matched codes name one
        → IsBest sheets matched codes name other → one ≡ other }
{}
