//! What explanations tell of the cascade.
ghost use Rattle.std.specs.Prelude.{◌≡◌, ℕ, List, Some, true};
ghost use Rattle.fx_look.specs.declared.styles.CodeValue.{CodeValue as CodeGiven};
ghost use Rattle.fx_css_types.specs.declared.sheets.SheetAt.{SheetAt as Sheet};
ghost use Rattle.fx_css_types.specs.declared.sheets.Candidate.{Candidate as Match};
ghost use Rattle.fx_cascade.specs.declared.sources.Source.{Source as Speaker};
ghost use Rattle.fx_cascade.specs.Ranks.{is_below};
ghost use Rattle.fx_cascade.specs.Sources.{IsBest, NameEachRuleOnce, best_source};
ghost use Rattle.fx_explain.specs.declared.explained.Explained.{Explained as Told};
ghost use Rattle.fx_explain.specs.Cuts.{IsCut, cut_of};
ghost use Rattle.fx_explain.specs.Explained.{IsExplained};

/// The winner that is told is the greatest of all that speaks, and where each rule that matches is named once, the
/// cascade's.
pub fn the_winner_is_the_best()
    ensures greatest { (sheets : List Sheet) (matched : List Match) (codes : List CodeGiven) (name : List ℕ)
        (told : Told) (best : Speaker) → IsExplained sheets matched codes name told → told.winner ≡ Some best
        → IsBest sheets matched codes name best }
    ensures same { (sheets : List Sheet) (matched : List Match) (codes : List CodeGiven) (name : List ℕ)
        (told : Told) → NameEachRuleOnce matched → IsExplained sheets matched codes name told
        → told.winner ≡ best_source sheets matched codes name }
{}

/// One that is below the winner is less in the part that is told, and the same in each part before it.
pub fn cuts_are_the_first()
    ensures { (matched : List Match) (winner loser : Speaker) → is_below matched loser winner ≡ true
        → IsCut matched winner loser (cut_of matched winner loser) }
{}

/// There is one explanation, where each rule that matches is named once.
pub fn one_explanation()
    ensures { (sheets : List Sheet) (matched : List Match) (codes : List CodeGiven) (name : List ℕ)
        (told other : Told) → NameEachRuleOnce matched → IsExplained sheets matched codes name told
        → IsExplained sheets matched codes name other → told ≡ other }
{}
