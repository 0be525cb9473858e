//! What ties updates to styles from nothing.
ghost use Rattle.std.specs.Prelude.{◌≡◌, ◌≤◌, ◌<◌, ℕ, List, length, slice_get, Some};
ghost use Rattle.std.specs.Option.{option_map};
ghost use Rattle.fx_kinds.specs.declared.facts.StyleFacts.{StyleFacts as Facts};
ghost use Rattle.fx_css_types.specs.declared.sheets.SheetAt.{SheetAt as Sheet};
ghost use Rattle.fx_select.specs.Chains.{ParentsStandBefore, chain};
ghost use Rattle.fx_style.specs.Kept.{Kept as State, entry, entry_in};
ghost use Rattle.fx_style.specs.Rules.{AreKept, AreRight, IsUpdate, kept_of, matching_nodes, needs, style_of, winner_at, worked};
ghost use Rattle.fx_cascade.specs.Sources.{IsBest, NameEachRuleOnce};
ghost use Rattle.fx_cascade.specs.declared.sources.Source.{Source as Speaker};
ghost use Rattle.fx_look.specs.declared.styles.CodeValue.{CodeValue as CodeGiven};

/// Where what is kept of each node that isn't listed is its style from nothing, an update gives every node its style
/// from nothing.
pub fn updates_agree()
    ensures { (sheets : List Sheet) (facts : List Facts) (restyle : List ℕ) (old new : State)
        → ParentsStandBefore facts → AreRight sheets facts restyle old → IsUpdate sheets facts restyle old new
        → (at : ℕ) (node : Facts) → slice_get facts at ≡ Some node
        → entry_in new.looks new.rest at ≡ option_map (entry node.key) (style_of sheets facts at) }
{}

/// Where something is kept of each node that isn't listed, no more nodes are styled than are listed.
pub fn few_are_worked()
    ensures { (facts : List Facts) (restyle : List ℕ) (kept : State) → AreKept facts restyle kept
        → worked (needs restyle (kept_of kept facts)) (length facts) ≤ length restyle }
{}

/// A node has the same style from nothing where it and its ancestors have the same facts.
pub fn same_ancestors_same_style()
    ensures { (sheets : List Sheet) (old new : List Facts) → ParentsStandBefore old → ParentsStandBefore new
        → (i j : ℕ) → i < length old → j < length new → chain old i ≡ chain new j
        → style_of sheets old i ≡ style_of sheets new j }
{}

/// What wins a property of a node stays the same where the node and its ancestors have the same facts.
pub fn same_ancestors_same_winners()
    ensures { (sheets : List Sheet) (old new : List Facts) → ParentsStandBefore old → ParentsStandBefore new
        → (i j : ℕ) → i < length old → j < length new → chain old i ≡ chain new j
        → (name : List ℕ) → winner_at sheets old i name ≡ winner_at sheets new j name }
{}

/// The rules that match a node name each rule once.
pub fn matches_name_each_rule_once()
    ensures { (sheets : List Sheet) (nodes : List Facts) → NameEachRuleOnce (matching_nodes sheets nodes) }
{}

/// One thing wins a property of a node, if anything does: there is one greatest of all that speaks for it.
pub fn one_winner()
    ensures { (sheets : List Sheet) (nodes : List Facts) (codes : List CodeGiven) (name : List ℕ)
        (one other : Speaker) → IsBest sheets (matching_nodes sheets nodes) codes name one
        → IsBest sheets (matching_nodes sheets nodes) codes name other → one ≡ other }
{}
