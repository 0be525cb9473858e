//! The laws of a layout of a scene and of the subtrees in it.
ghost use Rattle.std.specs.Prelude.{◌≡◌, ◌<◌, ℕ, Bool, List, Option, length, map, true};
ghost use Rattle.fx_kinds.specs.declared.facts.BoxFacts.{BoxFacts as Facts};
ghost use Rattle.fx_look.specs.declared.looks.Look.{Look as Style};
ghost use Rattle.fx_panes_parts.specs.declared.axes.Extent.{Extent as Lengths};
ghost use Rattle.fx_layout_sweeps.specs.Nodes.{AreNodes, extent_at, places_at, span_at};
ghost use Rattle.fx_layout.specs.Layouts.{IsLayout};
ghost use Rattle.fx_layout.specs.Updates.{Kept as State};
ghost use Rattle.fx_layout_laws.specs.Alike.{AreAlike};
ghost use Rattle.fx_layout_laws.specs.Trees.{AreRectsBy, IsHighBy, IsWideBy};

/// Nodes of two scenes whose subtrees are alike have the same widths.
pub fn alike_widths()
    ensures { (alike : ℕ → ℕ → Bool) (ones others : List Facts) (one_looks other_looks : List Style)
        (one_window other_window : Option (ℕ × ℕ)) (one other : State) → AreNodes ones → AreNodes others
        → IsLayout ones one_looks one_window one → IsLayout others other_looks other_window other
        → AreAlike alike ones one_looks others other_looks → (i j : ℕ) → alike i j ≡ true
        → extent_at one.widths i ≡ extent_at other.widths j }
{}

/// Nodes of two scenes whose subtrees are alike have the same heights where they are as wide.
pub fn alike_heights()
    ensures { (alike : ℕ → ℕ → Bool) (ones others : List Facts) (one_looks other_looks : List Style)
        (one_window other_window : Option (ℕ × ℕ)) (one other : State) → AreNodes ones → AreNodes others
        → IsLayout ones one_looks one_window one → IsLayout others other_looks other_window other
        → AreAlike alike ones one_looks others other_looks → (i j : ℕ) → alike i j ≡ true
        → (span_at one.across i).length ≡ (span_at other.across j).length
        → extent_at one.heights i ≡ extent_at other.heights j }
{}

/// The children of nodes whose subtrees are alike stand at the same places in them where they have the same size, and
/// across already where they are as wide.
pub fn alike_places()
    ensures across { (alike : ℕ → ℕ → Bool) (ones others : List Facts) (one_looks other_looks : List Style)
        (one_window other_window : Option (ℕ × ℕ)) (one other : State) → AreNodes ones → AreNodes others
        → IsLayout ones one_looks one_window one → IsLayout others other_looks other_window other
        → AreAlike alike ones one_looks others other_looks → (i j : ℕ) → alike i j ≡ true
        → (span_at one.across i).length ≡ (span_at other.across j).length
        → map (span_at one.across) (places_at one.children i)
        ≡ map (span_at other.across) (places_at other.children j) }
    ensures down { (alike : ℕ → ℕ → Bool) (ones others : List Facts) (one_looks other_looks : List Style)
        (one_window other_window : Option (ℕ × ℕ)) (one other : State) → AreNodes ones → AreNodes others
        → IsLayout ones one_looks one_window one → IsLayout others other_looks other_window other
        → AreAlike alike ones one_looks others other_looks → (i j : ℕ) → alike i j ≡ true
        → (span_at one.across i).length ≡ (span_at other.across j).length
        → (span_at one.down i).length ≡ (span_at other.down j).length
        → map (span_at one.down) (places_at one.children i) ≡ map (span_at other.down) (places_at other.children j) }
{}

/// The widths of a node in a layout are those that recursion over the tree below it gives, and it gives no others.
pub fn widths_by_tree()
    ensures are { (nodes : List Facts) (looks : List Style) (window : Option (ℕ × ℕ)) (all : State) → AreNodes nodes
        → IsLayout nodes looks window all → (p : ℕ) → p < length nodes
        → IsWideBy (length nodes) nodes looks p (extent_at all.widths p) }
    ensures only { (nodes : List Facts) (looks : List Style) (window : Option (ℕ × ℕ)) (all : State) → AreNodes nodes
        → IsLayout nodes looks window all → (p : ℕ) → p < length nodes → (deep : ℕ) (widths : Lengths)
        → IsWideBy deep nodes looks p widths → widths ≡ extent_at all.widths p }
{}

/// So are its heights in the width that it has.
pub fn heights_by_tree()
    ensures are { (nodes : List Facts) (looks : List Style) (window : Option (ℕ × ℕ)) (all : State) → AreNodes nodes
        → IsLayout nodes looks window all → (p : ℕ) → p < length nodes
        → IsHighBy (length nodes) nodes looks p (span_at all.across p).length (extent_at all.heights p) }
    ensures only { (nodes : List Facts) (looks : List Style) (window : Option (ℕ × ℕ)) (all : State) → AreNodes nodes
        → IsLayout nodes looks window all → (p : ℕ) → p < length nodes → (deep : ℕ) (heights : Lengths)
        → IsHighBy deep nodes looks p (span_at all.across p).length heights → heights ≡ extent_at all.heights p }
{}

/// The rectangles of a layout are those of recursion over the tree from its root.
pub fn rects_by_tree()
    ensures { (nodes : List Facts) (looks : List Style) (window : Option (ℕ × ℕ)) (all : State) → 0 < length nodes
        → AreNodes nodes → IsLayout nodes looks window all → AreRectsBy nodes looks window all.rects }
{}
