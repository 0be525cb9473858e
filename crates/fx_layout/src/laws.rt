//! What ties updates to the layout from nothing.
ghost use Rattle.std.specs.Prelude.{◌≡◌, ◌≤◌, ◌<◌, ℕ, List, Option, length, true};
ghost use Rattle.fx_kinds.specs.declared.facts.BoxFacts.{BoxFacts as Facts};
ghost use Rattle.fx_look.specs.declared.looks.Look.{Look as Style};
ghost use Rattle.fx_layout_sweeps.specs.Nodes.{AreNodes, keys};
ghost use Rattle.fx_layout.specs.Layouts.{AreSame, IsLayout};
ghost use Rattle.fx_layout.specs.Updates.{AreDifferent, IsUpdate, Kept as State, is_listed};

/// Nodes have one layout: the same rectangles in the same window.
pub fn one_layout()
    ensures { (nodes : List Facts) (looks : List Style) (window : Option (ℕ × ℕ)) (one other : State)
        → AreNodes nodes → IsLayout nodes looks window one → IsLayout nodes looks window other
        → one.rects ≡ other.rects }
{}

/// Where every node is listed, an update gives the layout, whatever was kept.
pub fn anew_is_layout()
    ensures { (nodes : List Facts) (looks : List Style) (window : Option (ℕ × ℕ)) (listed : List ℕ)
        (old new : State) → ((p : ℕ) → p < length nodes → is_listed listed p ≡ true)
        → IsUpdate old nodes looks window listed new → IsLayout nodes looks window new }
{}

/// Where the layout of the last nodes is kept, and each node that isn't listed is as it was, an update gives the
/// layout.
pub fn updates_agree()
    ensures { (olds nodes : List Facts) (old_looks looks : List Style) (old_window window : Option (ℕ × ℕ))
        (listed : List ℕ) (old new : State) → AreNodes olds → AreDifferent (keys olds) → AreNodes nodes
        → IsLayout olds old_looks old_window old → AreSame olds old_looks nodes looks listed
        → IsUpdate old nodes looks window listed new → IsLayout nodes looks window new }
{}
