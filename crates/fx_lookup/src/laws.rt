//! What a looked-up colour is.
ghost use Rattle.std.specs.Prelude.{◌≡◌, ◌↔◌, ◌≤◌, ℕ, List, Some, []};
ghost use Rattle.fx_base.specs.declared.color.Color.{Color as Rgba};
ghost use Rattle.fx_lookup.specs.declared.named.NamedPaint.{NamedPaint as Painted};
ghost use Rattle.fx_lookup.specs.Lookups.{LeadsTo, resolved, resolved_in, steps_in};

/// The function gives just the colour that the name leads to.
pub fn resolving_is_finding()
    ensures { (chain : List (List Painted)) (name : List ℕ) (color : Rgba)
        → (resolved chain name ≡ Some color) ↔ LeadsTo chain [] name color }
{}

/// A name leads to one colour at most.
pub fn one_color()
    ensures { (chain : List (List Painted)) (name : List ℕ) (one other : Rgba)
        → LeadsTo chain [] name one → LeadsTo chain [] name other → one ≡ other }
{}

/// The number of steps is no limit: any greater number gives the same.
pub fn more_steps_change_nothing()
    ensures { (most : ℕ) (chain : List (List Painted)) (name : List ℕ)
        → steps_in chain ≤ most → resolved_in most chain [] name ≡ resolved chain name }
{}
