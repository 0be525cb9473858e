//! The laws of the tables.
ghost use Rattle.std.specs.Prelude.{◌≡◌, ◌≤◌, ℕ, true, false, List, [], length, Some, slice_get};
ghost use Rattle.std.specs.List.{Contains};
ghost use Rattle.fx_base.specs.declared.values.Value.{Value as Held};
ghost use Rattle.fx_base.specs.Printing.{kind_of};
ghost use Rattle.fx_kinds.specs.declared.classes.Class.{Class as ClassName};
ghost use Rattle.fx_kinds.specs.Classes.{is_control, is_node};
ghost use Rattle.fx_kinds.specs.Constraints.{ConstraintEntry, constraints, TakesValue};
ghost use Rattle.fx_kinds.specs.Properties.{ListedProperty, PropertyRow, initial_of, properties_of, rows};

/// What a property holds before anything sets it is of the property's kind.
pub fn initial_values_have_their_kinds()
    ensures rows { (row : PropertyRow) → Contains rows row → (class : ClassName)
        → kind_of (row.initial class) ≡ row.kind }
    ensures listed { (class : ClassName) (place : ℕ) (p : ListedProperty) (v : Held)
        → slice_get (properties_of class) place ≡ Some p → initial_of class place ≡ Some v → kind_of v ≡ p.kind }
{}

/// A class has at most twenty properties, as many as a control has; one of nodes has fifteen at least, and any other
/// class has none.
pub fn classes_have_few_properties()
    ensures most { (class : ClassName) → length (properties_of class) ≤ 20 }
    ensures control { (class : ClassName) → is_control class ≡ true → length (properties_of class) ≡ 20 }
    ensures node { (class : ClassName) → is_node class ≡ true → 15 ≤ length (properties_of class) }
    ensures other { (class : ClassName) → is_node class ≡ false → properties_of class ≡ [] }
{}

/// Properties of one name are one property, whatever class has them: they have one kind, may be set or not, and are
/// styled by one declaration.
pub fn one_property_a_name()
    ensures rows { (a b : PropertyRow) → Contains rows a → Contains rows b → a.name ≡ b.name → a ≡ b }
    ensures listed { (class other : ClassName) (i j : ℕ) (p q : ListedProperty)
        → slice_get (properties_of class) i ≡ Some p → slice_get (properties_of other) j ≡ Some q
        → p.name ≡ q.name → p ≡ q }
{}

/// What counts where a constraint isn't set is a value that the constraint takes.
pub fn defaults_are_taken()
    ensures { (entry : ConstraintEntry) → Contains constraints entry → (v : Held) → entry.default ≡ Some v
        → TakesValue entry v }
{}
