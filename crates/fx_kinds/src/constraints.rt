//! The constraints that a pane reads of its children, as documents name them.
//! Loaders read their values by this table.
ghost use Rattle.std.specs.Prelude.{◌≡◌, ◌↔◌, Some, IfOk, IfSome, IfNone, IsTrue, map, ℕ, List};
ghost use Rattle.std.specs.Option.{option_map};
ghost use Rattle.std.specs.List.{Contains, find};
ghost use Rattle.std.specs.Str.{bytes_eq};
ghost use Rattle.fx_base.specs.declared.values.Value.{Value as Property};
ghost use Rattle.fx_kinds.specs.Constraints.{ConstraintEntry, constraint_named, constraints, is_in_range, TakesValue, IsConstraintValue};
ghost use Rattle.fx_kinds.specs.ConstraintRows.{constraint_entry};

use crate::presets::Preset;
use fx_base::{Family, Kind, Value};
use fx_look::read_value;
use std::alloc::{AllocError, Global};

/// A constraint of a child (JavaFX 21 API, the static setters of the panes).
#[derive(Clone, Copy, Debug)]
pub struct ConstraintRow {
    /// The class and the name, as in `HBox.hgrow`.
    pub name: &'static str,
    pub kind: Kind,
    /// The least and the greatest number, where not every number will do.
    pub range: Option<(i64, i64)>,
    /// What counts where the constraint isn't set, if something does.
    pub default: Option<Preset>,
}

/// Places of rows and columns are counted from 0.
const INDEX: Option<(i64, i64)> = Some((0, 255));

/// How many rows or columns a child may span.
const SPAN: Option<(i64, i64)> = Some((1, 64));

static CONSTRAINTS: &[ConstraintRow] = &[
    ConstraintRow {
        name: "HBox.hgrow",
        kind: Kind::Choice(Family::Priority),
        range: None,
        default: Some(Preset::Choice(Family::Priority, 0)),
    },
    ConstraintRow {
        name: "VBox.vgrow",
        kind: Kind::Choice(Family::Priority),
        range: None,
        default: Some(Preset::Choice(Family::Priority, 0)),
    },
    ConstraintRow {
        name: "GridPane.hgrow",
        kind: Kind::Choice(Family::Priority),
        range: None,
        default: None,
    },
    ConstraintRow {
        name: "GridPane.vgrow",
        kind: Kind::Choice(Family::Priority),
        range: None,
        default: None,
    },
    ConstraintRow {
        name: "HBox.margin",
        kind: Kind::Sides,
        range: None,
        default: Some(Preset::EvenSides(0)),
    },
    ConstraintRow {
        name: "VBox.margin",
        kind: Kind::Sides,
        range: None,
        default: Some(Preset::EvenSides(0)),
    },
    ConstraintRow {
        name: "BorderPane.margin",
        kind: Kind::Sides,
        range: None,
        default: Some(Preset::EvenSides(0)),
    },
    ConstraintRow {
        name: "StackPane.margin",
        kind: Kind::Sides,
        range: None,
        default: Some(Preset::EvenSides(0)),
    },
    ConstraintRow {
        name: "GridPane.margin",
        kind: Kind::Sides,
        range: None,
        default: Some(Preset::EvenSides(0)),
    },
    ConstraintRow {
        name: "BorderPane.alignment",
        kind: Kind::Choice(Family::Pos),
        range: None,
        default: None,
    },
    ConstraintRow {
        name: "StackPane.alignment",
        kind: Kind::Choice(Family::Pos),
        range: None,
        default: None,
    },
    ConstraintRow {
        name: "AnchorPane.topAnchor",
        kind: Kind::Int,
        range: None,
        default: None,
    },
    ConstraintRow {
        name: "AnchorPane.rightAnchor",
        kind: Kind::Int,
        range: None,
        default: None,
    },
    ConstraintRow {
        name: "AnchorPane.bottomAnchor",
        kind: Kind::Int,
        range: None,
        default: None,
    },
    ConstraintRow {
        name: "AnchorPane.leftAnchor",
        kind: Kind::Int,
        range: None,
        default: None,
    },
    ConstraintRow {
        name: "GridPane.rowIndex",
        kind: Kind::Int,
        range: INDEX,
        default: Some(Preset::Int(0)),
    },
    ConstraintRow {
        name: "GridPane.columnIndex",
        kind: Kind::Int,
        range: INDEX,
        default: Some(Preset::Int(0)),
    },
    ConstraintRow {
        name: "GridPane.rowSpan",
        kind: Kind::Int,
        range: SPAN,
        default: Some(Preset::Int(1)),
    },
    ConstraintRow {
        name: "GridPane.columnSpan",
        kind: Kind::Int,
        range: SPAN,
        default: Some(Preset::Int(1)),
    },
    ConstraintRow {
        name: "GridPane.halignment",
        kind: Kind::Choice(Family::HPos),
        range: None,
        default: None,
    },
    ConstraintRow {
        name: "GridPane.valignment",
        kind: Kind::Choice(Family::VPos),
        range: None,
        default: None,
    },
    ConstraintRow {
        name: "GridPane.fillWidth",
        kind: Kind::Bool,
        range: None,
        default: Some(Preset::Bool(true)),
    },
    ConstraintRow {
        name: "GridPane.fillHeight",
        kind: Kind::Bool,
        range: None,
        default: Some(Preset::Bool(true)),
    },
];

/// The constraint of this name.
pub fn constraint_of(name: &str) -> Option<ConstraintRow>
    ensures { option_map constraint_entry result ≡ constraint_named name.now }
{
    find_entry(constraint_table(), name)
}

/// The value of the constraint of this name that the text spells: of the constraint's kind and in its range, or none.
pub fn constraint_value(alloc: Global, name: &str, text: &str) -> Result<Option<Value>, AllocError>
    ensures found { IfOk result (λ o. IfSome o (IsConstraintValue name.now text.now)) }
    ensures none { IfOk result (λ o. IfNone o ((v : Property) → IsConstraintValue name.now text.now v → ⊥)) }
{
    let row = match constraint_of(name) {
        Some(row) => row,
        None => return Ok(None),
    };
    match read_value(alloc, row.kind, text)? {
        Some(value) => {
            if is_in_range(row.range, &value) {
                Ok(Some(value))
            } else {
                Ok(None)
            }
        }
        None => Ok(None),
    }
}

/// One text spells one value of a constraint at most.
pub fn one_constraint_value()
    ensures { (name text : List ℕ) (v w : Property) → IsConstraintValue name text v → IsConstraintValue name text w
        → v ≡ w }
{}

impl ConstraintRow {
    /// Is it a value of the constraint's kind and in its range?
    pub fn takes(&self, value: &Value) -> bool
        ensures { IsTrue result ↔ TakesValue (constraint_entry self.now) value.now }
    {
        value.kind() == self.kind && is_in_range(self.range, value)
    }
}

fn is_in_range(range: Option<(i64, i64)>, value: &Value) -> bool
    ensures { result ≡ is_in_range range value.now }
{
    match (range, value) {
        (Some((least, greatest)), Value::Int(number)) => least <= *number && *number <= greatest,
        _ => true,
    }
}

/// The constraints in their order.
pub fn constraint_table() -> &'static [ConstraintRow]
    ensures { map constraint_entry result.now ≡ constraints }
{
    CONSTRAINTS
}

/// Each constraint is found by its own name, so no two share one.
pub fn each_constraint_named()
    ensures { (e : ConstraintEntry) → Contains constraints e → constraint_named e.name ≡ Some e }
{}

fn find_entry(table: &[ConstraintRow], name: &str) -> Option<ConstraintRow>
    ensures { option_map constraint_entry result
        ≡ find (λ (e : ConstraintEntry). bytes_eq e.name name.now) (map constraint_entry table.now) }
{
    find_row(table, name)
}

fn find_row(table: &[ConstraintRow], name: &str) -> Option<ConstraintRow>
    ensures { result ≡ find (λ row. bytes_eq row.name.now name.now) table.now }
{
    table.iter().copied().find(|row| row.name == name)
}
