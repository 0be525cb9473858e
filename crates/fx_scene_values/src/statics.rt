//! Constraints, which are static properties of panes.
ghost use Rattle.std.specs.Prelude.{◌≡◌, IfOk, map};
ghost use Rattle.fx_kinds.specs.ConstraintRows.{constraint_entry};
ghost use Rattle.fx_scene_values.specs.Statics as spec;
ghost use Rattle.fx_scene_things.specs.Known.{known};
ghost use Rattle.fx_scene_values.specs.Views.{scope_view};

use crate::forms::form_of;
use crate::scopes::Scope;
use crate::values::{Given, value_in};
use fx_base::{Text, Value};
use fx_kinds::{ConstraintRow, constraint_of};
use fx_scene_acts::Deed;
use fx_scene_flaws::Flaw;
use fx_scene_names::lacks_owner;
use fx_scene_plan::PlannedStep;
use fx_scene_things::Names;
use std::alloc::{AllocError, Global};

/// What the attribute of this name and text asks for, where these names are known.
#[tactic(auto, unfolding(crate::specs::Statics::static_deed))]
pub fn static_deed(
    alloc: Global,
    scope: &Scope<'_>,
    names: &Names,
    node: usize,
    name: &Text,
    text: &str,
) -> Result<Deed, AllocError>
    ensures { IfOk result (λ deed. deed
        ≡ spec.static_deed (scope_view scope.now) (known names.now) node name.now text.now) }
{
    if lacks_owner(scope.imports, name.as_str()) {
        return Ok(Deed::Flaw(Flaw::Import));
    }
    match constraint_of(name.as_str()) {
        Some(row) => row_deed(alloc, scope, names, node, name, row, text),
        None => Ok(Deed::Flaw(Flaw::Property)),
    }
}

fn row_deed(
    alloc: Global,
    scope: &Scope<'_>,
    names: &Names,
    node: usize,
    name: &Text,
    row: ConstraintRow,
    text: &str,
) -> Result<Deed, AllocError>
    ensures { IfOk result (λ deed. deed
        ≡ spec.row_deed (scope_view scope.now) (known names.now) node name.now (constraint_entry row) text.now) }
{
    let given = value_in(alloc, scope, names, row.kind, form_of(text))?;
    static_given(alloc, node, name, &row, given)
}

/// What giving the constraint a value asks for.
pub fn static_given(
    alloc: Global,
    node: usize,
    name: &Text,
    row: &ConstraintRow,
    given: Given,
) -> Result<Deed, AllocError>
    ensures { IfOk result (λ deed. deed ≡ spec.given_deed node name.now (constraint_entry row.now) given) }
{
    match given {
        Given::Flaw(flaw) => Ok(Deed::Flaw(flaw)),
        Given::Value(value) => {
            if !is_in_range(row, &value) {
                return Ok(Deed::Flaw(Flaw::Value));
            }
            let name = name.copy(alloc)?;
            Ok(Deed::Step(PlannedStep::Constraint(node, name, value)))
        }
    }
}

fn is_in_range(row: &ConstraintRow, value: &Value) -> bool
    ensures { result ≡ spec.is_in_range (constraint_entry row.now) value.now }
{
    match (row.range, value) {
        (Some((least, greatest)), Value::Int(number)) => least <= *number && *number <= greatest,
        _ => true,
    }
}
