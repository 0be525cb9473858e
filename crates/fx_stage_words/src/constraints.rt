//! What a text makes of a constraint.
ghost use Rattle.std.specs.Prelude.{◌≡◌, IfOk};
ghost use Rattle.fx_kinds.specs.ConstraintRows.{constraint_entry};
ghost use Rattle.fx_look.specs.Readings.{value_at};
ghost use Rattle.fx_stage_model.specs.Dressing as spec;

use fx_base::{Kind, Text, Value};
use fx_kinds::{Constraint, ConstraintRow};
use fx_look::read_value;
use fx_stage_types::NodeEdit;
use std::alloc::{AllocError, Global};

/// What the text makes of the constraint of this name and row, if it spells a value of it or nothing.
pub fn constraint_edit(
    alloc: Global,
    name: &Text,
    row: &ConstraintRow,
    text: &str,
) -> Result<Option<NodeEdit>, AllocError>
    ensures { IfOk result (λ o. o ≡ spec.constraint_edit name.now (constraint_entry row.now) text.now) }
{
    if text.is_empty() {
        return Ok(Some(NodeEdit::RemoveConstraint(name.copy(alloc)?)));
    }
    match constraint_at(alloc, row, text)? {
        None => Ok(None),
        Some(value) => Ok(Some(NodeEdit::PutConstraint(Constraint {
            name: name.copy(alloc)?,
            value,
        }))),
    }
}

/// The value of the row's kind and in its range that the text spells.
fn constraint_at(
    alloc: Global,
    row: &ConstraintRow,
    text: &str,
) -> Result<Option<Value>, AllocError>
    ensures { IfOk result (λ o. o ≡ spec.constraint_at (constraint_entry row.now) text.now) }
{
    match read(alloc, row.kind, text)? {
        None => Ok(None),
        Some(value) => {
            if row.takes(&value) {
                Ok(Some(value))
            } else {
                Ok(None)
            }
        }
    }
}

/// The value of the kind that the text spells, if there is one.
pub fn read(alloc: Global, kind: Kind, text: &str) -> Result<Option<Value>, AllocError>
    ensures { IfOk result (λ found. found ≡ value_at kind text.now) }
{
    read_value(alloc, kind, text)
}
