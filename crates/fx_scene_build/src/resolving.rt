//! Planned steps by the keys and names that they mean.
ghost use Rattle.std.specs.Prelude.{◌≡◌, IfOk};
ghost use Rattle.fx_stage_model.specs.Building.{IsFitStep};
ghost use Rattle.fx_scene_plan.specs.Plans as spec;
ghost use Rattle.fx_scene_plan.specs.Plans.{Says, standing_of};

use fx_base::{List, Name, NodeKey};
use fx_graph_model::Formula;
use fx_scene_plan::{PlannedProperty, PlannedStep};
use fx_stage::Stage;
use fx_stage_types::{BuildStep, Refusal, StageError};
use fx_stage_words::has_operands;
use std::alloc::Global;

/// The step of building that is planned, or the word for why what it names isn't there.
#[tactic(auto, unfolding(fx_scene_plan::specs::Plans::resolved))]
pub fn resolve(
    alloc: Global,
    stage: &Stage,
    keys: &[NodeKey],
    step: PlannedStep,
) -> Result<BuildStep, StageError>
    ensures says { Says (λ found. found) (spec.resolved (standing_of stage.now keys.now) step) result }
    ensures fit { IfOk result IsFitStep }
{
    match step {
        PlannedStep::Node(class) => Ok(BuildStep::Node(class)),
        PlannedStep::Named(node, path) => Ok(BuildStep::Named(key_at(keys, node)?, path)),
        PlannedStep::Root(node) => Ok(BuildStep::Root(key_at(keys, node)?)),
        PlannedStep::Child(pane, child, spot) => Ok(BuildStep::Child(
            key_at(keys, pane)?,
            key_at(keys, child)?,
            spot,
        )),
        PlannedStep::Code(property, value) => {
            Ok(BuildStep::Code(property_at(stage, keys, &property)?, value))
        }
        PlannedStep::Bind(property, formula, operands) => {
            bind(alloc, stage, keys, &property, formula, &operands)
        }
        PlannedStep::Constraint(node, name, value) => {
            Ok(BuildStep::Constraint(key_at(keys, node)?, name, value))
        }
        PlannedStep::Class(node, name) => Ok(BuildStep::Class(key_at(keys, node)?, name)),
        PlannedStep::Inline(node, sheet) => Ok(BuildStep::Inline(key_at(keys, node)?, sheet)),
        PlannedStep::Sheet(node, sheet) => Ok(BuildStep::Sheet(key_if(keys, node)?, sheet)),
        PlannedStep::Convenience(node, on, action) => Ok(BuildStep::Convenience(
            key_at(keys, node)?,
            on,
            action,
        )),
        PlannedStep::Tracks(node, columns, rows) => {
            Ok(BuildStep::Tracks(key_at(keys, node)?, columns, rows))
        }
    }
}

/// The node of this ordinal.
pub(crate) fn key_at(keys: &[NodeKey], node: usize) -> Result<NodeKey, Refusal>
    ensures { result ≡ spec.key_in keys.now node }
{
    match keys.get(node) {
        Some(key) => Ok(*key),
        None => Err(Refusal::Unknown),
    }
}

/// The node of this ordinal, if there is one.
fn key_if(keys: &[NodeKey], node: Option<usize>) -> Result<Option<NodeKey>, Refusal>
    ensures { result ≡ spec.key_if keys.now node }
{
    match node {
        None => Ok(None),
        Some(node) => Ok(Some(key_at(keys, node)?)),
    }
}

/// The name of the property.
#[tactic(auto, unfolding(fx_scene_plan::specs::Plans::property_at))]
fn property_at(stage: &Stage, keys: &[NodeKey], planned: &PlannedProperty) -> Result<Name, Refusal>
    ensures { result ≡ spec.property_at (standing_of stage.now keys.now) planned.now }
{
    let key = key_at(keys, planned.node)?;
    match stage.name_of(key, &planned.property) {
        Some(name) => Ok(name),
        None => Err(Refusal::Property),
    }
}

/// The names of the properties.
fn properties_at(
    alloc: Global,
    stage: &Stage,
    keys: &[NodeKey],
    properties: &[PlannedProperty],
) -> Result<Vec<Name>, StageError>
    ensures { Says (λ names. names.items) (spec.properties_at (standing_of stage.now keys.now) properties.now) result }
{
    let mut names = Vec::with_capacity(alloc, properties.len())?;
    for property in properties {
        names.push(property_at(stage, keys, property)?)?;
    }
    Ok(names)
}

/// The binding of the property to the formula, which has all its operands.
fn bind(
    alloc: Global,
    stage: &Stage,
    keys: &[NodeKey],
    property: &PlannedProperty,
    formula: Formula,
    operands: &List<PlannedProperty>,
) -> Result<BuildStep, StageError>
    ensures says { Says (λ found. found) (spec.bound (standing_of stage.now keys.now) property.now formula operands.now)
        result }
    ensures fit { IfOk result IsFitStep }
{
    let name = property_at(stage, keys, property)?;
    let names = properties_at(alloc, stage, keys, operands.as_slice())?;
    if !has_operands(formula.as_expr(), names.len()) {
        return Err(StageError::Refused(Refusal::Syntax));
    }
    Ok(BuildStep::Bind(name, formula, List::from_vec(names)))
}
