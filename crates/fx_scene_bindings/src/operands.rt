//! The operands of an expression.
ghost use Rattle.std.specs.Prelude.{◌≡◌, IfOk, map};
ghost use Rattle.std.specs.Option.{option_copied, option_map};
ghost use Rattle.fx_kinds.specs.Listing.{listed_property};
ghost use Rattle.fx_scene_bindings.specs.Bindings as spec;
ghost use Rattle.fx_scene_bindings.specs.Views.{operand_view};
ghost use Rattle.fx_scene_things.specs.Known.{known, space_view};

use fx_base::{Kind, List, Text, Value};
use fx_kinds::Property;
use fx_scene_plan::PlannedProperty;
use fx_scene_things::{Named, Names, Space, Thing, node_along};
use fx_scene_values::{planned_property, property_named};
use std::alloc::{AllocError, Global};

/// A property of the node of an ordinal.
#[derive(Clone, Copy)]
pub struct Operand {
    pub node: usize,
    pub property: &'static Property,
}

/// Does each path lead to something?
pub(crate) fn are_named(spaces: &[Space], names: &Names, paths: &[List<Text>]) -> bool
    ensures { result ≡ spec.are_named (map space_view spaces.now) (known names.now) paths.now }
{
    paths
        .iter()
        .all(|path| is_named(spaces, names, path.as_slice()))
}

/// A path leads to a value of a definition by its name, or to a node, by the names in front of a property's.
fn is_named(spaces: &[Space], names: &Names, path: &[Text]) -> bool
    ensures { result ≡ spec.is_named (map space_view spaces.now) (known names.now) path.now }
{
    if path.len() == 1 {
        value_of(names, path).is_some()
    } else {
        node_of(spaces, names, path).is_some()
    }
}

/// The node of a path, by the names of nodes in front of the last name, which is a property's.
fn node_of(spaces: &[Space], names: &Names, path: &[Text]) -> Option<Named>
    ensures { result ≡ spec.node_of (map space_view spaces.now) (known names.now) path.now }
{
    let front = path.split_at(path.len().saturating_sub(1)).0;
    node_along(spaces, names, front)
}

fn value_if(thing: Option<&Thing>) -> Option<&Value>
    ensures { option_copied result ≡ spec.value_if (option_copied thing.entry) }
{
    match thing {
        Some(thing) => defined_value(thing),
        None => None,
    }
}

/// A value that stands right in a definition.
fn defined_value(thing: &Thing) -> Option<&Value>
    ensures { option_copied result ≡ spec.defined_value thing.now }
{
    match thing {
        Thing::Value(value, true) => Some(value),
        _ => None,
    }
}

/// The value that a path of one name stands for.
fn value_of<'n>(names: &'n Names, path: &[Text]) -> Option<&'n Value>
    ensures { option_copied result ≡ spec.value_of (known names.now) path.now }
{
    match path {
        [name] => value_if(names.get(name.as_str())),
        _ => None,
    }
}

/// The values among the paths.
pub(crate) fn values_of(
    alloc: Global,
    names: &Names,
    paths: &[List<Text>],
) -> Result<Vec<Option<Value>>, AllocError>
    ensures { IfOk result (λ values. values.items ≡ spec.values_of (known names.now) paths.now) }
{
    let mut values = Vec::with_capacity(alloc, paths.len())?;
    for path in paths {
        values.push(copied(alloc, value_of(names, path.as_slice()))?)?;
    }
    Ok(values)
}

/// Does a path stand for a value?
pub(crate) fn has_value(names: &Names, paths: &[List<Text>]) -> bool
    ensures { result ≡ spec.has_value (known names.now) paths.now }
{
    paths
        .iter()
        .any(|path| value_of(names, path.as_slice()).is_some())
}

fn copied(alloc: Global, value: Option<&Value>) -> Result<Option<Value>, AllocError>
    ensures { IfOk result (λ copy. copy ≡ option_copied value.entry) }
{
    match value {
        Some(value) => Ok(Some(value.copy(alloc)?)),
        None => Ok(None),
    }
}

/// The operands at the paths, unless a property isn't there. A value is no operand.
pub(crate) fn operands_of(
    alloc: Global,
    spaces: &[Space],
    names: &Names,
    paths: &[List<Text>],
) -> Result<Option<Vec<Operand>>, AllocError>
    ensures { IfOk result (λ operands. option_map (λ all. map operand_view all.items) operands
        ≡ spec.operands_of (map space_view spaces.now) (known names.now) paths.now) }
{
    let mut operands = Vec::with_capacity(alloc, paths.len())?;
    for path in paths {
        if value_of(names, path.as_slice()).is_some() {
            continue;
        }
        match operand_of(spaces, names, path.as_slice()) {
            Some(operand) => operands.push(operand)?,
            None => return Ok(None),
        }
    }
    Ok(Some(operands))
}

#[tactic(auto, unfolding(crate::specs::Bindings::operand_of))]
fn operand_of(spaces: &[Space], names: &Names, path: &[Text]) -> Option<Operand>
    ensures { option_map operand_view result
        ≡ spec.operand_of (map space_view spaces.now) (known names.now) path.now }
{
    match path.get(path.len().saturating_sub(1)) {
        Some(property) => operand_in(property.as_str(), node_of(spaces, names, path)),
        None => None,
    }
}

fn operand_in(property: &str, known: Option<Named>) -> Option<Operand>
    ensures { option_map operand_view result ≡ spec.operand_in property.now known }
{
    match known {
        Some(known) => operand_at(known.node, property_named(known.class, property)),
        None => None,
    }
}

fn operand_at(node: usize, property: Option<&'static Property>) -> Option<Operand>
    ensures { option_map operand_view result
        ≡ option_map (spec.operand_at node) (option_map (λ p. listed_property p.now) property.entry) }
{
    match property {
        Some(property) => Some(Operand { node, property }),
        None => None,
    }
}

/// The kinds of the operands.
pub(crate) fn kinds_of(alloc: Global, operands: &[Operand]) -> Result<Vec<Kind>, AllocError>
    ensures { IfOk result (λ kinds. kinds.items ≡ spec.kinds_of (map operand_view operands.now)) }
{
    let mut kinds = Vec::with_capacity(alloc, operands.len())?;
    for operand in operands {
        kinds.push(operand.property.kind)?;
    }
    Ok(kinds)
}

/// The operands, as a plan has them.
pub(crate) fn planned_of(
    alloc: Global,
    operands: &[Operand],
) -> Result<List<PlannedProperty>, AllocError>
    ensures { IfOk result (λ planned. planned ≡ spec.planned_of (map operand_view operands.now)) }
{
    let mut planned = Vec::with_capacity(alloc, operands.len())?;
    for operand in operands {
        planned.push(planned_property(alloc, operand.node, operand.property.name)?)?;
    }
    Ok(List::from_vec(planned))
}
