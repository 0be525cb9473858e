//! The values of a node's properties, which were read.
ghost use Rattle.std.specs.Prelude.{◌≡◌, ◌≤◌, OnOk, true};
ghost use Rattle.std.specs.Option.{option_copied, option_map};
ghost use Rattle.fx_stage_model.specs.Looking.{property_in};
ghost use Rattle.fx_stage_facts.specs.Attached.{is_displayed};
ghost use Rattle.fx_stage_facts.specs.Places.{name_of};
ghost use Rattle.fx_stage_facts.specs.Reads.{IsRead};
ghost use Rattle.fx_stage_facts.specs.Values as spec;

use crate::places::{Asked, Places};
use fx_base::{Name, Same, Text, Value};
use fx_stage::Stage;
use fx_stage_types::NodeData;
use std::alloc::{AllocError, Global};

/// The number of the node's property.
#[inline]
pub(crate) fn name_in(places: &Places, node: &NodeData, asked: Asked) -> Option<Name>
    requires class { places.now ≡ node.now.class }
    requires low { node.now.first ≤ 4000000 }
    ensures { option_map (λ name. name.0) result ≡ property_in (Some node.now) (name_of asked) }
{
    match places.at(asked) {
        None => None,
        Some(place) => Some(Name(node.first + place as u32)),
    }
}

/// The value of the node's property.
#[inline]
fn value_in<'a>(
    stage: &'a Stage,
    places: &Places,
    node: &NodeData,
    asked: Asked,
) -> Option<&'a Value>
    requires class { places.now ≡ node.now.class }
    requires read { IsRead stage.now.store node.now }
    requires displayed { is_displayed (name_of asked) ≡ true }
    ensures { option_copied result ≡ spec.value_in stage.now.store.entries node.now (name_of asked) }
{
    match name_in(places, node, asked) {
        None => None,
        Some(name) => stage.store().value(name),
    }
}

/// Makes the text the same as the other one. What is the same already is kept.
#[inline]
fn follow_text(alloc: Global, kept: &mut Text, next: &Text) -> Result<(), AllocError>
    ensures { OnOk result (kept.new ≡ next.now) }
{
    if !kept.is_same(next) {
        *kept = next.copy(alloc)?;
    }
    Ok(())
}

/// Makes the text that of the property; the empty one where the node has none.
#[inline]
pub(crate) fn refill_text(
    alloc: Global,
    kept: &mut Text,
    stage: &Stage,
    places: &Places,
    node: &NodeData,
    asked: Asked,
) -> Result<(), AllocError>
    requires class { places.now ≡ node.now.class }
    requires read { IsRead stage.now.store node.now }
    requires displayed { is_displayed (name_of asked) ≡ true }
    ensures { OnOk result (kept.new
        ≡ spec.text_of (spec.value_in stage.now.store.entries node.now (name_of asked))) }
{
    match value_in(stage, places, node, asked) {
        Some(Value::Text(text)) => follow_text(alloc, kept, text),
        _ => {
            *kept = Text::new(alloc);
            Ok(())
        }
    }
}

/// The truth of the property.
#[inline]
pub(crate) fn truth_in(stage: &Stage, places: &Places, node: &NodeData, asked: Asked) -> bool
    requires class { places.now ≡ node.now.class }
    requires read { IsRead stage.now.store node.now }
    requires displayed { is_displayed (name_of asked) ≡ true }
    ensures { result ≡ spec.truth_of (spec.value_in stage.now.store.entries node.now (name_of asked)) }
{
    match value_in(stage, places, node, asked) {
        Some(Value::Bool(truth)) => *truth,
        _ => false,
    }
}

/// The number of the property.
#[inline]
pub(crate) fn number_in(stage: &Stage, places: &Places, node: &NodeData, asked: Asked) -> i64
    requires class { places.now ≡ node.now.class }
    requires read { IsRead stage.now.store node.now }
    requires displayed { is_displayed (name_of asked) ≡ true }
    ensures { result ≡ spec.number_of (spec.value_in stage.now.store.entries node.now (name_of asked)) }
{
    match value_in(stage, places, node, asked) {
        Some(Value::Int(number)) => *number,
        _ => 0,
    }
}
