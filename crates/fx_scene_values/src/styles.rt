//! Style classes, inline styles and handlers.
ghost use Rattle.std.specs.Prelude.{◌≡◌, ◌++◌, IfOk, OnOk, map};
ghost use Rattle.std.specs.List.{flat_map, slice_split};
ghost use Rattle.fx_scene_values.specs.Styles as spec;
ghost use Rattle.fx_scene_things.specs.Known.{known};
ghost use Rattle.fx_scene_values.specs.Views.{scope_view};

use crate::forms::form_of;
use crate::scopes::Scope;
use crate::values::{Given, value_in};
use fx_base::{Kind, Text, Value};
use fx_events::EventKind;
use fx_scene_acts::Deed;
use fx_scene_flaws::Flaw;
use fx_scene_plan::PlannedStep;
use fx_scene_things::Names;
use fx_script_commands::behind_sign;
use fx_stage_words::read_style;
use fx_text::{is_identifier, trimmed_text};
use std::alloc::{AllocError, Global};

/// What the attribute `style` of this text asks for, where these names are known.
#[tactic(auto, unfolding(crate::specs::Styles::style_deed))]
pub fn style_deed(
    alloc: Global,
    scope: &Scope<'_>,
    names: &Names,
    node: usize,
    text: &str,
) -> Result<Deed, AllocError>
    ensures { IfOk result (λ deed. deed ≡ spec.style_deed (scope_view scope.now) (known names.now) node text.now) }
{
    let given = value_in(alloc, scope, names, Kind::Text, form_of(text))?;
    given_style(alloc, node, given)
}

fn given_style(alloc: Global, node: usize, given: Given) -> Result<Deed, AllocError>
    ensures { IfOk result (λ deed. deed ≡ spec.given_style node given) }
{
    match given {
        Given::Value(Value::Text(style)) => literal_style(alloc, node, style.as_str()),
        Given::Value(_) => Ok(Deed::Flaw(Flaw::Value)),
        Given::Flaw(flaw) => Ok(Deed::Flaw(flaw)),
    }
}

fn literal_style(alloc: Global, node: usize, style: &str) -> Result<Deed, AllocError>
    ensures { IfOk result (λ deed. deed ≡ spec.literal_style node style.now) }
{
    match read_style(alloc, style)? {
        Some(sheet) => Ok(Deed::Step(PlannedStep::Inline(node, sheet))),
        None => Ok(Deed::Flaw(Flaw::Limit)),
    }
}

/// Adds what the attribute `styleClass` of this text asks for, where these names are known: a style class for each part
/// between commas.
#[tactic(auto, unfolding(crate::specs::Styles::class_deeds))]
pub fn add_classes(
    alloc: Global,
    scope: &Scope<'_>,
    names: &Names,
    node: usize,
    text: &str,
    deeds: &mut Vec<Deed>,
) -> Result<(), AllocError>
    ensures ok { OnOk result (deeds.new.items ≡ deeds.old.items
        ++ spec.class_deeds (scope_view scope.now) (known names.now) node text.now) }
{
    let items = items_of(alloc, text)?;
    add_items(alloc, scope, names, node, items.as_slice(), deeds)
}

fn add_items(
    alloc: Global,
    scope: &Scope<'_>,
    names: &Names,
    node: usize,
    items: &[&str],
    deeds: &mut Vec<Deed>,
) -> Result<(), AllocError>
    ensures ok { OnOk result (deeds.new.items ≡ deeds.old.items
        ++ spec.item_deeds (scope_view scope.now) (known names.now) node (map (λ item. item.now) items.now)) }
{
    for item in items {
        deeds.push(class_deed(alloc, scope, names, node, trimmed_text(item))?)?;
    }
    Ok(())
}

/// The items of a list: what stands between commas.
pub fn items_of<'a>(alloc: Global, text: &'a str) -> Result<Vec<&'a str>, AllocError>
    ensures { IfOk result (λ items. map (λ item. item.now) items.items ≡ slice_split spec.is_comma text.now) }
{
    text.split(',').collect(alloc)
}

fn class_deed(
    alloc: Global,
    scope: &Scope<'_>,
    names: &Names,
    node: usize,
    text: &str,
) -> Result<Deed, AllocError>
    ensures { IfOk result (λ deed. deed ≡ spec.class_deed (scope_view scope.now) (known names.now) node text.now) }
{
    let given = value_in(alloc, scope, names, Kind::Text, form_of(text))?;
    Ok(given_class(node, given))
}

fn given_class(node: usize, given: Given) -> Deed
    ensures { result ≡ spec.given_class node given }
{
    match given {
        Given::Value(Value::Text(name)) => Deed::Step(PlannedStep::Class(node, name)),
        Given::Value(_) => Deed::Flaw(Flaw::Value),
        Given::Flaw(flaw) => Deed::Flaw(flaw),
    }
}

/// What the attribute of this text asks for, which handles events of the type: `#` and the name of an action.
#[tactic(auto, unfolding(crate::specs::Styles::handler_deed))]
pub fn handler_deed(
    alloc: Global,
    node: usize,
    on: EventKind,
    text: &str,
) -> Result<Deed, AllocError>
    ensures { IfOk result (λ deed. deed ≡ spec.handler_deed node on text.now) }
{
    match behind_sign(text, '#') {
        Some(action) => action_deed(alloc, node, on, action),
        None => Ok(Deed::Flaw(Flaw::Value)),
    }
}

fn action_deed(alloc: Global, node: usize, on: EventKind, action: &str) -> Result<Deed, AllocError>
    ensures { IfOk result (λ deed. deed ≡ spec.action_deed node on action.now) }
{
    if !is_identifier(action) {
        return Ok(Deed::Flaw(Flaw::Value));
    }
    match Text::from_str(alloc, action) {
        Ok(action) => Ok(Deed::Step(PlannedStep::Convenience(node, on, action))),
        Err(_) => Err(AllocError),
    }
}
