//! What the attributes of an instance ask for.
ghost use Rattle.std.specs.Prelude.{◌≡◌, ◌++◌, IfOk, OnOk};
ghost use Rattle.fx_doc.specs.Views.{attr_view};
ghost use Rattle.fx_scene_elements.specs.Added.{acts_at};
ghost use Rattle.fx_scene_read.specs.Acting as spec;
ghost use Rattle.fx_scene_read.specs.Sheets.{sheet_deeds};
ghost use Rattle.fx_scene_things.specs.Known.{known};
ghost use Rattle.fx_scene_values.specs.Styles.{class_deeds};
ghost use Rattle.fx_scene_values.specs.Views.{scope_view};

use crate::sheets::add_sheets;
use fx_base::{List, Position, Text, Value};
use fx_doc::Attribute;
use fx_kinds::Class;
use fx_scene_acts::{Act, Deed};
use fx_scene_elements::{push, push_all, push_flaw};
use fx_scene_flaws::Flaw;
use fx_scene_plan::PlannedStep;
use fx_scene_things::Names;
use fx_scene_values::{
    Role, Scope, add_classes, handler_deed, planned_property, property_deed, role_of, static_deed,
    style_deed,
};
use fx_text::is_identifier;
use std::alloc::{AllocError, Global};

/// Adds what the attribute of an instance of the class asks for, at its place.
#[tactic(auto, unfolding(crate::specs::Acting::attribute_deeds))]
pub(crate) fn add_attribute(
    alloc: Global,
    scope: &Scope<'_>,
    names: &Names,
    class: Class,
    node: usize,
    given: bool,
    a: &Attribute,
    acts: &mut Vec<Act>,
) -> Result<(), AllocError>
    ensures ok { OnOk result (acts.new.items ≡ acts.old.items ++ acts_at a.now.position (spec.attribute_deeds
        (scope_view scope.now) (known names.now) class node given (attr_view a.now))) }
{
    let (place, text) = (a.position, a.value.as_str());
    match role_of(a.name.as_str()) {
        Role::Name => add_name(alloc, names, node, given, place, &a.value, acts),
        Role::Ignored => Ok(()),
        Role::Style => push(acts, place, style_deed(alloc, scope, names, node, text)?),
        Role::Classes => push_classes(alloc, scope, names, node, place, text, acts),
        Role::Sheets => push_sheets(alloc, scope, names, node, place, text, acts),
        Role::Handler(on) => push(acts, place, handler_deed(alloc, node, on, text)?),
        Role::Static => push(
            acts,
            place,
            static_deed(alloc, scope, names, node, &a.name, text)?,
        ),
        Role::Property => {
            let name = a.name.as_str();
            push(
                acts,
                place,
                property_deed(alloc, scope, names, class, node, name, text)?,
            )
        }
    }
}

fn push_classes(
    alloc: Global,
    scope: &Scope<'_>,
    names: &Names,
    node: usize,
    place: Position,
    text: &str,
    acts: &mut Vec<Act>,
) -> Result<(), AllocError>
    ensures ok { OnOk result (acts.new.items ≡ acts.old.items
        ++ acts_at place (class_deeds (scope_view scope.now) (known names.now) node text.now)) }
{
    let mut deeds = Vec::new(alloc);
    add_classes(alloc, scope, names, node, text, &mut deeds)?;
    push_all(acts, place, deeds)
}

fn push_sheets(
    alloc: Global,
    scope: &Scope<'_>,
    names: &Names,
    node: usize,
    place: Position,
    text: &str,
    acts: &mut Vec<Act>,
) -> Result<(), AllocError>
    ensures ok { OnOk result (acts.new.items ≡ acts.old.items
        ++ acts_at place (sheet_deeds (scope_view scope.now) (known names.now) node text.now)) }
{
    let mut deeds = Vec::new(alloc);
    add_sheets(alloc, scope, names, node, text, &mut deeds)?;
    push_all(acts, place, deeds)
}

/// A name is an identifier that nothing before has.
fn add_name(
    alloc: Global,
    names: &Names,
    node: usize,
    given: bool,
    place: Position,
    name: &Text,
    acts: &mut Vec<Act>,
) -> Result<(), AllocError>
    ensures ok { OnOk result (acts.new.items ≡ acts.old.items
        ++ acts_at place (spec.name_deeds (known names.now) node given name.now)) }
{
    if !is_identifier(name.as_str()) {
        return push_flaw(acts, place, Flaw::Value);
    }
    if names.has(name.as_str()) {
        return push_flaw(acts, place, Flaw::Duplicate);
    }
    push(acts, place, named_deed(alloc, node, name)?)?;
    add_id(alloc, node, given, place, name, acts)
}

fn named_deed(alloc: Global, node: usize, name: &Text) -> Result<Deed, AllocError>
    ensures { IfOk result (λ deed. deed ≡ spec.named_deed node name.now) }
{
    let mut path = Vec::new(alloc);
    path.push(name.copy(alloc)?)?;
    Ok(Deed::Step(PlannedStep::Named(node, List::from_vec(path))))
}

/// The name is the property `id`, too, unless that is given.
fn add_id(
    alloc: Global,
    node: usize,
    given: bool,
    place: Position,
    name: &Text,
    acts: &mut Vec<Act>,
) -> Result<(), AllocError>
    ensures ok { OnOk result (acts.new.items ≡ acts.old.items
        ++ acts_at place (spec.id_deeds node given name.now)) }
{
    if given {
        return Ok(());
    }
    let property = planned_property(alloc, node, "id")?;
    let value = Value::Text(name.copy(alloc)?);
    push(acts, place, Deed::Step(PlannedStep::Code(property, value)))
}
