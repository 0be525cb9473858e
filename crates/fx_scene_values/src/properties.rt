//! Properties by the names that documents have for them.
ghost use Rattle.std.specs.Prelude.{◌≡◌, IfOk, IfSome, Some, true};
ghost use Rattle.std.specs.List.{find, slice_get};
ghost use Rattle.std.specs.Option.{option_map};
ghost use Rattle.std.specs.Str.{bytes_eq};
ghost use Rattle.fx_kinds.specs.Listing.{listed_property};
ghost use Rattle.fx_kinds.specs.Properties.{ListedProperty, properties_of};
ghost use Rattle.fx_scene_values.specs.Properties as spec;
ghost use Rattle.fx_scene_things.specs.Known.{known};
ghost use Rattle.fx_scene_values.specs.Views.{form_view, scope_view};

use crate::forms::{Form, form_of};
use crate::scopes::Scope;
use crate::values::{Given, planned_property, value_in};
use fx_base::Text;
use fx_kinds::{Class, Property, properties};
use fx_scene_acts::{Binding, Deed};
use fx_scene_flaws::Flaw;
use fx_scene_plan::PlannedStep;
use fx_scene_things::Names;
use std::alloc::{AllocError, Global};

/// The property of the class that documents call so.
#[tactic(auto, unfolding(crate::specs::Properties::property_named))]
pub fn property_named(class: Class, name: &str) -> Option<&'static Property>
    ensures { option_map (λ p. listed_property p.now) result ≡ spec.property_named class name.now }
{
    if is_word(name, "fontSize") {
        return None;
    }
    listed(class, property_name(name))
}

/// The size of the font is called `font`.
fn property_name(name: &str) -> &str
    ensures { result.now ≡ spec.property_name name.now }
{
    if is_word(name, "font") {
        "fontSize"
    } else {
        name
    }
}

fn is_word(name: &str, word: &str) -> bool
    ensures { result ≡ bytes_eq name.now word.now }
{
    name.len() == word.len() && name == word
}

/// A property of this name is the only one of the class that has it, so it may be looked for at any place first.
fn listed(class: Class, name: &str) -> Option<&'static Property>
    ensures { option_map (λ p. listed_property p.now) result ≡ spec.listed class name.now }
{
    let list = properties(class);
    match named_at(list, guessed_place(name.as_bytes()), name) {
        Some(property) => Some(property),
        None => first_named(list, name),
    }
}

/// The property at this place, if it has this name.
fn named_at<'a>(list: &'a [Property], place: usize, name: &str) -> Option<&'a Property>
    ensures { IfSome result
        (λ p. (slice_get list.now place ≡ Some p.now) × (bytes_eq p.now.name.now name.now ≡ true)) }
{
    let property = list.get(place)?;
    if is_word(property.name, name) {
        return Some(property);
    }
    None
}

/// The place that some properties have in the lists of all classes that have them.
fn guessed_place(name: &[u8]) -> usize {
    match name {
        [b'm', b'i', b'n', b'W', ..] => 6,
        [b'm', b'i', b'n', ..] => 7,
        [b'p', b'r', b'e', b'f', b'W', ..] => 8,
        [b'p', b'r', b'e', b'f', ..] => 9,
        [b'm', b'a', b'x', b'W', ..] => 10,
        [b'm', b'a', b'x', ..] => 11,
        [b'a', ..] => 15,
        [b't', ..] | [b's', ..] => 16,
        _ => 0,
    }
}

/// Lengths tell most names apart.
fn first_named<'a>(list: &'a [Property], name: &str) -> Option<&'a Property>
    ensures { option_map (λ p. p.now) result ≡ find (λ p. bytes_eq p.name.now name.now) list.now }
{
    list.iter()
        .find(|p| p.name.len() == name.len() && p.name == name)
}

/// What the attribute of this name and text asks for, where these names are known.
#[tactic(auto, unfolding(crate::specs::Properties::property_deed))]
pub fn property_deed(
    alloc: Global,
    scope: &Scope<'_>,
    names: &Names,
    class: Class,
    node: usize,
    name: &str,
    text: &str,
) -> Result<Deed, AllocError>
    ensures { IfOk result (λ deed. deed
        ≡ spec.property_deed (scope_view scope.now) (known names.now) class node name.now text.now) }
{
    match property_named(class, name) {
        Some(property) => {
            formed_deed(
                alloc,
                scope,
                names,
                class,
                node,
                name,
                property,
                form_of(text),
            )
        }
        None => Ok(Deed::Flaw(Flaw::Property)),
    }
}

fn formed_deed(
    alloc: Global,
    scope: &Scope<'_>,
    names: &Names,
    class: Class,
    node: usize,
    name: &str,
    property: &Property,
    form: Form<'_>,
) -> Result<Deed, AllocError>
    ensures { IfOk result (λ deed. deed ≡ spec.formed_deed (scope_view scope.now) (known names.now) class node name.now
        (listed_property property.now) (form_view form.entry)) }
{
    match form {
        Form::Bound(text) => bound_deed(alloc, class, node, name, property, text),
        _ => {
            let given = value_in(alloc, scope, names, property.kind, form)?;
            property_given(alloc, node, property, given)
        }
    }
}

/// An expression is taken once all names are there.
fn bound_deed(
    alloc: Global,
    class: Class,
    node: usize,
    name: &str,
    property: &Property,
    text: &str,
) -> Result<Deed, AllocError>
    ensures { IfOk result (λ deed. deed
        ≡ spec.bound_deed class node name.now (listed_property property.now) text.now) }
{
    if property.read_only {
        return Ok(Deed::Flaw(Flaw::ReadOnly));
    }
    let property = text_of(alloc, name)?;
    let text = text_of(alloc, text)?;
    Ok(Deed::Bind(Binding {
        node,
        class,
        property,
        text,
    }))
}

/// What giving the property a value asks for.
pub fn property_given(
    alloc: Global,
    node: usize,
    property: &Property,
    given: Given,
) -> Result<Deed, AllocError>
    ensures { IfOk result (λ deed. deed ≡ spec.given_deed node (listed_property property.now) given) }
{
    match given {
        Given::Flaw(flaw) => Ok(Deed::Flaw(flaw)),
        Given::Value(value) => {
            if property.read_only {
                return Ok(Deed::Flaw(Flaw::ReadOnly));
            }
            let property = planned_property(alloc, node, property.name)?;
            Ok(Deed::Step(PlannedStep::Code(property, value)))
        }
    }
}

/// A text of a document, which is short enough.
fn text_of(alloc: Global, text: &str) -> Result<Text, AllocError>
    ensures { IfOk result (λ copy. copy ≡ text.now) }
{
    match Text::from_str(alloc, text) {
        Ok(text) => Ok(text),
        Err(_) => Err(AllocError),
    }
}
