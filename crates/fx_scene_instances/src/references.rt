//! References to values: the element `fx:reference` where a value or a part of a list is wanted.
ghost use Rattle.std.specs.Prelude.{◌≡◌, IfOk, map};
ghost use Rattle.std.specs.Option.{option_copied};
ghost use Rattle.fx_doc.specs.Views.{attr_view};
ghost use Rattle.fx_scene_instances.specs.References as spec;
ghost use Rattle.fx_scene_outline.specs.Views.{head_of};
ghost use Rattle.fx_scene_things.specs.Known.{known};

use crate::instances::Want;
use crate::made::{Found, Made};
use fx_base::{Kind, Position, Text, Track, Value};
use fx_doc::{Attribute, Element};
use fx_scene_bindings::value_at;
use fx_scene_flaws::{Fault, Flaw};
use fx_scene_things::{Names, Thing};
use fx_scene_values::{Given, same_given};
use std::alloc::{AllocError, Global};

/// What a reference stands for where this is wanted, without a look at its content.
pub fn referred(
    alloc: Global,
    names: &Names,
    want: Want,
    element: &Element,
) -> Result<Found, AllocError>
    ensures { IfOk result (λ found. found ≡ spec.referred (known names.now) want (head_of element.now)) }
{
    match value_at(element.attributes.as_slice(), "source") {
        Some(name) => open_reference(alloc, names, want, element, name.as_str()),
        None => Ok(Found::Flaw(Flaw::Value, element.position)),
    }
}

fn open_reference(
    alloc: Global,
    names: &Names,
    want: Want,
    element: &Element,
    name: &str,
) -> Result<Found, AllocError>
    ensures { IfOk result (λ found. found
        ≡ spec.open_reference (known names.now) want (head_of element.now) name.now) }
{
    if is_closed(want) {
        return Ok(Found::Flaw(Flaw::Child, element.position));
    }
    match attributes_fault(names, element.attributes.as_slice()) {
        Some(fault) => Ok(Found::Flaw(fault.flaw, fault.place)),
        None => thing_found(alloc, want, element.position, names.get(name)),
    }
}

/// May nothing stand there any more, whatever it is?
fn is_closed(want: Want) -> bool
    ensures { result ≡ spec.is_closed want }
{
    matches!(want, Want::Another(_) | Want::Defined | Want::Nothing)
}

/// What is wrong with the attributes of a reference, if anything is.
fn attributes_fault(names: &Names, attributes: &[Attribute]) -> Option<Fault>
    ensures { result ≡ spec.attributes_fault (known names.now) (map attr_view attributes.now) }
{
    for a in attributes {
        if let Some(flaw) = attribute_flaw(names, a) {
            return Some(Fault {
                flaw,
                place: a.position,
            });
        }
    }
    None
}

/// What is wrong with an attribute of a reference: it has one, the name of something.
pub fn attribute_flaw(names: &Names, a: &Attribute) -> Option<Flaw>
    ensures { result ≡ spec.attribute_flaw (known names.now) (attr_view a.now) }
{
    if a.name.as_str() != "source" {
        return Some(Flaw::Property);
    }
    name_flaw(names.get(a.value.as_str()))
}

/// Something that isn't whole yet isn't there.
fn name_flaw(thing: Option<&Thing>) -> Option<Flaw>
    ensures { result ≡ spec.name_flaw (option_copied thing.entry) }
{
    match thing {
        Some(thing) => open_flaw(thing),
        None => Some(Flaw::Name),
    }
}

fn open_flaw(thing: &Thing) -> Option<Flaw>
    ensures { result ≡ spec.open_flaw thing.now }
{
    match thing {
        Thing::Open => Some(Flaw::Name),
        _ => None,
    }
}

fn thing_found(
    alloc: Global,
    want: Want,
    place: Position,
    thing: Option<&Thing>,
) -> Result<Found, AllocError>
    ensures { IfOk result (λ found. found ≡ spec.thing_found want place (option_copied thing.entry)) }
{
    match thing {
        Some(thing) => wanted_thing(alloc, want, place, thing),
        None => Ok(Found::Flaw(Flaw::Name, place)),
    }
}

fn wanted_thing(
    alloc: Global,
    want: Want,
    place: Position,
    thing: &Thing,
) -> Result<Found, AllocError>
    ensures { IfOk result (λ found. found ≡ spec.wanted_thing want place thing.now) }
{
    match want {
        Want::Value(kind) => value_thing(alloc, kind, place, thing),
        Want::Name => name_thing(alloc, place, thing),
        Want::Column => Ok(column_thing(place, thing)),
        Want::Row => Ok(row_thing(place, thing)),
        _ => Ok(Found::Flaw(Flaw::Child, place)),
    }
}

fn value_thing(
    alloc: Global,
    kind: Kind,
    place: Position,
    thing: &Thing,
) -> Result<Found, AllocError>
    ensures { IfOk result (λ found. found ≡ spec.value_thing kind place thing.now) }
{
    match thing {
        Thing::Value(value, _) => given_found(place, same_given(alloc, kind, value)?),
        _ => Ok(Found::Flaw(Flaw::Child, place)),
    }
}

fn given_found(place: Position, given: Given) -> Result<Found, AllocError>
    ensures { IfOk result (λ found. found ≡ spec.given_found place given) }
{
    match given {
        Given::Value(value) => Ok(Found::Whole(Made::Plain(value))),
        Given::Flaw(flaw) => Ok(Found::Flaw(flaw, place)),
    }
}

fn name_thing(alloc: Global, place: Position, thing: &Thing) -> Result<Found, AllocError>
    ensures { IfOk result (λ found. found ≡ spec.name_thing place thing.now) }
{
    match thing {
        Thing::Location(name) => Ok(Found::Whole(Made::Location(name.copy(alloc)?))),
        _ => value_thing(alloc, Kind::Text, place, thing),
    }
}

fn column_thing(place: Position, thing: &Thing) -> Found
    ensures { result ≡ spec.column_thing place thing.now }
{
    match thing {
        Thing::Column(track) => Found::Whole(Made::Track(*track)),
        _ => Found::Flaw(Flaw::Child, place),
    }
}

fn row_thing(place: Position, thing: &Thing) -> Found
    ensures { result ≡ spec.row_thing place thing.now }
{
    match thing {
        Thing::Row(track) => Found::Whole(Made::Track(*track)),
        _ => Found::Flaw(Flaw::Child, place),
    }
}
