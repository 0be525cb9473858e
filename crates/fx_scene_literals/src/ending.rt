//! What becomes of what was made.
ghost use Rattle.std.specs.Prelude.{◌≡◌, IfOk, OnOk, map};
ghost use Rattle.std.specs.Option.{option_map};
ghost use Rattle.fx_doc.specs.Views.{attr_view};
ghost use Rattle.fx_scene_literals.specs.Literals as spec;
ghost use Rattle.fx_scene_things.specs.Known.{known};

use fx_base::{Text, Track, Value};
use fx_doc::Attribute;
use fx_kinds::Class;
use fx_scene_bindings::value_at;
use fx_scene_instances::{Field, Found, Made, with_value};
use fx_scene_things::{Names, Thing};
use std::alloc::{AllocError, Global};

pub(crate) fn with_found(field: Field, found: Found, made: Made) -> Found
    ensures { result ≡ spec.with_found field found made }
{
    match found {
        Found::Whole(value) => Found::Whole(with_made(field, value, made)),
        Found::Flaw(flaw, place) => Found::Flaw(flaw, place),
        Found::Node(place) => Found::Node(place),
    }
}

fn with_made(field: Field, value: Made, made: Made) -> Made
    ensures { result ≡ spec.with_made field value made }
{
    match value {
        Made::Plain(value) => with_value(field, value, made),
        Made::Track(_) => made,
        Made::Location(_) => made,
    }
}

pub(crate) fn no_value() -> Made
    ensures { result ≡ spec.no_value }
{
    Made::Plain(Value::Int(0))
}

/// What was made before, unless something is wrong.
pub(crate) fn kept(made: Made, found: Found) -> Found
    ensures { result ≡ spec.kept made found }
{
    match found {
        Found::Whole(_) => Found::Whole(made),
        Found::Flaw(flaw, place) => Found::Flaw(flaw, place),
        Found::Node(place) => Found::Node(place),
    }
}

/// A whole value, which is known by its name from now on.
pub(crate) fn finish(
    alloc: Global,
    class: Class,
    defined: bool,
    attributes: &[Attribute],
    found: Found,
    names: &mut Names,
) -> Result<Found, AllocError>
    ensures found { IfOk result (λ next. next ≡ (spec.whole_then (map attr_view attributes.now) class defined
        (spec.told found (known names.old))).found) }
    ensures names { OnOk result (known names.new ≡ (spec.whole_then (map attr_view attributes.now) class defined
        (spec.told found (known names.old))).names) }
{
    match found {
        Found::Whole(made) => {
            let thing = thing_of(alloc, class, defined, &made)?;
            put_thing(alloc, value_at(attributes, "fx:id"), thing, names)?;
            Ok(Found::Whole(made))
        }
        Found::Flaw(flaw, place) => Ok(Found::Flaw(flaw, place)),
        Found::Node(place) => Ok(Found::Node(place)),
    }
}

fn put_thing(
    alloc: Global,
    name: Option<&Text>,
    thing: Thing,
    names: &mut Names,
) -> Result<(), AllocError>
    ensures ok { OnOk result (known names.new
        ≡ spec.named_if (known names.old) thing (option_map (λ text. text.now) name.entry)) }
{
    match name {
        Some(name) => names.put(alloc, name.as_str(), thing),
        None => Ok(()),
    }
}

/// What the name of a whole value stands for.
fn thing_of(alloc: Global, class: Class, defined: bool, made: &Made) -> Result<Thing, AllocError>
    ensures { IfOk result (λ thing. thing ≡ spec.thing_of class defined made.now) }
{
    match made {
        Made::Plain(value) => Ok(Thing::Value(value.copy(alloc)?, defined)),
        Made::Track(track) => Ok(track_thing(class, *track)),
        Made::Location(name) => Ok(Thing::Location(name.copy(alloc)?)),
    }
}

fn track_thing(class: Class, track: Track) -> Thing
    ensures { result ≡ spec.track_thing class track }
{
    match class {
        Class::RowConstraints => Thing::Row(track),
        _ => Thing::Column(track),
    }
}
