//! What instances of values are by their attributes.
ghost use Rattle.std.specs.Prelude.{◌≡◌, IfOk, OnOk, map};
ghost use Rattle.fx_doc.specs.Views.{attr_view};
ghost use Rattle.fx_scene_instances.specs.Fields.{first_made};
ghost use Rattle.fx_scene_literals.specs.Literals as spec;
ghost use Rattle.fx_scene_things.specs.Known.{known};
ghost use Rattle.fx_scene_values.specs.Views.{scope_view};

use fx_base::{Kind, Position, Value};
use fx_doc::Attribute;
use fx_kinds::{Class, value_kind};
use fx_scene_flaws::Flaw;
use fx_scene_instances::{
    Field, Found, Made, constant_named, field_kind, field_named, first_made, is_location,
    with_value,
};
use fx_scene_things::{Names, Thing};
use fx_scene_values::{Given, Scope, form_of, literal, path_in, value_in};
use fx_text::is_identifier;
use std::alloc::{AllocError, Global};

/// What an instance of the class is by its attributes.
pub(crate) fn made_from(
    alloc: Global,
    scope: &Scope<'_>,
    class: Class,
    attributes: &[Attribute],
    names: &mut Names,
) -> Result<Found, AllocError>
    ensures found { IfOk result (λ found. found ≡ (spec.made_from (scope_view scope.now) class (first_made class)
        (known names.old) (map attr_view attributes.now)).found) }
    ensures names { OnOk result (known names.new ≡ (spec.made_from (scope_view scope.now) class (first_made class)
        (known names.old) (map attr_view attributes.now)).names) }
{
    let mut made = first_made(class);
    for a in attributes {
        match read_attribute(alloc, scope, class, a, made, names)? {
            Found::Whole(next) => made = next,
            Found::Flaw(flaw, place) => return Ok(Found::Flaw(flaw, place)),
            Found::Node(place) => return Ok(Found::Node(place)),
        }
    }
    Ok(Found::Whole(made))
}

/// What is made behind the attribute.
fn read_attribute(
    alloc: Global,
    scope: &Scope<'_>,
    class: Class,
    a: &Attribute,
    made: Made,
    names: &mut Names,
) -> Result<Found, AllocError>
    ensures found { IfOk result (λ found. found
        ≡ (spec.attribute_told (scope_view scope.now) class (attr_view a.now) made (known names.old)).found) }
    ensures names { OnOk result (known names.new
        ≡ (spec.attribute_told (scope_view scope.now) class (attr_view a.now) made (known names.old)).names) }
{
    if a.name.as_str() == "fx:id" {
        return open_name(alloc, a, made, names);
    }
    made_after(alloc, scope, names, class, a, made)
}

/// A name is an identifier that nothing before has. It stands for nothing until what has it is whole.
fn open_name(
    alloc: Global,
    a: &Attribute,
    made: Made,
    names: &mut Names,
) -> Result<Found, AllocError>
    ensures found { IfOk result (λ found. found ≡ (spec.id_told (known names.old) (attr_view a.now) made).found) }
    ensures names { OnOk result (known names.new ≡ (spec.id_told (known names.old) (attr_view a.now) made).names) }
{
    if !is_identifier(a.value.as_str()) {
        return Ok(Found::Flaw(Flaw::Value, a.position));
    }
    if names.has(a.value.as_str()) {
        return Ok(Found::Flaw(Flaw::Duplicate, a.position));
    }
    names.put(alloc, a.value.as_str(), Thing::Open)?;
    Ok(Found::Whole(made))
}

/// What is made behind an attribute that gives no name.
fn made_after(
    alloc: Global,
    scope: &Scope<'_>,
    names: &Names,
    class: Class,
    a: &Attribute,
    made: Made,
) -> Result<Found, AllocError>
    ensures { IfOk result (λ found. found
        ≡ spec.made_after (scope_view scope.now) (known names.now) class (attr_view a.now) made) }
{
    match field_named(class, a.name.as_str()) {
        Some(field) => field_after(alloc, scope, names, class, field, a, made),
        None => unnamed_after(alloc, scope, names, class, a, made),
    }
}

fn field_after(
    alloc: Global,
    scope: &Scope<'_>,
    names: &Names,
    class: Class,
    field: Field,
    a: &Attribute,
    made: Made,
) -> Result<Found, AllocError>
    ensures { IfOk result (λ found. found
        ≡ spec.field_after (scope_view scope.now) (known names.now) class field (attr_view a.now) made) }
{
    let kind = field_kind(class, field);
    match value_in(alloc, scope, names, kind, form_of(a.value.as_str()))? {
        Given::Value(value) => Ok(Found::Whole(with_value(field, value, made))),
        Given::Flaw(flaw) => Ok(Found::Flaw(flaw, a.position)),
    }
}

fn unnamed_after(
    alloc: Global,
    scope: &Scope<'_>,
    names: &Names,
    class: Class,
    a: &Attribute,
    made: Made,
) -> Result<Found, AllocError>
    ensures { IfOk result (λ found. found
        ≡ spec.unnamed_after (scope_view scope.now) (known names.now) class (attr_view a.now) made) }
{
    if is_font(class) && a.name.as_str() == "name" {
        return Ok(Found::Whole(made));
    }
    plain_after(alloc, scope, names, class, a)
}

fn is_font(class: Class) -> bool
    ensures { result ≡ spec.is_font class }
{
    matches!(class, Class::Font)
}

fn plain_after(
    alloc: Global,
    scope: &Scope<'_>,
    names: &Names,
    class: Class,
    a: &Attribute,
) -> Result<Found, AllocError>
    ensures { IfOk result (λ found. found
        ≡ spec.plain_after (scope_view scope.now) (known names.now) class (attr_view a.now)) }
{
    if is_location(class) {
        return location_after(alloc, scope, names, a);
    }
    other_after(alloc, class, a)
}

fn location_after(
    alloc: Global,
    scope: &Scope<'_>,
    names: &Names,
    a: &Attribute,
) -> Result<Found, AllocError>
    ensures { IfOk result (λ found. found
        ≡ spec.location_after (scope_view scope.now) (known names.now) (attr_view a.now)) }
{
    if a.name.as_str() != "value" {
        return Ok(Found::Flaw(Flaw::Property, a.position));
    }
    let given = path_in(alloc, scope, names, form_of(a.value.as_str()))?;
    Ok(location_found(a.position, given))
}

fn location_found(place: Position, given: Given) -> Found
    ensures { result ≡ spec.location_found place given }
{
    match given {
        Given::Value(Value::Text(name)) => Found::Whole(Made::Location(name)),
        Given::Value(_) => Found::Flaw(Flaw::Value, place),
        Given::Flaw(flaw) => Found::Flaw(flaw, place),
    }
}

fn other_after(alloc: Global, class: Class, a: &Attribute) -> Result<Found, AllocError>
    ensures { IfOk result (λ found. found ≡ spec.other_after class (attr_view a.now)) }
{
    match other_given(alloc, class, a)? {
        Given::Value(value) => Ok(Found::Whole(Made::Plain(value))),
        Given::Flaw(flaw) => Ok(Found::Flaw(flaw, a.position)),
    }
}

/// The whole value by its text or a constant.
fn other_given(alloc: Global, class: Class, a: &Attribute) -> Result<Given, AllocError>
    ensures { IfOk result (λ given. given ≡ spec.other_given class (attr_view a.now)) }
{
    match a.name.as_str() {
        "fx:value" => text_given(alloc, value_kind(class), a.value.as_str()),
        "fx:constant" => constant_named(alloc, class, a.value.as_str()),
        _ => Ok(Given::Flaw(Flaw::Property)),
    }
}

fn text_given(alloc: Global, kind: Option<Kind>, text: &str) -> Result<Given, AllocError>
    ensures { IfOk result (λ given. given ≡ spec.text_given kind text.now) }
{
    match kind {
        Some(kind) => literal(alloc, kind, text),
        None => Ok(Given::Flaw(Flaw::Property)),
    }
}
