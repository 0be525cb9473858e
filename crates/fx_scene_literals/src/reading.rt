//! Reading values that are written as instances, with the names that they have.
ghost use Rattle.std.specs.Prelude.{◌≡◌, IfOk, OnOk, true};
ghost use Rattle.std.specs.Option.{option_map};
ghost use Rattle.fx_doc.specs.Views.{nodes_of, onto};
ghost use Rattle.fx_doc_grammar.specs.Grammar.{Nothing};
ghost use Rattle.fx_doc_grammar.specs.Machine.{is_nothing};
ghost use Rattle.fx_scene_instances.specs.Instances.{entered};
ghost use Rattle.fx_scene_literals.specs.Literals as spec;
ghost use Rattle.fx_scene_literals.specs.Views.{item_told, part_told};
ghost use Rattle.fx_scene_literals.specs.declared.parts.Part.TheVariants.{One};
ghost use Rattle.fx_scene_outline.specs.Views.{content_of, head_of};
ghost use Rattle.fx_scene_things.specs.Known.{known};
ghost use Rattle.fx_scene_values.specs.Views.{scope_view};

use crate::attributes::made_from;
use crate::bare::{bare_fault, field_at};
use crate::ending::{finish, kept, no_value, with_found};
use crate::parts::Part;
use fx_base::{Kind, Position};
use fx_doc::{Content, Element};
use fx_kinds::Class;
use fx_scene_flaws::Flaw;
use fx_scene_instances::{Field, Found, Made, Want, entered, field_kind, referred};
use fx_scene_outline::{is_define, is_defined_node, is_reference};
use fx_scene_things::{Names, names_behind};
use fx_scene_values::{Given, Scope, literal};
use std::alloc::{AllocError, Global};

/// What one part of a property element that holds one value of the kind makes, as the first part of it or a further
/// one.
pub fn one_part(
    alloc: Global,
    scope: &Scope<'_>,
    kind: Kind,
    first: bool,
    item: &Content,
    names: &mut Names,
) -> Result<Found, AllocError>
    ensures found { IfOk result (λ found. found ≡ (item_told (scope_view scope.now) (One kind) first spec.no_value
        (known names.old) (onto item.now Nothing)).found) }
    ensures names { OnOk result (known names.new ≡ (item_told (scope_view scope.now) (One kind) first spec.no_value
        (known names.old) (onto item.now Nothing)).names) }
{
    read_item(
        alloc,
        scope,
        Part::One(kind),
        first,
        no_value(),
        item,
        names,
    )
}

/// An instance of the class by its attributes and its content, which stands right in a definition or not.
#[tactic(auto, unfolding(crate::specs::Literals::whole))]
pub fn whole(
    alloc: Global,
    scope: &Scope<'_>,
    element: &Element,
    class: Class,
    defined: bool,
    names: &mut Names,
) -> Result<Found, AllocError>
    ensures found { IfOk result (λ found. found ≡ (spec.whole (scope_view scope.now) (known names.old)
        (head_of element.now) (content_of element.now) class defined).found) }
    ensures names { OnOk result (known names.new ≡ (spec.whole (scope_view scope.now) (known names.old)
        (head_of element.now) (content_of element.now) class defined).names) }
{
    read_fields(alloc, scope, element, class, defined, names)
}

/// The content of an element that may have none.
#[tactic(auto, unfolding(crate::specs::Literals::closed))]
pub fn closed(
    alloc: Global,
    scope: &Scope<'_>,
    element: &Element,
    names: &mut Names,
) -> Result<Found, AllocError>
    ensures found { IfOk result (λ found. found
        ≡ (spec.closed (scope_view scope.now) (known names.old) (content_of element.now)).found) }
    ensures names { OnOk result (known names.new
        ≡ (spec.closed (scope_view scope.now) (known names.old) (content_of element.now)).names) }
{
    read_content(
        alloc,
        scope,
        Part::Closed,
        no_value(),
        element.content.as_slice(),
        names,
    )
}

/// What is made behind some content.
#[cycle(reading)]
fn read_content(
    alloc: Global,
    scope: &Scope<'_>,
    part: Part,
    made: Made,
    content: &[Content],
    names: &mut Names,
) -> Result<Found, AllocError>
    ensures found { IfOk result (λ found. found
        ≡ (spec.read_in (scope_view scope.now) part made (known names.old) (nodes_of content.now)).found) }
    ensures names { OnOk result (known names.new
        ≡ (spec.read_in (scope_view scope.now) part made (known names.old) (nodes_of content.now)).names) }
{
    let mut found = Found::Whole(made);
    let mut first = true;
    for item in content {
        found = read_part(alloc, scope, part, first, found, item, names)?;
        first = false;
    }
    Ok(found)
}

#[cycle(reading)]
fn read_part(
    alloc: Global,
    scope: &Scope<'_>,
    part: Part,
    first: bool,
    found: Found,
    item: &Content,
    names: &mut Names,
) -> Result<Found, AllocError>
    ensures found { IfOk result (λ next. next ≡ (part_told (scope_view scope.now) part first
        (spec.told found (known names.old)) (onto item.now Nothing)).found) }
    ensures names { OnOk result (known names.new ≡ (part_told (scope_view scope.now) part first
        (spec.told found (known names.old)) (onto item.now Nothing)).names) }
{
    match found {
        Found::Whole(made) => read_item(alloc, scope, part, first, made, item, names),
        Found::Flaw(flaw, place) => Ok(Found::Flaw(flaw, place)),
        Found::Node(place) => Ok(Found::Node(place)),
    }
}

#[cycle(reading)]
fn read_item(
    alloc: Global,
    scope: &Scope<'_>,
    part: Part,
    first: bool,
    made: Made,
    item: &Content,
    names: &mut Names,
) -> Result<Found, AllocError>
    ensures found { IfOk result (λ next. next ≡ (item_told (scope_view scope.now) part first made
        (known names.old) (onto item.now Nothing)).found) }
    ensures names { OnOk result (known names.new ≡ (item_told (scope_view scope.now) part first made
        (known names.old) (onto item.now Nothing)).names) }
{
    match item {
        Content::Child(element) => read_child(alloc, scope, part, first, made, element, names),
        Content::Chars(text, place) => letters(alloc, part, first, text.as_str(), *place),
    }
}

#[cycle(reading)]
fn read_child(
    alloc: Global,
    scope: &Scope<'_>,
    part: Part,
    first: bool,
    made: Made,
    element: &Element,
    names: &mut Names,
) -> Result<Found, AllocError>
    ensures found { IfOk result (λ next. next ≡ (spec.child_told (scope_view scope.now) part first made
        (known names.old) (λ p m k. spec.read_in (scope_view scope.now) p m k (content_of element.now))
        (head_of element.now) (is_nothing (content_of element.now))).found) }
    ensures names { OnOk result (known names.new ≡ (spec.child_told (scope_view scope.now) part first made
        (known names.old) (λ p m k. spec.read_in (scope_view scope.now) p m k (content_of element.now))
        (head_of element.now) (is_nothing (content_of element.now))).names) }
{
    match part {
        Part::One(kind) => read_one(alloc, scope, want_of(kind, first), element, names),
        Part::Fields(class) => read_field(alloc, scope, class, made, element, names),
        Part::Defined => read_defined(alloc, scope, made, element, names),
        Part::Closed => Ok(Found::Flaw(Flaw::Child, element.position)),
    }
}

/// One value, as an instance or a reference.
#[cycle(reading)]
fn read_one(
    alloc: Global,
    scope: &Scope<'_>,
    want: Want,
    element: &Element,
    names: &mut Names,
) -> Result<Found, AllocError>
    ensures found { IfOk result (λ next. next ≡ (spec.one_told (scope_view scope.now)
        (λ p m k. spec.read_in (scope_view scope.now) p m k (content_of element.now)) (known names.old) want
        (head_of element.now)).found) }
    ensures names { OnOk result (known names.new ≡ (spec.one_told (scope_view scope.now)
        (λ p m k. spec.read_in (scope_view scope.now) p m k (content_of element.now)) (known names.old) want
        (head_of element.now)).names) }
{
    if is_reference(element.name.as_str()) {
        return read_reference(alloc, scope, want, element, names);
    }
    read_value(alloc, scope, want, false, element, names)
}

#[cycle(reading)]
fn read_reference(
    alloc: Global,
    scope: &Scope<'_>,
    want: Want,
    element: &Element,
    names: &mut Names,
) -> Result<Found, AllocError>
    ensures found { IfOk result (λ next. next ≡ (spec.reference_told
        (λ p m k. spec.read_in (scope_view scope.now) p m k (content_of element.now)) (known names.old) want
        (head_of element.now)).found) }
    ensures names { OnOk result (known names.new ≡ (spec.reference_told
        (λ p m k. spec.read_in (scope_view scope.now) p m k (content_of element.now)) (known names.old) want
        (head_of element.now)).names) }
{
    let found = referred(alloc, names, want, element)?;
    read_closed(alloc, scope, found, element, names)
}

#[cycle(reading)]
fn read_closed(
    alloc: Global,
    scope: &Scope<'_>,
    found: Found,
    element: &Element,
    names: &mut Names,
) -> Result<Found, AllocError>
    ensures found { IfOk result (λ next. next ≡ (spec.closed_then
        (λ p m k. spec.read_in (scope_view scope.now) p m k (content_of element.now))
        (spec.told found (known names.old))).found) }
    ensures names { OnOk result (known names.new ≡ (spec.closed_then
        (λ p m k. spec.read_in (scope_view scope.now) p m k (content_of element.now))
        (spec.told found (known names.old))).names) }
{
    match found {
        Found::Whole(made) => {
            let content = element.content.as_slice();
            read_content(alloc, scope, Part::Closed, made, content, names)
        }
        Found::Flaw(flaw, place) => Ok(Found::Flaw(flaw, place)),
        Found::Node(place) => Ok(Found::Node(place)),
    }
}

#[cycle(reading)]
fn read_value(
    alloc: Global,
    scope: &Scope<'_>,
    want: Want,
    defined: bool,
    element: &Element,
    names: &mut Names,
) -> Result<Found, AllocError>
    ensures found { IfOk result (λ next. next ≡ (spec.value_told (scope_view scope.now)
        (λ p m k. spec.read_in (scope_view scope.now) p m k (content_of element.now)) (known names.old) want defined
        (head_of element.now)).found) }
    ensures names { OnOk result (known names.new ≡ (spec.value_told (scope_view scope.now)
        (λ p m k. spec.read_in (scope_view scope.now) p m k (content_of element.now)) (known names.old) want defined
        (head_of element.now)).names) }
{
    match entered(scope, want, element) {
        Ok(class) => read_fields(alloc, scope, element, class, defined, names),
        Err(flaw) => Ok(Found::Flaw(flaw, element.position)),
    }
}

#[cycle(reading)]
fn read_fields(
    alloc: Global,
    scope: &Scope<'_>,
    element: &Element,
    class: Class,
    defined: bool,
    names: &mut Names,
) -> Result<Found, AllocError>
    ensures found { IfOk result (λ next. next ≡ (spec.class_told (scope_view scope.now)
        (λ p m k. spec.read_in (scope_view scope.now) p m k (content_of element.now)) (known names.old)
        (head_of element.now) class defined).found) }
    ensures names { OnOk result (known names.new ≡ (spec.class_told (scope_view scope.now)
        (λ p m k. spec.read_in (scope_view scope.now) p m k (content_of element.now)) (known names.old)
        (head_of element.now) class defined).names) }
{
    let attributes = element.attributes.as_slice();
    let found = made_from(alloc, scope, class, attributes, names)?;
    let inside = read_inside(alloc, scope, class, found, element, names)?;
    finish(
        alloc,
        class,
        defined,
        element.attributes.as_slice(),
        inside,
        names,
    )
}

#[cycle(reading)]
fn read_inside(
    alloc: Global,
    scope: &Scope<'_>,
    class: Class,
    found: Found,
    element: &Element,
    names: &mut Names,
) -> Result<Found, AllocError>
    ensures found { IfOk result (λ next. next ≡ (spec.inside_then
        (λ p m k. spec.read_in (scope_view scope.now) p m k (content_of element.now)) class
        (spec.told found (known names.old))).found) }
    ensures names { OnOk result (known names.new ≡ (spec.inside_then
        (λ p m k. spec.read_in (scope_view scope.now) p m k (content_of element.now)) class
        (spec.told found (known names.old))).names) }
{
    match found {
        Found::Whole(made) => {
            let content = element.content.as_slice();
            read_content(alloc, scope, Part::Fields(class), made, content, names)
        }
        Found::Flaw(flaw, place) => Ok(Found::Flaw(flaw, place)),
        Found::Node(place) => Ok(Found::Node(place)),
    }
}

/// A property element or a definition within a value.
#[cycle(reading)]
fn read_field(
    alloc: Global,
    scope: &Scope<'_>,
    class: Class,
    made: Made,
    element: &Element,
    names: &mut Names,
) -> Result<Found, AllocError>
    ensures found { IfOk result (λ next. next ≡ (spec.field_told (scope_view scope.now)
        (λ p m k. spec.read_in (scope_view scope.now) p m k (content_of element.now)) (known names.old) class made
        (head_of element.now) (is_nothing (content_of element.now))).found) }
    ensures names { OnOk result (known names.new ≡ (spec.field_told (scope_view scope.now)
        (λ p m k. spec.read_in (scope_view scope.now) p m k (content_of element.now)) (known names.old) class made
        (head_of element.now) (is_nothing (content_of element.now))).names) }
{
    if is_define(element.name.as_str()) {
        return read_define(alloc, scope, made, element, names);
    }
    read_named(alloc, scope, class, made, element, names)
}

/// A definition within a value has no attributes.
#[cycle(reading)]
fn read_define(
    alloc: Global,
    scope: &Scope<'_>,
    made: Made,
    element: &Element,
    names: &mut Names,
) -> Result<Found, AllocError>
    ensures found { IfOk result (λ next. next ≡ (spec.define_by
        (λ p m k. spec.read_in (scope_view scope.now) p m k (content_of element.now)) (known names.old) made
        (head_of element.now).attributes).found) }
    ensures names { OnOk result (known names.new ≡ (spec.define_by
        (λ p m k. spec.read_in (scope_view scope.now) p m k (content_of element.now)) (known names.old) made
        (head_of element.now).attributes).names) }
{
    match element.attributes.as_slice() {
        [first, ..] => Ok(Found::Flaw(Flaw::Property, first.position)),
        [] => {
            let content = element.content.as_slice();
            read_content(alloc, scope, Part::Defined, made, content, names)
        }
    }
}

/// An element of a definition within a value: a node that was read is passed over, and the names behind it are known.
#[cycle(reading)]
fn read_defined(
    alloc: Global,
    scope: &Scope<'_>,
    made: Made,
    element: &Element,
    names: &mut Names,
) -> Result<Found, AllocError>
    ensures found { IfOk result (λ next. next ≡ (spec.defined_told (scope_view scope.now)
        (λ p m k. spec.read_in (scope_view scope.now) p m k (content_of element.now)) made (known names.old)
        (head_of element.now)).found) }
    ensures names { OnOk result (known names.new ≡ (spec.defined_told (scope_view scope.now)
        (λ p m k. spec.read_in (scope_view scope.now) p m k (content_of element.now)) made (known names.old)
        (head_of element.now)).names) }
{
    if is_defined_node(element) {
        let behind = names_behind(scope.settled, element.position);
        return pass_node(alloc, made, element.position, behind, names);
    }
    read_defined_value(alloc, scope, made, element, names)
}

#[cycle(reading)]
fn read_defined_value(
    alloc: Global,
    scope: &Scope<'_>,
    made: Made,
    element: &Element,
    names: &mut Names,
) -> Result<Found, AllocError>
    ensures found { IfOk result (λ next. next ≡ (spec.defined_value (scope_view scope.now)
        (λ p m k. spec.read_in (scope_view scope.now) p m k (content_of element.now)) made (known names.old)
        (head_of element.now)).found) }
    ensures names { OnOk result (known names.new ≡ (spec.defined_value (scope_view scope.now)
        (λ p m k. spec.read_in (scope_view scope.now) p m k (content_of element.now)) made (known names.old)
        (head_of element.now)).names) }
{
    let found = read_value(alloc, scope, Want::Defined, true, element, names)?;
    Ok(kept(made, found))
}

#[cycle(reading)]
fn read_named(
    alloc: Global,
    scope: &Scope<'_>,
    class: Class,
    made: Made,
    element: &Element,
    names: &mut Names,
) -> Result<Found, AllocError>
    ensures found { IfOk result (λ next. next ≡ (spec.field_held
        (λ p m k. spec.read_in (scope_view scope.now) p m k (content_of element.now)) (known names.old) class made
        (head_of element.now) (is_nothing (content_of element.now))
        (spec.field_at (scope_view scope.now) class (head_of element.now))).found) }
    ensures names { OnOk result (known names.new ≡ (spec.field_held
        (λ p m k. spec.read_in (scope_view scope.now) p m k (content_of element.now)) (known names.old) class made
        (head_of element.now) (is_nothing (content_of element.now))
        (spec.field_at (scope_view scope.now) class (head_of element.now))).names) }
{
    match field_at(scope, class, element) {
        Ok(field) => read_held(alloc, scope, class, field, made, element, names),
        Err(flaw) => Ok(Found::Flaw(flaw, element.position)),
    }
}

/// A property element that holds one value for a field.
#[cycle(reading)]
fn read_held(
    alloc: Global,
    scope: &Scope<'_>,
    class: Class,
    field: Field,
    made: Made,
    element: &Element,
    names: &mut Names,
) -> Result<Found, AllocError>
    ensures found { IfOk result (λ next. next ≡ (spec.held_if
        (λ p m k. spec.read_in (scope_view scope.now) p m k (content_of element.now)) (known names.old) class field made
        (spec.bare_fault (head_of element.now).position (head_of element.now).attributes
        (is_nothing (content_of element.now)))).found) }
    ensures names { OnOk result (known names.new ≡ (spec.held_if
        (λ p m k. spec.read_in (scope_view scope.now) p m k (content_of element.now)) (known names.old) class field made
        (spec.bare_fault (head_of element.now).position (head_of element.now).attributes
        (is_nothing (content_of element.now)))).names) }
{
    match bare_fault(element) {
        Some(fault) => Ok(Found::Flaw(fault.flaw, fault.place)),
        None => {
            let part = Part::One(field_kind(class, field));
            let content = element.content.as_slice();
            let found = read_content(alloc, scope, part, no_value(), content, names)?;
            Ok(with_found(field, found, made))
        }
    }
}

/// A node stops the reading, unless it was read: then the names behind it are known.
fn pass_node(
    alloc: Global,
    made: Made,
    place: Position,
    behind: Option<&Names>,
    names: &mut Names,
) -> Result<Found, AllocError>
    ensures found { IfOk result (λ next. next ≡ (spec.settled_told made (known names.old) place
        (option_map (λ names. known names.now) behind.entry)).found) }
    ensures names { OnOk result (known names.new ≡ (spec.settled_told made (known names.old) place
        (option_map (λ names. known names.now) behind.entry)).names) }
{
    match behind {
        Some(behind) => {
            *names = behind.copy(alloc)?;
            Ok(Found::Whole(made))
        }
        None => Ok(Found::Node(place)),
    }
}

/// What is wanted of a part of a property element that holds one value, as the first part of it or a further one.
pub fn want_of(kind: Kind, first: bool) -> Want
    ensures { result ≡ spec.want_of kind first }
{
    if first {
        Want::Value(kind)
    } else {
        Want::Another(kind)
    }
}

fn letters(
    alloc: Global,
    part: Part,
    first: bool,
    text: &str,
    place: Position,
) -> Result<Found, AllocError>
    ensures { IfOk result (λ found. found ≡ spec.letters part first text.now place) }
{
    match part {
        Part::One(kind) => Ok(text_if(first, place, literal(alloc, kind, text)?)),
        _ => Ok(Found::Flaw(Flaw::Child, place)),
    }
}

fn text_if(first: bool, place: Position, given: Given) -> Found
    ensures { result ≡ spec.text_if first place given }
{
    match given {
        Given::Flaw(flaw) => Found::Flaw(flaw, place),
        Given::Value(value) => {
            if first {
                Found::Whole(Made::Plain(value))
            } else {
                Found::Flaw(Flaw::Child, place)
            }
        }
    }
}
