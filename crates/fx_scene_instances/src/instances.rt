//! Instances where values and parts of lists are wanted.
ghost use Rattle.std.specs.Prelude.{◌≡◌};
ghost use Rattle.fx_scene_instances.specs.Instances as spec;
ghost use Rattle.fx_scene_outline.specs.Views.{head_of};
ghost use Rattle.fx_scene_values.specs.Views.{scope_view};

use crate::needs::{is_location, lacks_value};
use fx_base::Kind;
use fx_doc::Element;
use fx_graph_refusals::refusals::is_same_kind;
use fx_kinds::{Class, value_kind};
use fx_scene_flaws::Flaw;
use fx_scene_names::{class_named, is_instance, lacks_import};
use fx_scene_outline::{has_attribute, is_define, is_include, is_reference, is_scene_node};
use fx_scene_values::Scope;

/// What is wanted at a place.
#[derive(Clone, Copy, Debug, PartialEq, Eq)]
pub enum Want {
    /// A value of the kind.
    Value(Kind),
    /// Nothing more, where a value of the kind stands already.
    Another(Kind),
    /// A style class.
    Name,
    /// The constraint of a column.
    Column,
    /// The constraint of a row.
    Row,
    /// Anything, in a definition within a value.
    Defined,
    Nothing,
}

/// The class of an instance that may stand where this is wanted, or what is wrong with an element at its name.
#[tactic(auto, unfolding(crate::specs::Instances::entered))]
pub fn entered(scope: &Scope<'_>, want: Want, element: &Element) -> Result<Class, Flaw>
    ensures { result ≡ spec.entered (scope_view scope.now) want (head_of element.now) }
{
    if !is_instance(element.name.as_str()) {
        return Err(outside_flaw(element));
    }
    match class_named(element.name.as_str()) {
        Some(class) => class_fit(scope, want, element, class),
        None => Err(Flaw::Class),
    }
}

fn class_fit(scope: &Scope<'_>, want: Want, element: &Element, class: Class) -> Result<Class, Flaw>
    ensures { result ≡ spec.class_fit (scope_view scope.now) want (head_of element.now) class }
{
    if lacks_import(scope.imports, element.name.as_str(), class) {
        return Err(Flaw::Import);
    }
    if is_scene_node(class, element.attributes.as_slice()) {
        return Err(Flaw::Child);
    }
    if lacks_value(class, element.attributes.as_slice()) {
        return Err(Flaw::Value);
    }
    unless_flaw(class, misfit(want, class))
}

fn unless_flaw(class: Class, flaw: Option<Flaw>) -> Result<Class, Flaw>
    ensures { result ≡ spec.unless_flaw class flaw }
{
    match flaw {
        Some(flaw) => Err(flaw),
        None => Ok(class),
    }
}

fn misfit(want: Want, class: Class) -> Option<Flaw>
    ensures { result ≡ spec.misfit want class }
{
    match want {
        Want::Value(kind) => kind_flaw(kind, kind_of(class)),
        Want::Another(kind) => more_flaw(kind_flaw(kind, kind_of(class))),
        Want::Name => name_flaw(class),
        Want::Column => flaw_unless(is_column(class), Flaw::Child),
        Want::Row => flaw_unless(is_row(class), Flaw::Child),
        Want::Defined => None,
        Want::Nothing => Some(Flaw::Child),
    }
}

fn kind_flaw(wanted: Kind, kind: Option<Kind>) -> Option<Flaw>
    ensures { result ≡ spec.kind_flaw wanted kind }
{
    match kind {
        Some(kind) => flaw_unless(is_same_kind(kind, wanted), Flaw::Kinds),
        None => Some(Flaw::Child),
    }
}

fn more_flaw(flaw: Option<Flaw>) -> Option<Flaw>
    ensures { result ≡ spec.more_flaw flaw }
{
    match flaw {
        Some(flaw) => Some(flaw),
        None => Some(Flaw::Child),
    }
}

fn name_flaw(class: Class) -> Option<Flaw>
    ensures { result ≡ spec.name_flaw class }
{
    if is_location(class) {
        None
    } else {
        kind_flaw(Kind::Text, kind_of(class))
    }
}

fn flaw_unless(fits: bool, flaw: Flaw) -> Option<Flaw>
    ensures { result ≡ spec.flaw_unless fits flaw }
{
    if fits { None } else { Some(flaw) }
}

/// The kind of the values that instances of the class are.
fn kind_of(class: Class) -> Option<Kind>
    ensures { result ≡ spec.kind_of class }
{
    match class {
        Class::Region => Some(Kind::Int),
        _ => value_kind(class),
    }
}

fn is_column(class: Class) -> bool
    ensures { result ≡ spec.is_column class }
{
    matches!(class, Class::ColumnConstraints)
}

fn is_row(class: Class) -> bool
    ensures { result ≡ spec.is_row class }
{
    matches!(class, Class::RowConstraints)
}

/// What is wrong with an element that is no instance.
fn outside_flaw(element: &Element) -> Flaw
    ensures { result ≡ spec.outside_flaw (head_of element.now) }
{
    if is_include(element.name.as_str()) || is_reference(element.name.as_str()) {
        return insert_flaw(element);
    }
    if is_define(element.name.as_str()) {
        Flaw::Child
    } else {
        Flaw::Property
    }
}

fn insert_flaw(element: &Element) -> Flaw
    ensures { result ≡ spec.insert_flaw (head_of element.now) }
{
    if has_attribute(element.attributes.as_slice(), "source") {
        Flaw::Child
    } else {
        Flaw::Value
    }
}
