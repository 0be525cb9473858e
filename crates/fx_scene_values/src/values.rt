//! Values by their kinds.
ghost use Rattle.std.specs.Prelude.{◌≡◌, IfOk};
ghost use Rattle.std.specs.Option.{option_copied, option_map};
ghost use Rattle.std.specs.String.{string_bytes};
ghost use Rattle.fx_scene_things.specs.Known.{known};
ghost use Rattle.fx_scene_values.specs.Values as spec;
ghost use Rattle.fx_scene_values.specs.Views.{form_view, scope_view};

use crate::forms::Form;
use crate::scopes::Scope;
use crate::shown::{decimal, truth};
use fx_base::{Kind, Str, Text, Value};
use fx_graph_refusals::refusals::is_same_kind;
use fx_scene_flaws::Flaw;
use fx_scene_places::joined;
use fx_scene_plan::PlannedProperty;
use fx_scene_things::{Names, Thing};
use fx_stage_words::read;
use std::alloc::{AllocError, Global};

/// A value, or what is wrong with its text.
#[derive(Drop)]
pub enum Given {
    Value(Value),
    Flaw(Flaw),
}

/// The value of a kind that a text of this form gives, where these names are known.
pub fn value_in(
    alloc: Global,
    scope: &Scope<'_>,
    names: &Names,
    kind: Kind,
    form: Form<'_>,
) -> Result<Given, AllocError>
    ensures { IfOk result (λ given. given
        ≡ spec.value_in (scope_view scope.now) (known names.now) kind (form_view form.entry)) }
{
    match form {
        Form::Literal(text) => literal(alloc, kind, text),
        Form::Named(name) => named(alloc, kind, names.get(name)),
        Form::Located(path) => located(alloc, scope, kind, path),
        Form::Bound(_) | Form::Refused => Ok(Given::Flaw(Flaw::Value)),
    }
}

/// The value that the text spells.
#[tactic(auto, unfolding(crate::specs::Values::literal))]
pub fn literal(alloc: Global, kind: Kind, text: &str) -> Result<Given, AllocError>
    ensures { IfOk result (λ given. given ≡ spec.literal kind text.now) }
{
    match read(alloc, kind, text)? {
        Some(value) => Ok(Given::Value(value)),
        None => Ok(Given::Flaw(Flaw::Value)),
    }
}

/// The value that a name stands for.
fn named(alloc: Global, kind: Kind, thing: Option<&Thing>) -> Result<Given, AllocError>
    ensures { IfOk result (λ given. given ≡ spec.named kind (option_copied thing.entry)) }
{
    match thing {
        Some(thing) => named_thing(alloc, kind, thing),
        None => Ok(Given::Flaw(Flaw::Name)),
    }
}

fn named_thing(alloc: Global, kind: Kind, thing: &Thing) -> Result<Given, AllocError>
    ensures { IfOk result (λ given. given ≡ spec.named_thing kind thing.now) }
{
    match thing {
        Thing::Value(value, _) => given_as(alloc, kind, value),
        _ => Ok(Given::Flaw(Flaw::Name)),
    }
}

/// A value where this kind is wanted: a number or a truth is printed where a text is.
fn given_as(alloc: Global, kind: Kind, value: &Value) -> Result<Given, AllocError>
    ensures { IfOk result (λ given. given ≡ spec.given_as kind value.now) }
{
    match kind {
        Kind::Text => text_from(alloc, value),
        _ => same_given(alloc, kind, value),
    }
}

fn text_from(alloc: Global, value: &Value) -> Result<Given, AllocError>
    ensures { IfOk result (λ given. given ≡ spec.text_from value.now) }
{
    match value {
        Value::Int(number) => Ok(text_given(decimal(alloc, *number)?)),
        Value::Bool(holds) => Ok(text_given(truth(alloc, *holds)?)),
        _ => same_given(alloc, Kind::Text, value),
    }
}

/// A value of the kind itself.
pub fn same_given(alloc: Global, kind: Kind, value: &Value) -> Result<Given, AllocError>
    ensures { IfOk result (λ given. given ≡ spec.same_given kind value.now) }
{
    if is_same_kind(value.kind(), kind) {
        Ok(Given::Value(value.copy(alloc)?))
    } else {
        Ok(Given::Flaw(Flaw::Kinds))
    }
}

/// A location is a text, and no other value.
fn located(alloc: Global, scope: &Scope<'_>, kind: Kind, path: &str) -> Result<Given, AllocError>
    ensures { IfOk result (λ given. given ≡ spec.located (scope_view scope.now) kind path.now) }
{
    match kind {
        Kind::Text => location_given(alloc, scope, path),
        _ => Ok(Given::Flaw(Flaw::Value)),
    }
}

/// The name of the file that the location means, as a text.
pub fn location_given(alloc: Global, scope: &Scope<'_>, path: &str) -> Result<Given, AllocError>
    ensures { IfOk result (λ given. given ≡ spec.location_given (scope_view scope.now) path.now) }
{
    let name = joined(alloc, scope.file, path)?;
    text_if(alloc, name)
}

fn text_if(alloc: Global, name: Option<Str>) -> Result<Given, AllocError>
    ensures { IfOk result (λ given. given ≡ spec.text_if name) }
{
    match name {
        Some(name) => Ok(text_given(String::from_str(alloc, name.as_str())?)),
        None => Ok(Given::Flaw(Flaw::Value)),
    }
}

/// A text of at most 4,096 characters.
fn text_given(text: String) -> Given
    ensures { result ≡ spec.text_given (string_bytes text) }
{
    match Text::from_string(text) {
        Some(text) => Given::Value(Value::Text(text)),
        None => Given::Flaw(Flaw::Value),
    }
}

/// The property of this name of the node of an ordinal.
pub fn planned_property(
    alloc: Global,
    node: usize,
    name: &str,
) -> Result<PlannedProperty, AllocError>
    ensures { IfOk result (λ planned. planned ≡ spec.property_of node name.now) }
{
    match Text::from_str(alloc, name) {
        Ok(property) => Ok(PlannedProperty { node, property }),
        Err(_) => Err(AllocError),
    }
}

/// The name of the file that a text means where a location is wanted, with or without `@`.
pub fn path_in(
    alloc: Global,
    scope: &Scope<'_>,
    names: &Names,
    form: Form<'_>,
) -> Result<Given, AllocError>
    ensures { IfOk result (λ given. given
        ≡ spec.path_in (scope_view scope.now) (known names.now) (form_view form.entry)) }
{
    match form {
        Form::Located(path) => location_given(alloc, scope, path),
        _ => {
            let given = value_in(alloc, scope, names, Kind::Text, form)?;
            path_given(alloc, scope, given)
        }
    }
}

fn path_given(alloc: Global, scope: &Scope<'_>, given: Given) -> Result<Given, AllocError>
    ensures { IfOk result (λ path. path ≡ spec.path_given (scope_view scope.now) given) }
{
    match given {
        Given::Value(Value::Text(path)) => location_given(alloc, scope, path.as_str()),
        Given::Value(_) => Ok(Given::Flaw(Flaw::Value)),
        Given::Flaw(flaw) => Ok(Given::Flaw(flaw)),
    }
}
