//! Property elements that hold one value.
ghost use Rattle.std.specs.Prelude.{◌≡◌};
ghost use Rattle.fx_doc_grammar.specs.Machine.{is_nothing};
ghost use Rattle.fx_scene_literals.specs.Literals as spec;
ghost use Rattle.fx_scene_outline.specs.Views.{content_of, head_of};
ghost use Rattle.fx_scene_values.specs.Views.{scope_view};

use fx_doc::Element;
use fx_kinds::Class;
use fx_scene_flaws::{Fault, Flaw};
use fx_scene_instances::{Field, Want, entered, field_named};
use fx_scene_names::{is_instance, is_static, lacks_owner};
use fx_scene_outline::{is_include, is_reference};
use fx_scene_values::Scope;

/// What is wrong with a property element that holds one value, besides that: it has no attributes, and holds something.
pub fn bare_fault(element: &Element) -> Option<Fault>
    ensures { result ≡ spec.bare_fault (head_of element.now).position (head_of element.now).attributes
        (is_nothing (content_of element.now)) }
{
    match element.attributes.as_slice() {
        [first, ..] => Some(Fault {
            flaw: Flaw::Property,
            place: first.position,
        }),
        [] => empty_fault(element),
    }
}

fn empty_fault(element: &Element) -> Option<Fault>
    ensures { result ≡ spec.empty_fault (head_of element.now).position (is_nothing (content_of element.now)) }
{
    if has_no_content(element) {
        Some(Fault {
            flaw: Flaw::Value,
            place: element.position,
        })
    } else {
        None
    }
}

fn has_no_content(element: &Element) -> bool
    ensures { result ≡ is_nothing (content_of element.now) }
{
    element.content.is_empty()
}

/// The field that a property element gives a value.
#[tactic(auto, unfolding(crate::specs::Literals::field_at))]
pub(crate) fn field_at(scope: &Scope<'_>, class: Class, element: &Element) -> Result<Field, Flaw>
    ensures { result ≡ spec.field_at (scope_view scope.now) class (head_of element.now) }
{
    let name = element.name.as_str();
    if is_object(name) {
        return Err(nothing_flaw(entered(scope, Want::Nothing, element)));
    }
    if is_static(name) {
        return Err(static_flaw(scope, name));
    }
    field_if(field_named(class, name))
}

fn field_if(field: Option<Field>) -> Result<Field, Flaw>
    ensures { result ≡ spec.field_if field }
{
    match field {
        Some(field) => Ok(field),
        None => Err(Flaw::Property),
    }
}

fn nothing_flaw(entered: Result<Class, Flaw>) -> Flaw
    ensures { result ≡ spec.nothing_flaw entered }
{
    match entered {
        Ok(_) => Flaw::Child,
        Err(flaw) => flaw,
    }
}

fn is_object(name: &str) -> bool
    ensures { result ≡ spec.is_object name.now }
{
    is_instance(name) || (is_include(name) || is_reference(name))
}

fn static_flaw(scope: &Scope<'_>, name: &str) -> Flaw
    ensures { result ≡ spec.static_flaw (scope_view scope.now) name.now }
{
    if lacks_owner(scope.imports, name) {
        Flaw::Import
    } else {
        Flaw::Property
    }
}
