//! Which instances are nodes.
ghost use Rattle.std.specs.Prelude.{◌≡◌, map};
ghost use Rattle.std.specs.List.{list_any};
ghost use Rattle.fx_doc.specs.Views.{attr_view};
ghost use Rattle.fx_scene_outline.specs.Nodes as spec;
ghost use Rattle.fx_scene_outline.specs.Views.{head_of};

use fx_doc::{Attribute, Element};
use fx_kinds::{Class, is_node};
use fx_scene_names::class_named;

/// Is there an attribute of this name?
pub fn has_attribute(attributes: &[Attribute], name: &str) -> bool
    ensures { result ≡ spec.has_attribute (map attr_view attributes.now) name.now }
{
    any_has(attributes, name)
}

fn any_has(attributes: &[Attribute], name: &str) -> bool
    ensures { result ≡ list_any (λ a. spec.has_name name.now (attr_view a)) attributes.now }
{
    attributes.iter().any(|a| has_name(a, name))
}

fn has_name(a: &Attribute, name: &str) -> bool
    ensures { result ≡ spec.has_name name.now (attr_view a.now) }
{
    a.name.as_str() == name
}

/// Is an instance of the class with these attributes a node? A region with a constant stands for a number.
pub fn is_scene_node(class: Class, attributes: &[Attribute]) -> bool
    ensures { result ≡ spec.is_scene_node class (map attr_view attributes.now) }
{
    is_node(class) && !is_number(class, attributes)
}

fn is_number(class: Class, attributes: &[Attribute]) -> bool
    ensures { result ≡ spec.is_number class (map attr_view attributes.now) }
{
    is_region(class) && has_attribute(attributes, "fx:constant")
}

fn is_region(class: Class) -> bool
    ensures { result ≡ spec.is_region class }
{
    matches!(class, Class::Region)
}

pub fn is_define(name: &str) -> bool
    ensures { result ≡ spec.is_define name.now }
{
    name == "fx:define"
}

pub fn is_reference(name: &str) -> bool
    ensures { result ≡ spec.is_reference name.now }
{
    name == "fx:reference"
}

pub fn is_include(name: &str) -> bool
    ensures { result ≡ spec.is_include name.now }
{
    name == "fx:include"
}

/// Is an element of a definition a node? An instance may be one, and the root of another document is.
#[tactic(auto, unfolding(crate::specs::Nodes::is_defined_node))]
pub fn is_defined_node(element: &Element) -> bool
    ensures { result ≡ spec.is_defined_node (head_of element.now) }
{
    is_include(element.name.as_str()) || is_node_if(element, class_named(element.name.as_str()))
}

fn is_node_if(element: &Element, class: Option<Class>) -> bool
    ensures { result ≡ spec.is_node_if (head_of element.now) class }
{
    match class {
        Some(class) => is_scene_node(class, element.attributes.as_slice()),
        None => false,
    }
}
