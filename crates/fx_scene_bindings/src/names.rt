//! The names of a document's instances.
ghost use Rattle.std.specs.Prelude.{◌≡◌, OnOk, map};
ghost use Rattle.std.specs.List.{find};
ghost use Rattle.std.specs.Option.{option_map};
ghost use Rattle.fx_doc.specs.Views.{attr_view};
ghost use Rattle.fx_scene_bindings.specs.Names as spec;
ghost use Rattle.fx_scene_outline.specs.Views.{head_of};
ghost use Rattle.fx_scene_things.specs.Known.{known};

use fx_base::Text;
use fx_doc::{Attribute, Element};
use fx_kinds::Class;
use fx_scene_names::class_named;
use fx_scene_things::{Named, Names, Thing};
use std::alloc::{AllocError, Global};

/// Adds the name of an instance that is the node of this ordinal, if it has one.
pub fn add_name(
    alloc: Global,
    element: &Element,
    node: usize,
    names: &mut Names,
) -> Result<(), AllocError>
    ensures ok { OnOk result (known names.new ≡ spec.instance_names (known names.old) node (head_of element.now)) }
{
    match class_named(element.name.as_str()) {
        Some(class) => add_named(
            alloc,
            element.attributes.as_slice(),
            plain_node(node, class),
            names,
        ),
        None => Ok(()),
    }
}

fn plain_node(node: usize, class: Class) -> Named
    ensures { result ≡ spec.plain_node node class }
{
    Named {
        node,
        class,
        inside: None,
    }
}

/// Adds the name that these attributes give a node, if they do.
pub fn add_named(
    alloc: Global,
    attributes: &[Attribute],
    named: Named,
    names: &mut Names,
) -> Result<(), AllocError>
    ensures ok { OnOk result (known names.new
        ≡ spec.named_by (known names.old) named (map attr_view attributes.now)) }
{
    match value_at(attributes, "fx:id") {
        Some(name) => names.put(alloc, name.as_str(), Thing::Node(named)),
        None => Ok(()),
    }
}

/// The text of the attribute of this name.
pub fn value_at<'a>(attributes: &'a [Attribute], name: &str) -> Option<&'a Text>
    ensures { option_map (λ text. text.now) result ≡ spec.value_at (map attr_view attributes.now) name.now }
{
    match attribute_named(attributes, name) {
        Some(attribute) => Some(&attribute.value),
        None => None,
    }
}

/// The attribute of this name.
pub fn attribute_named<'a>(attributes: &'a [Attribute], name: &str) -> Option<&'a Attribute>
    ensures { option_map (λ a. attr_view a.now) result
        ≡ spec.attribute_named (map attr_view attributes.now) name.now }
{
    first(attributes, name)
}

fn first<'a>(attributes: &'a [Attribute], name: &str) -> Option<&'a Attribute>
    ensures { option_map (λ a. a.now) result ≡ find (λ a. spec.has_name name.now (attr_view a)) attributes.now }
{
    attributes.iter().find(|a| has_name(a, name))
}

fn has_name(a: &Attribute, name: &str) -> bool
    ensures { result ≡ spec.has_name name.now (attr_view a.now) }
{
    a.name.as_str() == name
}
